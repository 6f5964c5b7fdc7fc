ghost use Rattle.std.specs.Prelude.{◌≡◌, ℕ, List, IfOk, option_and_then};
ghost use Rattle.rs_queries.specs.declared.compiled.Built.{Built};
ghost use Rattle.rs_queries.specs.Built.{IsClean, clean_of};
ghost use Rattle.rs_queries.specs.Reading.{IsReading};

use crate::compiled::{Built, CleanBuild, Compiled};
use crate::compiling::compile_read;
use crate::reading::{Reading, read};
use inc_base::{Bytes, Compiler, Memory, Meter};
use std::alloc::Global;

/// The clean build of a text by a compiler: its diagnostics, how many units it has, and, where no line is an error's, the image,
/// where its objects can be linked (docs/FORMATS.md, "A build"). `Memory` as `compile` answers it.
pub fn clean(alloc: Global, text: &[u8], compiler: Compiler) -> Result<CleanBuild, Memory>
    ensures { IfOk result (IsClean text.now compiler.level) }
{
    let reading = read(alloc, text)?;
    let build = clean_read(alloc, &reading, compiler)?;
    Ok(build)
}

/// The same of a text that was read.
pub fn clean_read(
    alloc: Global,
    reading: &Reading,
    compiler: Compiler,
) -> Result<CleanBuild, Memory>
    ensures { (bytes : List ℕ) → IsReading bytes reading.now → IfOk result (IsClean bytes compiler.level) }
{
    let mut meter = Meter::new();
    let compiled = compile_read(alloc, reading, compiler, &mut meter)?;
    Ok(clean_of(compiled))
}

fn clean_of(compiled: Compiled) -> CleanBuild
    ensures { result ≡ clean_of compiled }
{
    let Compiled {
        diags,
        units,
        built,
    } = compiled;
    CleanBuild {
        diags,
        image: image_in(built),
        units,
    }
}

fn image_in(built: Option<Built>) -> Option<Bytes>
    ensures { result ≡ option_and_then (λ (b : Built). b.image) built }
{
    match built {
        None => None,
        Some(built) => image_alone(built),
    }
}

fn image_alone(built: Built) -> Option<Bytes>
    ensures { result ≡ built.image }
{
    let Built { objects, image } = built;
    drop(objects);
    image
}
