//! The compiler, by direct calls.

ghost use Rattle.std.specs.Prelude.{◌≡◌, ℕ, List, length, map, IfOk};
ghost use Rattle.std.specs.Option.{option_map};
ghost use Rattle.inc_base.specs.Meters.{raised};
ghost use Rattle.rs_queries.specs.Built.{IsCompiled, IsFaultCompiled, IsTreeCompiled, consts_of, emitted, emitted_by, form_of, objects_in, output_of};
ghost use Rattle.rs_queries.specs.Reading.{IsReading};
ghost use Rattle.rs_queries.specs.State.{IsItemsCompiled};

use crate::checked::check_tree;
use crate::compiled::{Built, Compiled};
use crate::fault::fault_text;
use crate::forms::{consts_of, forms_of};
use crate::known::{Known, known_of};
use crate::objects::objects_in;
use crate::output::output_of;
use crate::reading::{Reading, read};
use inc_base::{Bytes, Compiler, List, Memory, Meter, rises_add_up};
use rs_names::index;
use rs_text::TextFault;
use rs_tree::{Crate, Index, Place, Placed};
use rs_units::units;
use std::alloc::Global;

/// What a compiler makes of a text: its diagnostics, as `diagnose` gives them, how many units it has, and, where no line is an
/// error's, the object of each unit and the image of all (docs/FORMATS.md, "A build").
///
/// The meter rises by one for each unit whose object is emitted: by the number of units where no line is an error's, and else not
/// at all. `Memory` where there is none for what is made; the meter may then have risen for some of the units.
pub fn compile(
    alloc: Global,
    text: &[u8],
    compiler: Compiler,
    meter: &mut Meter,
) -> Result<Compiled, Memory>
    ensures is { IfOk result (IsCompiled text.now compiler.level) }
    ensures emitted { IfOk result (λ c. meter.new ≡ raised meter.old (emitted c)) }
{
    let reading = read(alloc, text)?;
    let compiled = compile_read(alloc, &reading, compiler, meter)?;
    Ok(compiled)
}

/// The same of a text that was read. The meter and `Memory` are as `compile` has them.
pub fn compile_read(
    alloc: Global,
    reading: &Reading,
    compiler: Compiler,
    meter: &mut Meter,
) -> Result<Compiled, Memory>
    ensures is { (bytes : List ℕ) → IsReading bytes reading.now → IfOk result (IsCompiled bytes compiler.level) }
    ensures emitted { IfOk result (λ c. meter.new ≡ raised meter.old (emitted c)) }
{
    rises_add_up();
    match reading {
        Reading::Tree(tree) => compile_tree(alloc, tree, compiler.level, meter),
        Reading::Fault(fault) => compile_fault(alloc, fault),
    }
}

/// What a compiler makes of a text with a fault: its one line.
pub fn compile_fault(alloc: Global, fault: &TextFault) -> Result<Compiled, Memory>
    ensures { IfOk result (IsFaultCompiled fault.now) }
{
    let diags = fault_text(alloc, fault)?;
    Ok(Compiled {
        diags,
        units: 0,
        built: None,
    })
}

fn compile_tree(
    alloc: Global,
    tree: &Crate,
    level: u8,
    meter: &mut Meter,
) -> Result<Compiled, Memory>
    ensures is { IfOk result (IsTreeCompiled tree.now level) }
    ensures emitted { IfOk result (λ c. meter.new ≡ raised meter.old (emitted c)) }
{
    let index = index(tree)?;
    compile_items(alloc, tree.items.as_slice(), &index, level, meter)
}

fn compile_items<'a>(
    alloc: Global,
    placed: &'a [Placed],
    index: &'a Index,
    level: u8,
    meter: &mut Meter,
) -> Result<Compiled, Memory>
    ensures is { IfOk result (IsItemsCompiled index.now placed.now level) }
    ensures emitted { IfOk result (λ c. meter.new ≡ raised meter.old (emitted c)) }
{
    let known = known_of(alloc, placed, index)?;
    let checked = check_tree(alloc, &*index, &known)?;
    let diags = checked.lines.print(alloc)?;
    let units = units(index)?;
    let built = build_if(
        alloc,
        &*index,
        &known,
        &checked.calls,
        units.as_slice(),
        level,
        meter,
    )?;
    Ok(Compiled {
        diags,
        units: units.len() as u32,
        built,
    })
}

// Where no line is an error's, the calls are known.
fn build_if<'a>(
    alloc: Global,
    index: &'a Index,
    known: &'a Known<'_>,
    calls: &'a Option<List<(Place, List<Place>)>>,
    units: &[Bytes],
    level: u8,
    meter: &mut Meter,
) -> Result<Option<Built>, Memory>
    ensures is { IfOk result (λ b. b ≡ option_map (λ cs. output_of (objects_in index.now.items cs (map (form_of level known.now.sigs (consts_of known.now.constants known.now.values.items)) known.now.answered.items) units.now)) calls.now) }
    ensures emitted { IfOk result (λ b. meter.new ≡ raised meter.old (emitted_by b)) }
{
    rises_add_up();
    match calls {
        None => Ok(None),
        Some(calls) => Ok(Some(build(alloc, index, known, calls, units, level, meter)?)),
    }
}

fn build<'a>(
    alloc: Global,
    index: &'a Index,
    known: &'a Known<'_>,
    calls: &'a List<(Place, List<Place>)>,
    units: &[Bytes],
    level: u8,
    meter: &mut Meter,
) -> Result<Built, Memory>
    ensures is { IfOk result (λ b. b ≡ output_of (objects_in index.now.items calls.now (map (form_of level known.now.sigs (consts_of known.now.constants known.now.values.items)) known.now.answered.items) units.now)) }
    ensures emitted { IfOk result (λ b. meter.new ≡ raised meter.old (length b.objects)) }
{
    let _count = meter.count();
    let consts = consts_of(alloc, known.constants.as_slice(), &known.values)?;
    let forms = forms_of(alloc, &known.answered, &known.sigs, &consts, level)?;
    let objects = objects_in(alloc, index, calls, forms.as_slice(), units, meter)?;
    let built = output_of(alloc, &objects)?;
    Ok(built)
}
