//! The compiler as a session calls it: what is compiled of its text, and the files that it saves.
ghost use Rattle.std.specs.Prelude.{◌≡◌, ◌≤◌, length, IfOk, OnOk};
ghost use Rattle.inc_base.specs.Meters.{raised};
ghost use Rattle.inc_graph.specs.Graphs.{HasOrder, IsGraph};
ghost use Rattle.rs_queries.specs.Built.{IsCompiled};
ghost use Rattle.rs_queries.specs.Reading.{IsReading};
ghost use Rattle.rs_build.specs.Over.{kept_values, reached_graph};
ghost use Rattle.inc_session.specs.Compiling.{compiled_by, compiled_of, job_files, made_in, made_of, made_with, units_in, units_of};

use inc_base::{Bytes, Copied, Job, List, Memory, Meter, rises_add_up};
use inc_graph::{Cache, FILE_FORMAT, Graph};
use inc_products::{FileSet, files_of};
use inc_wire::Header;
use rs_build::{Queried, build, fresh_builds_make_all};
use rs_provider::Rust;
use rs_queries::{Built, Compiled as Whole, Reading, compile_read};
use std::alloc::Global;
use std::rc::Rc;

/// What is made of a text without an error: the image, how many units it has, and the files that a session
/// saves.
#[derive(Debug, Drop)]
pub struct Made {
    pub image: Bytes,
    pub units: u32,
    pub files: FileSet,
}

/// What a text compiles to: the lines of its diagnostics, and what is made of it where none is an error.
#[derive(Debug, Drop)]
pub struct Compiled {
    pub diags: Bytes,
    pub made: Option<Made>,
}

/// The most bytes of a text of which what its queries give is known to be in the ranges of their forms. `run` refuses a longer one
/// (docs/LANGUAGE.md, "Limits").
const MOST: usize = 1_048_576;

/// Compiles the job's text, which was read so, by its queries, over no earlier build. The meter rises by the units that are emitted: by none
/// where there are errors. `Memory` says nothing of the meter.
pub(crate) fn compile(
    alloc: Global,
    job: &Job,
    reading: &Rc<Reading>,
    meter: &mut Meter,
) -> Result<Compiled, Memory>
    requires { IsReading job.now.text reading.now.value }
    ensures value { IfOk result (λ compiled. compiled ≡ compiled_of job.now) }
    ensures meter { OnOk result (meter.new ≡ raised meter.old (units_of job.now)) }
{
    let (whole, files) = whole_with_files(alloc, job, reading)?;
    let compiled = compiled_by(whole, files);
    // What was emitted counts once all is made of it.
    raise(meter, units_in(&compiled.made));
    Ok(compiled)
}

/// A reading that may have several owners.
pub(crate) fn share(alloc: Global, reading: Reading) -> Result<Rc<Reading>, Memory>
    ensures { IfOk result (λ shared. shared.value ≡ reading) }
{
    match Rc::new(alloc, reading) {
        Ok(shared) => Ok(shared),
        Err(refused) => {
            drop(refused);
            Err(Memory)
        }
    }
}

/// What is compiled of the job's text, and the job's files.
fn whole_with_files(
    alloc: Global,
    job: &Job,
    reading: &Rc<Reading>,
) -> Result<(Whole, FileSet), Memory>
    requires { IsReading job.now.text reading.now.value }
    ensures whole { IfOk result (λ made. IsCompiled job.now.text job.now.compiler.level made.0) }
    ensures files { IfOk result (λ made. made.1 ≡ job_files job.now) }
{
    let Queried {
        compiled,
        graph,
        cache,
        work: _,
    } = queried(alloc, job, reading)?;
    match job_files(job, graph, cache) {
        Ok(files) => match whole_of(alloc, job, reading.as_ref(), compiled) {
            Ok(whole) => Ok((whole, files)),
            Err(refused) => {
                drop(files);
                Err(refused)
            }
        },
        Err(refused) => {
            drop(compiled);
            Err(refused)
        }
    }
}

/// What is compiled of the job's text, of which its queries gave this. A text that is too long is compiled directly.
fn whole_of(alloc: Global, job: &Job, reading: &Reading, queried: Whole) -> Result<Whole, Memory>
    requires reading { IsReading job.now.text reading.now }
    requires short { length job.now.text ≤ 1048576 → IsCompiled job.now.text job.now.compiler.level queried }
    ensures { IfOk result (λ whole. IsCompiled job.now.text job.now.compiler.level whole) }
{
    if job.text.len() <= MOST {
        return Ok(queried);
    }
    drop(queried);
    let mut own = Meter::new();
    compile_read(alloc, reading, job.compiler, &mut own)
}

/// What a build of the job's text by its queries gives.
fn queried(alloc: Global, job: &Job, reading: &Rc<Reading>) -> Result<Queried, Memory>
    requires { IsReading job.now.text reading.now.value }
    ensures short { IfOk result (λ q. length job.now.text ≤ 1048576 → IsCompiled job.now.text job.now.compiler.level q.compiled) }
    ensures graph { IfOk result (λ q. q.graph ≡ reached_graph job.now.compiler job.now.text) }
    ensures cache { IfOk result (λ q. q.cache ≡ kept_values job.now.compiler job.now.text) }
    ensures is_graph { IfOk result (λ q. IsGraph q.graph) }
    ensures order { IfOk result (λ q. HasOrder q.cache) }
{
    fresh_builds_make_all();
    let provider = provider_of(job, reading)?;
    let mut own = Meter::new();
    build(
        alloc,
        provider,
        reading.as_ref(),
        List::new(alloc),
        List::new(alloc),
        &mut own,
    )
}

/// The queries of the job's text.
fn provider_of(job: &Job, reading: &Rc<Reading>) -> Result<Rust, Memory>
    requires { IsReading job.now.text reading.now.value }
    ensures text { IfOk result (λ provider. provider.text ≡ job.now.text) }
    ensures compiler { IfOk result (λ provider. provider.compiler ≡ job.now.compiler) }
{
    let shared = reading.clone()?;
    match job.text.copy() {
        Ok(text) => Rust::of_reading(text, job.compiler, shared),
        Err(refused) => {
            drop(shared);
            Err(refused)
        }
    }
}

/// The files of a job whose roots reach this graph, of which these values are kept.
fn job_files(job: &Job, graph: Graph, cache: Cache) -> Result<FileSet, Memory>
    requires reached { graph ≡ reached_graph job.now.compiler job.now.text }
    requires kept { cache ≡ kept_values job.now.compiler job.now.text }
    requires graph { IsGraph graph }
    requires order { HasOrder cache }
    ensures { IfOk result (λ files. files ≡ job_files job.now) }
{
    let files = files_under(job, &graph, &cache);
    drop(graph);
    drop(cache);
    files
}

/// The same of what is lent.
fn files_under(job: &Job, graph: &Graph, cache: &Cache) -> Result<FileSet, Memory>
    requires reached { graph.now ≡ reached_graph job.now.compiler job.now.text }
    requires kept { cache.now ≡ kept_values job.now.compiler job.now.text }
    requires graph { IsGraph graph.now }
    requires order { HasOrder cache.now }
    ensures { IfOk result (λ files. files ≡ job_files job.now) }
{
    let header = Header {
        format: FILE_FORMAT,
        compiler: job.compiler,
        krate: job.krate.copy()?,
    };
    let files = files_of(&header, graph, cache);
    drop(header);
    files
}

/// Raises a meter by so many units.
fn raise(meter: &mut Meter, units: u32)
    ensures { meter.new ≡ raised meter.old units }
{
    rises_add_up();
    let _count = meter.count();
    for _ in 0..units {
        meter.tick();
    }
}

fn units_in(made: &Option<Made>) -> u32
    ensures { result ≡ units_in made.now }
{
    match made {
        Some(made) => made.units,
        None => 0,
    }
}

fn compiled_by(whole: Whole, files: FileSet) -> Compiled
    ensures { result ≡ compiled_by files whole }
{
    let Whole {
        diags,
        units: _,
        built,
    } = whole;
    Compiled {
        diags,
        made: made_in(built, files),
    }
}

fn made_in(built: Option<Built>, files: FileSet) -> Option<Made>
    ensures { result ≡ made_in files built }
{
    match built {
        Some(built) => made_of(built, files),
        None => {
            drop(files);
            None
        }
    }
}

fn made_of(built: Built, files: FileSet) -> Option<Made>
    ensures { result ≡ made_of files built }
{
    let Built { objects, image } = built;
    match image {
        Some(image) => Some(made_with(objects, image, files)),
        None => {
            drop(objects);
            drop(files);
            None
        }
    }
}

fn made_with(objects: List<(Bytes, Bytes)>, image: Bytes, files: FileSet) -> Made
    ensures { result ≡ made_with files objects image }
{
    let units = objects.len() as u32;
    drop(objects);
    Made {
        image,
        units,
        files,
    }
}
