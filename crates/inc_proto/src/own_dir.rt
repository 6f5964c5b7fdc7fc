//! The directory that a session made, as its own steps tell it: where it is, and which files it has.
ghost use Rattle.std.specs.Prelude.{◌≡◌, OnOk, OnErr, IfOk, IfSome, [], Some, None, reverse};
ghost use Rattle.std.specs.BTreeMap.{is_at, insert_entry};
ghost use Rattle.inc_fs.specs.Paths.{text_cmp};
ghost use Rattle.inc_proto.specs.Views.{Dir};
ghost use Rattle.inc_proto.specs.Views.Dir.{Unmade};
ghost use Rattle.inc_proto.specs.Views.{dir, dir_after, is_here, changed};
ghost use Rattle.inc_proto.specs.OwnDirs.{change_by, made_site, left_site, next_site, files_in, next_files};

mod asks;

use crate::own::Known;
use inc_base::{Bytes, Copied, Label, Memory};
use inc_fs::{Op, Reply, Table};
use std::alloc::Global;
use std::marker::Model;
use std::mem;

/// Where the directory is.
#[derive(Drop)]
pub(crate) enum Site {
    /// None was made.
    Nowhere,
    /// It stands at this path.
    At(Label, Label),
    /// It was removed.
    Gone,
    /// It was published under this path.
    Out(Label, Label),
}

fn is_here(krate: &Label, entry: &Label, k: &Label, e: &Label) -> bool
    ensures { result ≡ is_here krate.now entry.now k.now e.now }
{
    k == krate && e == entry
}

fn copied_at(krate: &Label, entry: &Label) -> Result<(Label, Label), Memory>
    ensures { IfOk result (λ both. (both.0 ≡ krate.now) × (both.1 ≡ entry.now)) }
{
    let krate = krate.copy()?;
    let entry = entry.copy()?;
    Ok((krate, entry))
}

fn made_site(step: &(Op, Reply)) -> Result<Site, Memory>
    ensures { IfOk result (λ site. site ≡ made_site step.now) }
{
    match (&step.0, &step.1) {
        (Op::MakeDir { krate, entry }, Reply::Done) => {
            let (krate, entry) = copied_at(krate, entry)?;
            Ok(Site::At(krate, entry))
        }
        _ => Ok(Site::Nowhere),
    }
}

fn left_site(step: &(Op, Reply), krate: Label, entry: Label) -> Result<Site, Memory>
    ensures { IfOk result (λ site. site ≡ left_site step.now krate entry) }
{
    match (&step.0, &step.1) {
        (Op::RemoveDir { krate: k, entry: e }, Reply::Done) => {
            if is_here(&krate, &entry, k, e) {
                Ok(Site::Gone)
            } else {
                Ok(Site::At(krate, entry))
            }
        }
        (Op::Rename { krate: k, from, to }, Reply::Done) => {
            if is_here(&krate, &entry, k, from) {
                drop(krate);
                drop(entry);
                let (krate, entry) = copied_at(k, to)?;
                Ok(Site::Out(krate, entry))
            } else {
                Ok(Site::At(krate, entry))
            }
        }
        _ => Ok(Site::At(krate, entry)),
    }
}

fn next_site(step: &(Op, Reply), site: Site) -> Result<Site, Memory>
    ensures { IfOk result (λ next. next ≡ next_site step.now site) }
{
    match site {
        Site::Nowhere => made_site(step),
        Site::At(krate, entry) => left_site(step, krate, entry),
        Site::Gone => Ok(Site::Gone),
        Site::Out(krate, entry) => Ok(Site::Out(krate, entry)),
    }
}

/// How what is known of a file changes.
#[derive(Clone, Copy, Debug)]
enum Change<'a> {
    /// A piece was appended.
    Appended(&'a Bytes),
    /// An append failed.
    Forgotten,
    /// It was read.
    Read(&'a Bytes),
}

/// Changes what is known of one file. `Memory` leaves it as it was.
fn change_known(known: &mut Known, by: Change) -> Result<(), Memory>
    ensures ok { OnOk result (known.new ≡ change_by by.entry known.old) }
    ensures err { OnErr result (known.new ≡ known.old) }
{
    match by {
        Change::Appended(piece) => match &mut known.bytes {
            Some(bytes) => bytes.append(piece.as_slice()),
            None => Ok(()),
        },
        Change::Forgotten => {
            drop(mem::replace(&mut known.bytes, None));
            Ok(())
        }
        Change::Read(bytes) => {
            if known.linked.is_some() {
                let copy = bytes.copy()?;
                drop(mem::replace(&mut known.bytes, Some(copy)));
            }
            Ok(())
        }
    }
}

/// Changes what is known of the file of that name, if there is one. `Memory` leaves all as it was.
fn change_at(files: &mut Table<Label, Known>, file: &Label, by: Change) -> Result<(), Memory>
    ensures { OnOk result (files.new ≡ changed file.now (change_by by.entry) files.old) }
{
    let blank = Known {
        linked: None,
        bytes: None,
    };
    match files.replace(file, blank) {
        Some(mut known) => {
            let done = change_known(&mut known, by);
            drop(files.replace(file, known));
            done
        }
        None => Ok(()),
    }
}

fn put_linked(files: &mut Table<Label, Known>, file: &Label, from: &Label) -> Result<(), Memory>
    ensures { OnOk result (files.new ≡ insert_entry text_cmp files.old file.now (record { linked = Some from.now; bytes = None })) }
{
    let (file, from) = copied_at(file, from)?;
    files.insert(
        file,
        Known {
            linked: Some(from),
            bytes: None,
        },
    )
}

fn put_created(files: &mut Table<Label, Known>, alloc: Global, file: &Label) -> Result<(), Memory>
    ensures { OnOk result (files.new ≡ insert_entry text_cmp files.old file.now (record { linked = None; bytes = Some [] })) }
{
    files.insert(
        file.copy()?,
        Known {
            linked: None,
            bytes: Some(Bytes::new(alloc)),
        },
    )
}

/// Its files after a step that was made when it stood at this path.
fn files_in(
    files: &mut Table<Label, Known>,
    alloc: Global,
    step: &(Op, Reply),
    krate: &Label,
    entry: &Label,
) -> Result<(), Memory>
    ensures { OnOk result (files.new ≡ files_in step.now krate.now entry.now files.old) }
{
    match (&step.0, &step.1) {
        (Op::Link { from, file, .. }, Reply::Done) => put_linked(files, file, from),
        (Op::Create { file, .. }, Reply::Done) => put_created(files, alloc, file),
        (Op::Append { file, piece, .. }, Reply::Done) => {
            change_at(files, file, Change::Appended(piece))
        }
        (Op::Append { file, .. }, Reply::Fault) => change_at(files, file, Change::Forgotten),
        (Op::Read { file, .. }, Reply::Bytes(bytes)) => change_at(files, file, Change::Read(bytes)),
        (
            Op::Unlink {
                krate: k,
                entry: e,
                file,
            },
            Reply::Done,
        ) => {
            if is_here(krate, entry, k, e) {
                drop(files.remove(file));
            }
            Ok(())
        }
        _ => Ok(()),
    }
}

/// Its files after a step that was made when it was there.
fn next_files(
    files: &mut Table<Label, Known>,
    alloc: Global,
    step: &(Op, Reply),
    site: &Site,
) -> Result<(), Memory>
    ensures { OnOk result (files.new ≡ next_files step.now site.now files.old) }
{
    match site {
        Site::Nowhere => {
            drop(mem::replace(files, Table::new(alloc)));
            Ok(())
        }
        Site::At(krate, entry) => files_in(files, alloc, step, krate, entry),
        Site::Gone => Ok(()),
        Site::Out(_, _) => Ok(()),
    }
}

/// The session's own directory. Contracts see it as a `Dir`.
#[derive(Drop)]
pub(crate) struct OwnDir {
    site: Site,
    files: Table<Label, Known>,
}

impl Model for OwnDir {
    ghost use Rattle.inc_proto.specs.Views.{Dir};
    ghost use Rattle.inc_proto.specs.OwnDirs.{dir_of};

    ghost Value = { Dir };

    ghost view = { λ d. dir_of d.site d.files };
}

impl OwnDir {
    /// None was made yet.
    pub(crate) fn new(alloc: Global) -> OwnDir
        ensures { result ≡ Unmade }
    {
        OwnDir {
            site: Site::Nowhere,
            files: Table::new(alloc),
        }
    }
}

/// The directory after one more step. (By value, so that nothing is left half changed after `Memory`.)
fn next_dir(alloc: Global, step: &(Op, Reply), own: OwnDir) -> Result<OwnDir, Memory>
    ensures { IfOk result (λ next. next ≡ dir_after step.now own) }
{
    let OwnDir { site, mut files } = own;
    match next_files(&mut files, alloc, step, &site) {
        Ok(()) => match next_site(step, site) {
            Ok(site) => Ok(OwnDir { site, files }),
            Err(refused) => {
                drop(files);
                Err(refused)
            }
        },
        Err(refused) => {
            drop(site);
            drop(files);
            Err(refused)
        }
    }
}

/// What is kept of the directory after one more step: nothing where there is no memory for it.
pub(crate) fn kept_after(alloc: Global, step: &(Op, Reply), kept: Option<OwnDir>) -> Option<OwnDir>
    ensures { (d : Dir) → IfSome kept (λ own. own ≡ d) → IfSome result (λ own. own ≡ dir_after step.now d) }
{
    match kept {
        Some(own) => match next_dir(alloc, step, own) {
            Ok(next) => Some(next),
            Err(_) => None,
        },
        None => None,
    }
}

/// The session's own directory, by its steps.
pub(crate) fn own_dir(alloc: Global, steps: &[(Op, Reply)]) -> Result<OwnDir, Memory>
    ensures { IfOk result (λ own. own ≡ dir (reverse steps.now)) }
{
    let mut own = OwnDir::new(alloc);
    for step in steps {
        own = next_dir(alloc, step, own)?;
    }
    Ok(own)
}

/// What is kept of the directory, told from the steps where it wasn't kept: nothing where there is no
/// memory for it.
pub(crate) fn kept_again(
    alloc: Global,
    steps: &[(Op, Reply)],
    kept: Option<OwnDir>,
) -> Option<OwnDir>
    requires { IfSome kept (λ own. own ≡ dir (reverse steps.now)) }
    ensures { IfSome result (λ own. own ≡ dir (reverse steps.now)) }
{
    match kept {
        Some(own) => Some(own),
        None => match own_dir(alloc, steps) {
            Ok(own) => Some(own),
            Err(_) => None,
        },
    }
}
