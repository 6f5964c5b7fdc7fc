//! The steps that save what was made.
ghost use Rattle.std.specs.Prelude.{◌≡◌, ◌∷◌, [], ◌++◌, map, OnOk, IfOk};
ghost use Rattle.inc_fs.specs.declared.op.Op.TheVariants.{Append};
ghost use Rattle.inc_names.specs.Entries.{working_text};
ghost use Rattle.inc_session.specs.Saving.{pieces, file_ops, saving_ops, all_ops};

use crate::queue::Queue;
use crate::task::Task;
use inc_base::{Bytes, Label, Memory};
use inc_names::SessionName;

/// The most bytes that one append adds.
const PIECE: usize = 65_536;

/// The steps that save these files under this name and publish them.
pub(crate) fn ops_of(
    task: &Task,
    its: SessionName,
    files: &[(Label, Bytes)],
) -> Result<Queue, Memory>
    ensures { IfOk result (λ ops. ops ≡ all_ops task.now its files.now) }
{
    let mut ops = Queue::new(task.alloc());
    match put_all(&mut ops, task, its, files) {
        Ok(()) => Ok(ops),
        Err(refused) => {
            drop(ops);
            Err(refused)
        }
    }
}

fn put_all(
    ops: &mut Queue,
    task: &Task,
    its: SessionName,
    files: &[(Label, Bytes)],
) -> Result<(), Memory>
    ensures { OnOk result (ops.new ≡ ops.old ++ all_ops task.now its files.now) }
{
    put_files(ops, task, its, files)?;
    ops.push(task.publishing(its)?)?;
    Ok(())
}

fn put_files(
    ops: &mut Queue,
    task: &Task,
    its: SessionName,
    files: &[(Label, Bytes)],
) -> Result<(), Memory>
    ensures { OnOk result (ops.new ≡ ops.old ++ saving_ops task.now.krate (working_text its) files.now) }
{
    for file in files {
        put_file(ops, task, its, file)?;
    }
    Ok(())
}

fn put_file(
    ops: &mut Queue,
    task: &Task,
    its: SessionName,
    file: &(Label, Bytes),
) -> Result<(), Memory>
    ensures { OnOk result (ops.new ≡ ops.old ++ file_ops task.now.krate (working_text its) file.now) }
{
    ops.push(task.create(its, &file.0)?)?;
    put_pieces(ops, task, its, &file.0, file.1.as_slice())
}

fn put_pieces(
    ops: &mut Queue,
    task: &Task,
    its: SessionName,
    file: &Label,
    bytes: &[u8],
) -> Result<(), Memory>
    ensures { OnOk result (ops.new ≡ ops.old ++ map (Append task.now.krate (working_text its) file.now) (pieces bytes.now)) }
{
    let mut rest = bytes;
    'pieces: while !rest.is_empty() {
        let (piece, after) = rest.split_at(rest.len().min(PIECE));
        ops.push(task.append(its, file, piece)?)?;
        rest = after;
    }
    Ok(())
}
