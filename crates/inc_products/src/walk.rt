//! The first file, by its name, that isn't as it should be.

ghost use Rattle.std.specs.Prelude.{◌≡◌, IfOk};
ghost use Rattle.inc_graph.specs.Forms.{file_form};
ghost use Rattle.inc_graph.specs.Graphs.{IsGraph};
ghost use Rattle.inc_products.specs.Named.{AreOrdered};
ghost use Rattle.inc_products.specs.Saved.{demanded, products_form, products_of};
ghost use Rattle.inc_products.specs.Starts.{IsWell};
ghost use Rattle.inc_products.specs.Walks.{IsAnswer, IsStep};

use crate::judge::is_well;
use crate::named::FileSet;
use crate::part::Part;
use crate::saved::{demanded, encode_products};
use inc_base::{Bytes, Copied, Label, Memory};
use inc_graph::Graph;
use inc_wire::Header;
use std::cmp::Ordering;

/// A part of the files, by the name that it has.
type Demand = (Label, Part);

/// A file of a set.
type File = (Label, Bytes);

/// The first name, in the order of names, whose file is damaged.
pub(crate) fn first_damaged(
    want: &Header,
    nodes: &Graph,
    set: &FileSet,
) -> Result<Option<Label>, Memory>
    requires format { want.now.format ≡ 1 }
    requires graph { IsGraph nodes.now }
    ensures { IfOk result (IsAnswer (IsWell want.now nodes.now) (demanded nodes.now) set.now) }
{
    let parts = demanded(nodes)?;
    let found = first_of(want, nodes, parts.pairs(), set.pairs());
    drop(parts);
    found
}

fn first_of(
    want: &Header,
    nodes: &Graph,
    parts: &[Demand],
    files: &[File],
) -> Result<Option<Label>, Memory>
    requires format { want.now.format ≡ 1 }
    requires graph { IsGraph nodes.now }
    requires parts { AreOrdered parts.now }
    requires files { AreOrdered files.now }
    ensures { IfOk result (IsAnswer (IsWell want.now nodes.now) parts.now files.now) }
{
    let products = encode_products(want, nodes)?;
    let found = walk(want, nodes, &products, parts, files);
    drop(products);
    found
}

/// Goes over both in the order of their names, up to the first name whose file is damaged. `products` is the wanted list
/// of the units' files.
fn walk(
    want: &Header,
    nodes: &Graph,
    products: &Bytes,
    parts: &[Demand],
    files: &[File],
) -> Result<Option<Label>, Memory>
    requires format { want.now.format ≡ 1 }
    requires products { products.now ≡ file_form products_form (want.now, products_of nodes.now) }
    requires parts { AreOrdered parts.now }
    requires files { AreOrdered files.now }
    ensures { IfOk result (IsAnswer (IsWell want.now nodes.now) parts.now files.now) }
{
    let mut demands = parts;
    let mut found = files;
    'each: while !demands.is_empty() || !found.is_empty() {
        match first_step(want, nodes, products, demands, found)? {
            Step::Damaged(name) => return Ok(Some(name)),
            Step::Rest(more_demands, more_found) => {
                demands = more_demands;
                found = more_found;
            }
        }
    }
    Ok(None)
}

/// What the first of both shows.
#[derive(Debug, Drop)]
pub(crate) enum Step<'a> {
    /// The file of this name is damaged.
    Damaged(Label),
    /// The first file is the one that is demanded, and well; these follow.
    Rest(&'a [Demand], &'a [File]),
}

fn first_step<'a>(
    want: &Header,
    nodes: &Graph,
    products: &Bytes,
    parts: &'a [Demand],
    files: &'a [File],
) -> Result<Step<'a>, Memory>
    requires format { want.now.format ≡ 1 }
    requires products { products.now ≡ file_form products_form (want.now, products_of nodes.now) }
    requires parts { AreOrdered parts.now }
    requires files { AreOrdered files.now }
    ensures { IfOk result (IsStep (IsWell want.now nodes.now) parts.now files.now) }
{
    match (parts, files) {
        ([], []) => Ok(Step::Rest(parts, files)),
        ([], [file, ..]) => Ok(Step::Damaged(file.0.copy()?)),
        ([part, ..], []) => Ok(Step::Damaged(part.0.copy()?)),
        ([part, more_parts @ ..], [file, more_files @ ..]) => match part.0.cmp(&file.0) {
            Ordering::Less => Ok(Step::Damaged(part.0.copy()?)),
            Ordering::Greater => Ok(Step::Damaged(file.0.copy()?)),
            Ordering::Equal => {
                if !is_well(want, nodes, products, part.1, &file.1)? {
                    return Ok(Step::Damaged(part.0.copy()?));
                }
                Ok(Step::Rest(more_parts, more_files))
            }
        },
    }
}
