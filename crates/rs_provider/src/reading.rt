//! What values of queries are read as.

ghost use Rattle.std.specs.Prelude.{◌≡◌, ◌≢◌, None, IfOk};
ghost use Rattle.rs_grammar.specs.declared.fault.SyntaxFault.TheVariants as syntax;
ghost use Rattle.std.specs.Option.{option_map};
ghost use Rattle.rs_plans.specs.Readings.{const_in, index_in, ir_in, item_in, item_of, one_item, places_in, sig_in};
ghost use Rattle.rs_tree.specs.declared.index.Index.{Index};
ghost use Rattle.rs_tree.specs.declared.tree.Item.{Item};
ghost use Rattle.std.specs.declared.rc.Rc.{Rc};
ghost use Rattle.std.specs.declared.alloc.Global.{Global};
ghost use Rattle.rs_provider.specs.Shared.{shared};

use crate::indexed::Indexed;
use crate::kept::ReadIndex;
use crate::labels::has_labels;
use crate::names::{are_places, is_index};
use inc_base::{Bytes, Copied, List, Memory};
use rs_answers::{read_const, read_places};
use rs_forms::{read_index, read_ir, read_item, read_sig};
use rs_grammar::are_lexed;
use rs_parse::{SyntaxFault, parse};
use rs_tree::{At, Const, Crate, Index, Ir, Item, Place, Placed, Sig, Token};
use std::alloc::Global;
use std::rc::Rc;

/// The last place of a text.
const LAST: At = At {
    line: u32::MAX,
    column: u32::MAX,
};

/// A value that may have several owners.
pub(crate) fn share<T: Drop>(alloc: Global, value: T) -> Result<Rc<T>, Memory>
    ensures { IfOk result (λ r. r.value ≡ value) }
{
    match Rc::new(alloc, value) {
        Ok(shared) => Ok(shared),
        Err(refused) => {
            drop(refused);
            Err(Memory)
        }
    }
}

/// The index that these bytes are, with names that are those of queries.
pub(crate) fn index_read(value: &Bytes) -> Result<Option<ReadIndex>, Memory>
    ensures { IfOk result (λ o. option_map (λ r. r.index.value) o ≡ index_in value.now) }
{
    let alloc = value.allocator();
    match read_index(alloc, value.as_slice())? {
        None => Ok(None),
        Some(index) => {
            if is_index(&index) {
                let index = share(alloc, Indexed::of(index)?)?;
                let bytes = value.copy()?;
                Ok(Some(ReadIndex { bytes, index }))
            } else {
                drop(index);
                Ok(None)
            }
        }
    }
}

/// The places of items that these bytes are, each once (docs/FORMATS.md, "Queries"). None where they aren't in that form; `Memory` where there is
/// none for the places.
pub fn places_in(value: &Bytes) -> Result<Option<List<Place>>, Memory>
    ensures { IfOk result (λ o. o ≡ places_in value.now) }
{
    match read_places(value.allocator(), value.as_slice())? {
        None => Ok(None),
        Some(places) => {
            match are_places(&places) {
                Ok(true) => Ok(Some(places)),
                Ok(false) => {
                    drop(places);
                    Ok(None)
                }
                Err(refused) => {
                    drop(places);
                    Err(refused)
                }
            }
        }
    }
}

pub(crate) fn sig_in(value: &Bytes) -> Result<Option<Sig>, Memory>
    ensures { IfOk result (λ o. o ≡ sig_in value.now) }
{
    read_sig(value.allocator(), value.as_slice())
}

pub(crate) fn const_in(value: &Bytes) -> Result<Option<Const>, Memory>
    ensures { IfOk result (λ o. o ≡ const_in value.now) }
{
    read_const(value.allocator(), value.as_slice())
}

/// The intermediate form that these bytes are, each of whose labels has one place.
pub(crate) fn ir_in(value: &Bytes) -> Result<Option<Ir>, Memory>
    ensures { IfOk result (λ o. o ≡ ir_in value.now) }
{
    match read_ir(value.allocator(), value.as_slice())? {
        None => Ok(None),
        Some(ir) => {
            match has_labels(&ir) {
                Ok(true) => Ok(Some(ir)),
                Ok(false) => {
                    drop(ir);
                    Ok(None)
                }
                Err(refused) => {
                    drop(ir);
                    Err(refused)
                }
            }
        }
    }
}

/// The one item that these bytes are the tokens of.
pub(crate) fn item_in(value: &Bytes) -> Result<Option<Rc<Item>>, Memory>
    ensures { IfOk result (λ o. option_map shared o ≡ item_in value.now) }
{
    let alloc = value.allocator();
    match item_read(value)? {
        None => Ok(None),
        Some(item) => Ok(Some(share(alloc, item)?)),
    }
}

pub(crate) fn item_read(value: &Bytes) -> Result<Option<Item>, Memory>
    ensures { IfOk result (λ o. o ≡ item_in value.now) }
{
    let alloc = value.allocator();
    match read_item(alloc, value.as_slice())? {
        None => Ok(None),
        Some(tokens) => {
            let item = item_of(alloc, &tokens);
            drop(tokens);
            item
        }
    }
}

fn item_of(alloc: Global, tokens: &List<Token>) -> Result<Option<Item>, Memory>
    ensures { IfOk result (λ o. o ≡ item_of tokens.now) }
{
    let tokens = tokens.as_slice();
    if !are_lexed(tokens, LAST) {
        return Ok(None);
    }
    match parse(alloc, tokens, LAST) {
        Ok(tree) => Ok(one_item(tree)),
        Err(fault) => refused(fault),
    }
}

// Tokens with a fault are no item.
fn refused(fault: SyntaxFault) -> Result<Option<Item>, Memory>
    ensures none { IfOk result (λ o. o ≡ None) }
    ensures fault { IfOk result (λ o. fault ≢ syntax.Memory) }
{
    match fault {
        SyntaxFault::Memory => Err(Memory),
        SyntaxFault::Nesting(_) => Ok(None),
        SyntaxFault::Syntax(_) => Ok(None),
        SyntaxFault::Twice(_, name) => {
            drop(name);
            Ok(None)
        }
    }
}

fn one_item(tree: Crate) -> Option<Item>
    ensures { result ≡ one_item tree.modules tree.items }
{
    let Crate { modules, items } = tree;
    let rooted = modules.is_empty();
    drop(modules);
    let mut items = items.into_vec();
    match items.pop() {
        None => {
            drop(items);
            None
        }
        Some(placed) => {
            let alone = items.is_empty();
            drop(items);
            let item = item_in_it(placed);
            if rooted && alone {
                Some(item)
            } else {
                drop(item);
                None
            }
        }
    }
}

fn item_in_it(placed: Placed) -> Item
    ensures { result ≡ placed.item }
{
    let Placed { item, .. } = placed;
    item
}
