ghost use Rattle.std.specs.Prelude.{◌≡◌, IfOk, OnOk, ◌++◌, ◌∷◌, []};
ghost use Rattle.rs_tree.specs.Plain.{plain_crate, plain_placed, definition};
ghost use Rattle.rs_names.specs.Indexed.{index_of, index_item, kind_of, is_root_main};

use inc_base::{Copied, List, Memory};
use rs_tree::{Body, Crate, Index, IndexItem, Placed};

/// The modules and items of a crate, in the order of the text (docs/LANGUAGE.md, "Names").
pub fn index(c: &Crate) -> Result<Index, Memory>
    ensures { IfOk result (λ it. it ≡ index_of (plain_crate c.now)) }
{
    let modules = c.modules.copy()?;
    let mut items = List::new(c.items.allocator());
    for placed in c.items.as_slice() {
        items.push(item_of(placed)?)?;
    }
    Ok(Index { modules, items })
}

fn item_of(placed: &Placed) -> Result<IndexItem, Memory>
    ensures { IfOk result (λ it. it ≡ index_item (plain_placed placed.now)) }
{
    let module = placed.module.copy()?;
    let name = placed.item.name.copy()?;
    let kind = kind_of(
        is_root_main(module.as_slice(), name.as_slice()),
        &placed.item.body,
    );
    let public = placed.item.public;
    Ok(IndexItem {
        module,
        name,
        kind,
        public,
    })
}

fn is_root_main(module: &[u8], name: &[u8]) -> bool
    ensures { result ≡ is_root_main module.now name.now }
{
    module == b"".as_slice() && name == b"main".as_slice()
}

fn kind_of(main: bool, body: &Body) -> u8
    ensures { result ≡ kind_of main (definition body.now) }
{
    match body {
        Body::Const { .. } => 0,
        Body::Func { inline, .. } => { if *inline && !main { 2 } else { 1 } }
    }
}
