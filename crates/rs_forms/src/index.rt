//! The bytes of the index of a text without fault.

ghost use Rattle.std.specs.Prelude.{◌≡◌, IfOk};
ghost use Rattle.inc_wire.specs.Readings.{IsReadAs};
ghost use Rattle.rs_forms.specs.Fits.{FitsIndex, FitsIndexItem};
ghost use Rattle.rs_forms.specs.Forms.{index_form, index_item_form};

use inc_base::{Bytes, Memory};
use inc_wire::{
    Cursor, Field, Read, put_all, put_number, put_text, read_whole, take_flag, take_list, take_u8,
};
use rs_tree::{Index, IndexItem};
use std::alloc::Global;

/// The bytes of the index of a text without fault, which begin with the byte 1. `Memory` where there is
/// none for them. (docs/FORMATS.md, "Queries")
pub fn index_bytes(index: &Index) -> Result<Bytes, Memory>
    ensures bytes { IfOk result (λ bytes. bytes ≡ index_form index.now) }
    ensures range { IfOk result (λ bytes. FitsIndex index.now) }
{
    let mut bytes = Bytes::new(index.modules.allocator());
    put_number(&mut bytes, 1, 1)?;
    put_all::<Bytes>(&mut bytes, index.modules.as_slice())?;
    put_all::<IndexItemForm>(&mut bytes, index.items.as_slice())?;
    Ok(bytes)
}

/// The index, from its bytes, as `index_bytes` gives them: the form that begins with the byte 1. A kind is
/// any byte. None exactly where no index has these bytes. `Memory` where there is none for the index.
/// (docs/FORMATS.md, "Queries")
pub fn read_index(alloc: Global, bytes: &[u8]) -> Result<Option<Index>, Memory>
    ensures { IfOk result (IsReadAs FitsIndex index_form bytes.now) }
{
    read_whole::<IndexForm>(alloc, bytes)
}

/// The form of an index.
pub struct IndexForm;

impl Read for IndexForm {
    type Value = Index;

    ghost form = { index_form };

    ghost fits = { FitsIndex };

    fn take(alloc: Global, from: &mut Cursor) -> Result<Option<Index>, Memory> {
        let Some(1) = take_u8(from) else {
            return Ok(None);
        };
        let Some(modules) = take_list::<Bytes>(alloc, from)? else {
            return Ok(None);
        };
        let Some(items) = take_list::<IndexItemForm>(alloc, from)? else {
            return Ok(None);
        };
        Ok(Some(Index { modules, items }))
    }
}

/// The form of an item of the index.
pub struct IndexItemForm;

impl Read for IndexItemForm {
    type Value = IndexItem;

    ghost form = { index_item_form };

    ghost fits = { FitsIndexItem };

    fn take(alloc: Global, from: &mut Cursor) -> Result<Option<IndexItem>, Memory> {
        let Some(module) = Bytes::take(alloc, from)? else {
            return Ok(None);
        };
        let Some(name) = Bytes::take(alloc, from)? else {
            return Ok(None);
        };
        let Some(kind) = take_u8(from) else {
            return Ok(None);
        };
        let Some(public) = take_flag(from) else {
            return Ok(None);
        };
        Ok(Some(IndexItem {
            module,
            name,
            kind,
            public,
        }))
    }
}

impl Field for IndexItemForm {
    type Value = IndexItem;

    ghost form = { index_item_form };

    ghost fits = { FitsIndexItem };

    fn put(item: &IndexItem, to: &mut Bytes) -> Result<(), Memory> {
        put_text(to, item.module.as_slice())?;
        put_text(to, item.name.as_slice())?;
        put_number(to, 1, u64::from(item.kind))?;
        bool::put(&item.public, to)
    }
}
