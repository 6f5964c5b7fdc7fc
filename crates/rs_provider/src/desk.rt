//! What was read and is kept between calls: each beside the bytes that it was read of, which are compared before it is used.

ghost use Rattle.std.specs.Prelude.{◌≡◌, Some, IfOk, IfSome};
ghost use Rattle.std.specs.Option.{option_map};
ghost use Rattle.rs_plans.specs.Readings.{index_in, item_in};
ghost use Rattle.rs_queries.specs.Reading.{IsReading};
ghost use Rattle.rs_provider.specs.Shared.{shared};

use crate::indexed::Indexed;
use crate::items::Items;
use crate::kept::{ReadIndex, ReadText};
use crate::readied::Readied;
use crate::reading::{index_read, share};
use inc_base::{Bytes, Copied, Memory};
use rs_queries::{Reading, read};
use rs_tree::{Item, Place};
use std::alloc::Global;
use std::cell::RefCell;
use std::rc::Rc;

/// The text and the index that were read last, and the items.
#[derive(Drop)]
pub struct Desk {
    text: RefCell<Option<ReadText>>,
    index: RefCell<Option<ReadIndex>>,
    items: Items,
}

impl Desk {
    pub(crate) fn new(alloc: Global) -> Desk {
        Desk {
            text: RefCell::new(None),
            index: RefCell::new(None),
            items: Items::new(alloc),
        }
    }

    /// With a text and its reading.
    pub(crate) fn of_reading(text: &Bytes, reading: Rc<Reading>) -> Result<Desk, Memory>
        requires { IsReading text.now reading.value }
    {
        let read = readied(text, reading)?;
        Ok(Desk {
            text: RefCell::new(Some(read)),
            index: RefCell::new(None),
            items: Items::new(text.allocator()),
        })
    }

    /// The reading of a text, which is read where it isn't the one that was read last.
    pub(crate) fn text(&self, text: &Bytes) -> Result<Rc<Readied>, Memory>
        ensures { IfOk result (λ r. ∥ IsReading text.now r.value ∥₁) }
    {
        if let Some(kept) = self.kept_text(text)? {
            return Ok(kept);
        }
        let read = text_read(text)?;
        let reading = read.reading.clone()?;
        let _ = self.text.try_replace(Some(read));
        Ok(reading)
    }

    fn kept_text(&self, text: &Bytes) -> Result<Option<Rc<Readied>>, Memory>
        ensures { IfOk result (λ o. IfSome o (λ r. ∥ IsReading text.now r.value ∥₁)) }
    {
        let Ok(kept) = self.text.try_borrow() else {
            return Ok(None);
        };
        match &*kept {
            None => Ok(None),
            Some(read) => {
                if read.bytes.as_slice() != text.as_slice() {
                    return Ok(None);
                }
                let reading = read.reading.clone()?;
                Ok(Some(reading))
            }
        }
    }

    /// The index that a value is, read where it isn't the one that was read last.
    pub(crate) fn index(&self, value: &Bytes) -> Result<Option<Rc<Indexed>>, Memory>
        ensures { IfOk result (λ o. option_map shared o ≡ index_in value.now) }
    {
        if let Some(kept) = self.kept_index(value)? {
            return Ok(Some(kept));
        }
        match index_read(value)? {
            None => Ok(None),
            Some(read) => {
                let index = read.index.clone()?;
                let _ = self.index.try_replace(Some(read));
                Ok(Some(index))
            }
        }
    }

    /// The item of a place that a value is, read where it isn't the one that was read last there.
    pub(crate) fn item(&self, at: &Place, value: &Bytes) -> Result<Option<Rc<Item>>, Memory>
        ensures { IfOk result (λ o. option_map shared o ≡ item_in value.now) }
    {
        self.items.item(at, value)
    }

    fn kept_index(&self, value: &Bytes) -> Result<Option<Rc<Indexed>>, Memory>
        ensures { IfOk result (λ o. IfSome o (λ r. Some r.value ≡ index_in value.now)) }
    {
        let Ok(kept) = self.index.try_borrow() else {
            return Ok(None);
        };
        match &*kept {
            None => Ok(None),
            Some(read) => {
                if read.bytes.as_slice() != value.as_slice() {
                    return Ok(None);
                }
                let index = read.index.clone()?;
                Ok(Some(index))
            }
        }
    }
}

fn text_read(text: &Bytes) -> Result<ReadText, Memory>
    ensures { IfOk result (λ r. r.bytes ≡ text.now) }
{
    let alloc = text.allocator();
    let reading = share(alloc, read(alloc, text.as_slice())?)?;
    readied(text, reading)
}

fn readied(text: &Bytes, reading: Rc<Reading>) -> Result<ReadText, Memory>
    requires { IsReading text.now reading.value }
    ensures { IfOk result (λ r. r.bytes ≡ text.now) }
{
    let alloc = text.allocator();
    let reading = share(alloc, Readied::of(alloc, reading)?)?;
    let bytes = text.copy()?;
    Ok(ReadText { bytes, reading })
}
