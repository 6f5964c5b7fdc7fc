ghost use Rattle.std.specs.Prelude.{◌≡◌, Some, IfOk, IfSome};
ghost use Rattle.std.specs.Option.{option_map};
ghost use Rattle.rs_plans.specs.Readings.{item_in};
ghost use Rattle.rs_provider.specs.Shared.{shared};

use crate::reading::item_in;
use inc_base::{Bytes, Copied, Memory};
use rs_tree::{Item, Place};
use std::alloc::Global;
use std::cell::RefCell;
use std::collections::BTreeMap;
use std::rc::Rc;

/// The bytes of an item, and the item.
#[derive(Drop)]
pub struct ReadItem {
    pub bytes: Bytes,
    pub item: Rc<Item>,
    pub ghost is: { ∥ Some item.value ≡ item_in bytes ∥₁ },
}

/// The items that were read, by their places: of each place the last.
#[derive(Drop)]
pub struct Items {
    kept: RefCell<BTreeMap<Place, ReadItem>>,
}

impl Items {
    pub(crate) fn new(alloc: Global) -> Items {
        Items {
            kept: RefCell::new(BTreeMap::new(alloc)),
        }
    }

    /// The item of a place that a value is, read where it isn't the one that was read last there.
    pub(crate) fn item(&self, at: &Place, value: &Bytes) -> Result<Option<Rc<Item>>, Memory>
        ensures { IfOk result (λ o. option_map shared o ≡ item_in value.now) }
    {
        if let Some(kept) = self.kept(at, value)? {
            return Ok(Some(kept));
        }
        match item_read(value)? {
            None => Ok(None),
            Some(read) => {
                let item = read.item.clone()?;
                self.keep(at.copy()?, read)?;
                Ok(Some(item))
            }
        }
    }

    fn kept(&self, at: &Place, value: &Bytes) -> Result<Option<Rc<Item>>, Memory>
        ensures { IfOk result (λ o. IfSome o (λ r. Some r.value ≡ item_in value.now)) }
    {
        let Ok(kept) = self.kept.try_borrow() else {
            return Ok(None);
        };
        match kept.get(at) {
            None => Ok(None),
            Some(read) => {
                if read.bytes.as_slice() != value.as_slice() {
                    return Ok(None);
                }
                let item = read.item.clone()?;
                Ok(Some(item))
            }
        }
    }

    fn keep(&self, at: Place, read: ReadItem) -> Result<(), Memory> {
        match self.kept.try_borrow_mut() {
            Ok(mut kept) => {
                drop(kept.insert(at, read)?);
                Ok(())
            }
            Err(_) => {
                drop(at);
                drop(read);
                Ok(())
            }
        }
    }
}

fn item_read(value: &Bytes) -> Result<Option<ReadItem>, Memory>
    ensures { IfOk result (λ o. option_map (λ r. r.item.value) o ≡ item_in value.now) }
{
    match item_in(value)? {
        None => Ok(None),
        Some(item) => match value.copy() {
            Ok(bytes) => Ok(Some(ReadItem { bytes, item })),
            Err(refused) => {
                drop(item);
                Err(refused)
            }
        },
    }
}
