ghost use Rattle.std.specs.Prelude.{◌≡◌, map, option_and_then, slice_get, IfOk};
ghost use Rattle.std.specs.Option.{option_copied};
ghost use Rattle.rs_lookup.specs.Keys.{plain};
ghost use Rattle.rs_lookup.specs.Places.{item_name};
ghost use Rattle.rs_names.specs.Resolved.{item_at};

use inc_base::Memory;
use rs_lookup::{Key, Order, Places, places_of_items};
use rs_tree::{Index, IndexItem};
use std::marker::Model;

/// The items of an index, made ready for look-ups. Contracts see them as their list.
#[derive(Drop)]
pub struct Names<'a> {
    items: &'a [IndexItem],
    places: Places<'a>,
}

impl<'a> Model for Names<'a> {
    ghost use Rattle.std.specs.Prelude.{◌≡◌, List, map};
    ghost use Rattle.rs_tree.specs.declared.index.IndexItem.{IndexItem};
    ghost use Rattle.rs_lookup.specs.Places.{item_name};

    ghost Value = { List IndexItem };

    ghost view = { λ n. n.items.now };

    ghost invariant = { λ n. n.places ≡ map item_name n.items.now };
}

impl<'a> Names<'a> {
    /// The items of this index, in n log n.
    pub fn new(index: &'a Index) -> Result<Names<'a>, Memory>
        ensures { IfOk result (λ n. n ≡ index.now.items) }
    {
        let items = index.items.as_slice();
        let places = places_of_items(index.items.allocator(), items)?;
        Ok(Names { items, places })
    }

    /// The items of this index, at once, by an order of them that is kept.
    pub fn by(index: &'a Index, order: &'a Order) -> Names<'a>
        requires { order.now ≡ map item_name index.now.items }
        ensures { result ≡ index.now.items }
    {
        Names {
            items: index.items.as_slice(),
            places: Places::by(order),
        }
    }

    /// The item of a module, empty for the root, and a name: of equal entries the first.
    pub fn find(&self, key: Key<'a>) -> Option<&'a IndexItem>
        ensures { option_copied result ≡ item_at (plain key.entry) self.now }
    {
        numbered(self.items, self.places.find(key))
    }
}

fn numbered(items: &[IndexItem], at: Option<usize>) -> Option<&IndexItem>
    ensures { option_copied result ≡ option_and_then (slice_get items.now) at }
{
    items.get(at?)
}
