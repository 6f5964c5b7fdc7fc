//! The queries on their way that are kept between calls.

use crate::begun::Begun;
use std::cell::RefCell;

/// Where a query on its way is kept.
type Last = RefCell<Option<Begun>>;

/// For each kind of queries that may make many reads the one that was asked last, and the last of the others. A read is of a lower kind than
/// the query that makes it, so no query takes the place of one on whose way it is.
#[derive(Drop)]
pub struct Lasts {
    constant: Last,
    check: Last,
    dead: Last,
    members: Last,
    form: Last,
    object: Last,
    other: Last,
}

impl Lasts {
    pub(crate) fn new() -> Lasts {
        Lasts {
            constant: RefCell::new(None),
            check: RefCell::new(None),
            dead: RefCell::new(None),
            members: RefCell::new(None),
            form: RefCell::new(None),
            object: RefCell::new(None),
            other: RefCell::new(None),
        }
    }

    /// The query that is kept in the place of this kind, which is then empty.
    pub(crate) fn take(&self, kind: u8) -> Option<Begun> {
        match self.of(kind).try_replace(None) {
            Ok(kept) => kept,
            Err(none) => {
                drop(none);
                None
            }
        }
    }

    /// Keeps a query in the place of its kind.
    pub(crate) fn keep(&self, begun: Begun) {
        let last = self.of(begun.q.kind);
        drop(last.try_replace(Some(begun)));
    }

    fn of(&self, kind: u8) -> &Last {
        match kind {
            4 => &self.constant,
            5 => &self.check,
            7 => &self.dead,
            8 => &self.members,
            9 => &self.form,
            10 => &self.object,
            _ => &self.other,
        }
    }
}
