use crate::view::View;

/// A session that began: what it sees or saw, and whether it still runs.
#[derive(Drop)]
pub(crate) struct Enrolled {
    pub(crate) view: View,
    pub(crate) runs: bool,
}
