use rs_tree::{At, Placed};

/// An item, of no module yet, and the place of its name in the text.
#[derive(Drop)]
pub struct Sited {
    pub at: At,
    pub placed: Placed,
}
