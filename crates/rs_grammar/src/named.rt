use inc_base::Bytes;
use rs_tree::At;

/// A name that a text defines: where it stands, the module that it is an item of, empty for the root, or
/// None for a module's own name, and the name.
#[derive(Drop)]
pub struct Named {
    pub at: At,
    pub module: Option<Bytes>,
    pub name: Bytes,
}
