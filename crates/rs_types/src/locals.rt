use rs_tree::Typ;

/// A variable or a parameter: its type, where it has one, and whether it may be assigned to.
///
/// A variable has none where its value has a fault and no type is declared.
#[derive(Clone, Copy, Debug, Drop)]
pub struct Local {
    pub typ: Option<Typ>,
    pub mutable: bool,
}
