/// Why an expression has no value.
#[derive(Clone, Copy, Debug, PartialEq, Eq)]
pub enum Trap {
    /// A result leaves the numbers of 64 bits.
    Overflow,
    DivZero,
    /// A call, or a path without a value.
    NoValue,
}
