use crate::operator::Increment;

/// What may stand one nesting deeper.
#[derive(Clone, Copy, Debug, PartialEq, Eq)]
pub enum Rule {
    /// An expression
    Whole,
    /// A subscript, which may be empty
    Subscript,
    /// The right side of an assignment
    Assignment,
    /// The last part of `?:`
    Conditional,
    /// The exponent
    Power,
    /// What a sign acts on
    Operand,
    /// A variable with `++` or `--` before it
    PreIncrement(Increment),
}
