/// An operator of two numbers, which are always both evaluated.
#[derive(Clone, Copy, Debug, PartialEq, Eq)]
pub enum Operator {
    /// `|`
    BitOr,
    /// `^`
    BitXor,
    /// `&`
    BitAnd,
    /// `==`
    Equal,
    /// `!=`
    NotEqual,
    /// `<`
    Less,
    /// `<=`
    LessOrEqual,
    /// `>`
    Greater,
    /// `>=`
    GreaterOrEqual,
    /// `<<`
    ShiftLeft,
    /// `>>`
    ShiftRight,
    /// `+`
    Add,
    /// `-`
    Subtract,
    /// `*`
    Multiply,
    /// `/`
    Divide,
    /// `%`
    Remainder,
}

/// A binary operator that groups from the left.
#[derive(Clone, Copy, Debug, PartialEq, Eq)]
pub enum BinaryOperator {
    /// `,`
    Comma,
    /// `||`
    Or,
    /// `&&`
    And,
    /// One that always evaluates both its sides, to a number each.
    Both(Operator),
}

/// What may follow an operand.
#[derive(Clone, Copy, Debug, PartialEq, Eq)]
pub enum Symbol {
    /// A binary operator that groups from the left.
    Binary(BinaryOperator),
    /// `**`
    Power,
    /// `?`
    Question,
    /// `:`
    Colon,
    /// `=`, or an operator and `=`
    Assign(Option<Operator>),
}

/// A unary operator, which stands before an operand.
#[derive(Clone, Copy, Debug, PartialEq, Eq)]
pub enum Sign {
    /// `!`
    Not,
    /// `~`
    Complement,
    /// `+`
    Plus,
    /// `-`
    Minus,
}

/// An increment or a decrement.
#[derive(Clone, Copy, Debug, PartialEq, Eq)]
pub enum Increment {
    /// `++`
    Up,
    /// `--`
    Down,
}

/// Whether a variable is incremented before or after its value is taken.
#[derive(Clone, Copy, Debug, PartialEq, Eq)]
pub enum Timing {
    /// `++x`, `--x`: the value is the number after the increment
    Pre,
    /// `x++`, `x--`: the value is the number before the increment
    Post,
}
