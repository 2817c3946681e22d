use eb_bytes::{Bytes, Memory};
use shell_vars::VarErr;
use thiserror::Error;

/// Why an expression has no value. No text is carried: a caller shows the whole expression that it evaluated.
#[derive(Debug, Drop, Error)]
pub enum ArithErr {
    /// The text, or that of a variable, is no expression.
    #[error("syntax error in expression")]
    Syntax,
    /// A number was to be divided by 0.
    #[error("division by 0")]
    DivZero,
    /// An exponent is below 0.
    #[error("exponent less than 0")]
    NegativeExponent,
    /// More than 64 nestings would be open: parentheses, subscripts, what unary operators act on, right sides of `**`,
    /// `?:` and assignments, and evaluations of variables.
    #[error("expression nested too deeply")]
    Nesting,
    /// The variable of this name is one whose value a shell makes up as it is read, which is not done here.
    #[error("reading this variable is not supported")]
    Unsupported(Bytes),
    /// The variable of this name could not be assigned to, or a negative subscript of it is still below 0 after the
    /// greatest index plus one was added. It is never `VarErr::Memory`.
    #[error("the variable cannot be read or assigned to so")]
    Var(Bytes, VarErr),
    /// No step was left for the evaluation of a variable.
    #[error("out of steps")]
    Spent,
    /// Out of memory.
    #[error("out of memory")]
    Memory,
}

impl From<Memory> for ArithErr {
    ghost use Rattle.std.specs.Prelude.{◌≡◌};
    ghost use Rattle.bash_arith.specs.declared.error.ArithErr.TheVariants as fault;

    ghost from_gives = { λ _ e. e ≡ fault.Memory };

    fn from(_error: Memory) -> ArithErr {
        ArithErr::Memory
    }
}
