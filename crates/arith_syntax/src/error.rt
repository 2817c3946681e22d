use eb_bytes::Memory;
use thiserror::Error;

/// Why an expression cannot be read.
#[derive(Clone, Copy, Debug, PartialEq, Eq, Error)]
pub enum Refusal {
    /// What stands there cannot follow what was read.
    #[error("syntax error in expression")]
    Syntax,
    /// More nestings would be open than may be.
    #[error("expression nested too deeply")]
    Nesting,
}

/// Why a text gives no instructions.
#[derive(Clone, Copy, Debug, PartialEq, Eq, Error)]
pub enum ReadErr {
    /// The text is no expression.
    #[error("{0}")]
    Refused(Refusal),
    /// Out of memory.
    #[error("out of memory")]
    Memory,
}

impl From<Memory> for ReadErr {
    ghost use Rattle.std.specs.Prelude.{◌≡◌};
    ghost use Rattle.arith_syntax.specs.declared.error.ReadErr.TheVariants as read;

    ghost from_gives = { λ _ e. e ≡ read.Memory };

    fn from(_error: Memory) -> ReadErr {
        ReadErr::Memory
    }
}
