use eb_bytes::Memory;
use thiserror::Error;

/// Why a version function has no answer.
#[derive(Clone, Copy, Debug, PartialEq, Eq, Error)]
pub enum VerErr {
    /// The text is no range.
    #[error("not a range of version components")]
    BadRange,
    /// The text is no version.
    #[error("not a version")]
    BadVersion,
    /// The text is no comparison operator.
    #[error("not a version comparison operator")]
    BadOperator,
    /// Out of memory.
    #[error("out of memory")]
    Memory,
}

impl From<Memory> for VerErr {
    ghost use Rattle.std.specs.Prelude.{◌≡◌};
    ghost use Rattle.version_funcs.specs.declared.error.VerErr.TheVariants as why;

    ghost from_gives = { λ _ error. error ≡ why.Memory };

    fn from(_error: Memory) -> VerErr {
        VerErr::Memory
    }
}
