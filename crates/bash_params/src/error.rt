use eb_bytes::Memory;
use thiserror::Error;

/// Why an operator gave no value.
#[derive(Clone, Copy, Debug, PartialEq, Eq, Error)]
pub enum ParamErr {
    /// The end of a substring lies before its offset, or the length of a slice is negative.
    #[error("bad substitution")]
    BadSubstitution,
    /// The new text would have more than 1,048,576 bytes.
    #[error("value of more than 1048576 bytes")]
    ValueSize,
    /// Out of memory.
    #[error("out of memory")]
    Memory,
}

impl From<Memory> for ParamErr {
    ghost use Rattle.std.specs.Prelude.{◌≡◌};
    ghost use Rattle.bash_params.specs.declared.error.ParamErr.TheVariants as refusal;

    ghost from_gives = { λ _ e. e ≡ refusal.Memory };

    fn from(_error: Memory) -> ParamErr {
        ParamErr::Memory
    }
}
