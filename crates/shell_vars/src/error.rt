ghost use Rattle.std.specs.Prelude.{◌≡◌};

use eb_bytes::Memory;
use thiserror::Error;

/// Why a call on variables was refused.
#[derive(Clone, Copy, Debug, PartialEq, Eq, Error)]
pub enum VarErr {
    /// The binding that would change is readonly.
    #[error("readonly variable")]
    Readonly,
    /// No call is open whose frame could hold a local name.
    #[error("local outside of a function")]
    LocalOutside,
    /// A negative subscript is still below 0 after the greatest index plus one was added, or an element's index would
    /// pass 9223372036854775807.
    #[error("bad array subscript")]
    BadSubscript,
    /// A text value, or one element of an array, would have more than 1,048,576 bytes.
    #[error("value of more than 1048576 bytes")]
    ValueSize,
    /// All bindings together would have more than 33,554,432 bytes.
    #[error("variables of more than 33554432 bytes")]
    TotalSize,
    /// Out of memory.
    #[error("out of memory")]
    Memory,
}

impl From<Memory> for VarErr {
    ghost use Rattle.std.specs.Prelude.{◌≡◌};
    ghost use Rattle.shell_vars.specs.declared.error.VarErr.TheVariants as refusal;

    ghost from_gives = { λ _ e. e ≡ refusal.Memory };

    fn from(_error: Memory) -> VarErr {
        VarErr::Memory
    }
}
