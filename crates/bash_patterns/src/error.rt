use eb_bytes::Memory;
use thiserror::Error;

/// Why a pattern was not compiled.
#[derive(Clone, Copy, Debug, PartialEq, Eq, Error)]
pub enum PatErr {
    /// More than 64 groups are nested.
    #[error("more than 64 groups are nested")]
    TooDeep,
    /// Out of memory.
    #[error("out of memory")]
    Memory,
}

impl From<Memory> for PatErr {
    ghost use Rattle.std.specs.Prelude.{◌≡◌};
    ghost use Rattle.bash_patterns.specs.declared.error.PatErr.TheVariants as error;

    ghost from_gives = { λ _ e. e ≡ error.Memory };

    fn from(_error: Memory) -> PatErr {
        PatErr::Memory
    }
}
