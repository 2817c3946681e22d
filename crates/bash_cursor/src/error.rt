use eb_bytes::Memory;
use std::alloc::AllocError;
use thiserror::Error;

/// Why a rule of the grammar was not read. The cursor is where it was then.
#[derive(Clone, Copy, Debug, PartialEq, Eq, Error)]
pub enum LexErr {
    /// The rule has no reading at the place.
    #[error("no reading")]
    NoParse,
    /// Reading it would open more nestings than may be open, on this line.
    #[error("line {line} is nested too deep")]
    TooDeep { line: u32 },
    /// Out of memory.
    #[error("out of memory")]
    Memory,
}

impl From<Memory> for LexErr {
    ghost use Rattle.std.specs.Prelude.{◌≡◌};
    ghost use Rattle.bash_cursor.specs.declared.error.LexErr.TheVariants as error;

    ghost from_gives = { λ _ e. e ≡ error.Memory };

    fn from(_error: Memory) -> LexErr {
        LexErr::Memory
    }
}

impl From<AllocError> for LexErr {
    ghost use Rattle.std.specs.Prelude.{◌≡◌};
    ghost use Rattle.bash_cursor.specs.declared.error.LexErr.TheVariants as error;

    ghost from_gives = { λ _ e. e ≡ error.Memory };

    fn from(_error: AllocError) -> LexErr {
        LexErr::Memory
    }
}
