use eb_bytes::Memory;
use thiserror::Error;

/// Why a word's braces were not expanded.
#[derive(Clone, Copy, Debug, Error)]
pub enum BraceErr {
    /// They give more than 65,536 words.
    #[error("braces give more than 65536 words")]
    TooMany,
    /// There was no room for the words.
    #[error("out of memory")]
    Memory,
}

impl From<Memory> for BraceErr {
    ghost use Rattle.std.specs.Prelude.{◌≡◌};
    ghost use Rattle.bash_braces.specs.declared.error.BraceErr.TheVariants as error;

    ghost from_gives = { λ _ e. e ≡ error.Memory };

    fn from(_error: Memory) -> BraceErr {
        BraceErr::Memory
    }
}
