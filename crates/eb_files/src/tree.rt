ghost use Rattle.std.specs.Prelude.{◌≡◌, ◌≤◌, ℕ, Bool, Option, Some, IfOk, IfSome, length};
ghost use Rattle.std.specs.FinMap as map;
ghost use Rattle.eb_files.specs.Causes.{HasCause};
ghost use Rattle.eb_files.specs.Files.{Files, IfMemory, Reads, is_failed};

use crate::path::Path;
use eb_bytes::{Bytes, Memory};
use std::alloc::Global;
use thiserror::Error;

/// Why a call on a tree of files gave no answer.
#[derive(Debug, Clone, Copy, PartialEq, Eq, Error)]
pub enum TreeErr {
    /// The files could not be reached.
    #[error("the files could not be reached")]
    Failed,
    /// The file holds more bytes than were asked for.
    #[error("the file is too large")]
    TooLarge,
    /// There was no room for the answer.
    #[error("out of memory")]
    Memory,
}

impl From<Memory> for TreeErr {
    ghost use Rattle.std.specs.Prelude.{◌≡◌};
    ghost use Rattle.eb_files.specs.declared.tree.TreeErr.TheVariants as why;

    ghost from_gives = { λ _ error. error ≡ why.Memory };

    fn from(_error: Memory) -> TreeErr {
        TreeErr::Memory
    }
}

/// A tree of files.
pub trait Tree {
    /// Its files, where they are known.
    ghost files: { Self → Option Files };

    /// How many failures came: a call that fails raises it by one, and every other call leaves it.
    ghost faults: { Self → ℕ };

    /// Whether a failure may still come.
    ghost may_fail: { Self → Bool };

    /// A file's bytes, of which there are at most `limit`; none where there is no such file. No file changes.
    ///
    /// # Errors
    /// `TooLarge` where the file holds more than `limit` bytes, `Failed` where the files could not be reached, `Memory`
    /// where there is no room for the answer. Only `Failed` is a fault.
    fn read(&mut self, alloc: Global, path: &Path, limit: usize) -> Result<Option<Bytes>, TreeErr>
        ensures same { files self.new ≡ files self.old }
        ensures means { (f : Files) → files self.old ≡ Some f → Reads result (map.get f path.now) limit }
        ensures bound { IfOk result (λ o. IfSome o (λ bytes. length bytes ≤ limit)) }
        ensures cause { HasCause (is_failed result) (faults self.old) (faults self.new) (may_fail self.old) (may_fail self.new) }
        ensures memory { IfMemory result (may_fail self.new ≡ may_fail self.old) (Unit {0}) };
}
