ghost use Rattle.std.specs.Prelude.{◌≡◌, ℕ, Bool, Option, Some};
ghost use Rattle.eb_bytes.specs.Text.{Text};
ghost use Rattle.eb_files.specs.Causes.{HasCause};
ghost use Rattle.eb_files.specs.Written.{Appended, IfPutMemory, is_put_failed};

use eb_bytes::Memory;
use thiserror::Error;

/// Why a put did not end well.
#[derive(Debug, Clone, Copy, PartialEq, Eq, Error)]
pub enum SinkErr {
    /// The bytes could not be written, or not all of them.
    #[error("the output could not be written")]
    Failed,
    /// There was no room for the bytes.
    #[error("out of memory")]
    Memory,
}

impl From<Memory> for SinkErr {
    ghost use Rattle.std.specs.Prelude.{◌≡◌};
    ghost use Rattle.eb_files.specs.declared.sink.SinkErr.TheVariants as why;

    ghost from_gives = { λ _ error. error ≡ why.Memory };

    fn from(_error: Memory) -> SinkErr {
        SinkErr::Memory
    }
}

/// An output.
pub trait Sink {
    /// What was put, where it is known.
    ghost written: { Self → Option Text };

    /// How many failures came: a call that fails raises it by one, and every other call leaves it.
    ghost faults: { Self → ℕ };

    /// Whether a failure may still come.
    ghost may_fail: { Self → Bool };

    /// Puts these bytes after what was put before.
    ///
    /// # Errors
    /// `Failed` where not all of them could be written; a prefix of them was put then. `Memory` where there is no room
    /// for them; nothing changed then. Only `Failed` is a fault.
    fn put(&mut self, bytes: &[u8]) -> Result<(), SinkErr>
        ensures means { (held : Text) → written self.old ≡ Some held → Appended result held bytes.now (written self.new) }
        ensures cause { HasCause (is_put_failed result) (faults self.old) (faults self.new) (may_fail self.old) (may_fail self.new) }
        ensures memory { IfPutMemory result (may_fail self.new ≡ may_fail self.old) (Unit {0}) };
}
