ghost use Rattle.std.specs.Prelude.{◌≡◌, ◌≢◌, IfOk};
ghost use Rattle.md5_cache.specs.Entry.{IsEntry, IsTextOfNone, IsTextOfOne, entry_text};

use crate::entry::{Entry, EntryErr};
use crate::parts::read_parts;
use std::alloc::Global;

/// The entry whose file has these bytes. There is at most one; `write_entry` of it gives the bytes again.
///
/// # Errors
/// `BadEntry` where no entry's file has these bytes, and `Memory` where there is no room for what is read.
pub fn read_entry(alloc: Global, text: &[u8]) -> Result<Entry, EntryErr>
    ensures text { IfOk result (λ entry. entry_text entry ≡ text.now) }
    ensures rules { IfOk result IsEntry }
    ensures one { IfOk result (IsTextOfOne text.now) }
    ensures bad { result ≡ Err EntryErr.BadEntry → IsTextOfNone text.now }
    ensures never_incomplete { result ≢ Err EntryErr.Incomplete }
{
    match read_parts(alloc, text)? {
        Some(parts) => Entry::of_parts(alloc, parts),
        None => Err(EntryErr::BadEntry),
    }
}
