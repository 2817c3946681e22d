ghost use Rattle.std.specs.Prelude.{◌≡◌};
ghost use Rattle.bash_params.specs.Answer.{Answers};
ghost use Rattle.bash_params.specs.Cut.{cut as cut_of, place as place_of, substring as substring_of};

use crate::error::ParamErr;
use crate::part::{after, before};
use eb_bytes::Bytes;
use std::alloc::Global;

/// The bytes of a text from an offset on, at most so many as a length says (Bash Reference Manual, "Shell Parameter
/// Expansion", `${parameter:offset:length}`). A negative offset counts from the text's end, and where it passes the
/// start there are no bytes, whatever the length is. A negative length is an end counted from the text's end.
///
/// # Errors
/// `BadSubstitution` where that end lies before the offset, and `Memory`.
pub fn substring(alloc: Global, text: &[u8], from: i64, len: Option<i64>) -> Result<Bytes, ParamErr>
    ensures { Answers result (substring_of from len text.now) }
{
    match place(text.len() as u64, from) {
        Some(at) => cut(alloc, after(text, at as usize), len),
        None => Ok(Bytes::new(alloc)),
    }
}

// What a length leaves of a text from the offset on.
fn cut(alloc: Global, text: &[u8], len: Option<i64>) -> Result<Bytes, ParamErr>
    ensures { Answers result (cut_of len text.now) }
{
    let part = match len {
        None => text,
        Some(len) => match place(text.len() as u64, len) {
            Some(end) => before(text, end as usize),
            None => return Err(ParamErr::BadSubstitution),
        },
    };
    Ok(Bytes::from_slice(alloc, part)?)
}

/// The place that an offset means where there are so many: a negative one counts from the end. None where it passes the
/// start.
pub fn place(size: u64, from: i64) -> Option<u64>
    ensures { result ≡ place_of size from }
{
    if from >= 0 {
        Some(from as u64)
    } else {
        size.checked_sub(from.unsigned_abs())
    }
}
