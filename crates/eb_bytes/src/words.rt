ghost use Rattle.std.specs.Prelude.{◌≡◌, IfOk};
ghost use Rattle.eb_bytes.specs.Text.{words, norm};

use crate::bytes::{Bytes, Memory};
use byte_class::is_space;
use std::alloc::Global;

/// The words of a text, in order.
///
/// # Errors
/// `Memory` where there is no room for them.
pub fn words_of(alloc: Global, text: &[u8]) -> Result<Vec<Bytes>, Memory>
    ensures { IfOk result (λ list. list.items ≡ words text.now) }
{
    let mut list = Vec::new(alloc);
    for word in text
        .split(|byte| is_space(*byte))
        .filter(|word| !word.is_empty())
    {
        list.push(Bytes::from_slice(alloc, word)?)?;
    }
    Ok(list)
}

/// A text's words, joined by one blank: its normal form.
///
/// # Errors
/// `Memory` where there is no room for it.
pub fn join_words(alloc: Global, text: &[u8]) -> Result<Bytes, Memory>
    ensures { IfOk result (λ joined. joined ≡ norm text.now) }
{
    let words = words_of(alloc, text)?;
    let mut joined = Bytes::new(alloc);
    let [first, others @ ..] = words.as_slice() else {
        return Ok(joined);
    };
    joined.extend(first.as_slice())?;
    for word in others {
        joined.extend(b" ")?;
        joined.extend(word.as_slice())?;
    }
    Ok(joined)
}
