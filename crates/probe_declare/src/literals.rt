//! Literals of arrays, as the probe's requests have them: words between blanks, each perhaps with `[N]=` before it.

use bash_assign::Element;
use eb_bytes::{Bytes, words_of};
use probe_base::Fault;
use signed_numbers::read_signed;
use sqlite_items::Items as List;
use std::alloc::Global;

/// The elements of a literal.
pub fn elements(alloc: Global, text: &[u8]) -> Result<List<Element>, Fault> {
    let mut elements = List::new(alloc);
    for word in &words_of(alloc, text)? {
        elements.push(element(alloc, word.as_slice())?)?;
    }
    Ok(elements)
}

fn element(alloc: Global, word: &[u8]) -> Result<Element, Fault> {
    let [b'[', rest @ ..] = word else {
        return Ok(Element {
            at: None,
            text: Bytes::from_slice(alloc, word)?,
        });
    };
    let end = rest
        .iter()
        .position(|byte| *byte == b']')
        .ok_or(Fault::NoRequest)?;
    let at = rest.get(..end).unwrap_or(b"");
    match rest.get(end + 1..) {
        Some([b'=', text @ ..]) => Ok(Element {
            at: Some(read_signed(at).ok_or(Fault::NoRequest)?),
            text: Bytes::from_slice(alloc, text)?,
        }),
        _ => Err(Fault::NoRequest),
    }
}
