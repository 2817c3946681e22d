ghost use Rattle.std.specs.Prelude.{◌≤◌, length};

use eb_bytes::Memory;
use std::alloc::Global;

// Where a byte stands to the double quotes before it.
#[derive(Clone, Copy)]
enum Quote {
    Outside,
    Inside,
    AfterBackslash,
}

impl Quote {
    // Where the next byte stands.
    fn after(self, byte: u8) -> Quote {
        match (self, byte) {
            (Quote::Outside, b'"') | (Quote::AfterBackslash, _) => Quote::Inside,
            (Quote::Inside, b'"') => Quote::Outside,
            (Quote::Inside, b'\\') => Quote::AfterBackslash,
            (quote, _) => quote,
        }
    }
}

/// What ends a part of a line, outside double quotes.
#[derive(Clone, Copy)]
pub enum End<'a> {
    /// One of these bytes.
    OneOf(&'a [u8]),
    /// This text.
    Text(&'a [u8]),
}

impl End<'_> {
    fn is_first(self, rest: &[u8]) -> bool {
        match (self, rest.first()) {
            (End::OneOf(bytes), Some(byte)) => bytes.contains(byte),
            (End::OneOf(_), None) => false,
            (End::Text(text), _) => rest.starts_with(text),
        }
    }
}

/// What stands before the first such end outside double quotes, and the rest.
pub fn split_before<'t>(text: &'t [u8], end: End<'_>) -> (&'t [u8], &'t [u8]) {
    let mut quote = Quote::Outside;
    for (at, byte) in text.iter().enumerate() {
        if matches!(quote, Quote::Outside) && end.is_first(&text[at..]) {
            return text.split_at(at);
        }
        quote = quote.after(*byte);
    }
    (text, b"")
}

/// The parts of a text between this byte, where it stands outside double quotes: at least one.
pub fn parts(alloc: Global, text: &[u8], joint: u8) -> Result<Vec<&[u8]>, Memory> {
    let mut parts = Vec::new(alloc);
    let mut rest = text;
    for _ in 0..=text.len() {
        let (part, after) = split_before(rest, End::OneOf(&[joint]));
        parts.push(part)?;
        let [_, others @ ..] = after else {
            break;
        };
        rest = others;
    }
    Ok(parts)
}

/// What stands before and after the first such byte outside double quotes, if there is one.
pub fn cut(text: &[u8], joint: u8) -> Option<(&[u8], &[u8])> {
    match split_before(text, End::OneOf(&[joint])) {
        (before, [_, after @ ..]) => Some((before, after)),
        _ => None,
    }
}
