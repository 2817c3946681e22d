ghost use Rattle.std.specs.Prelude.{◌≤◌, ◌<◌, length};

use byte_class::{is_name_byte, is_name_start};

/// What stands first in the text of a word.
#[derive(Clone, Copy)]
pub(crate) enum Lexeme<'t> {
    Byte(u8),
    // A byte after a backslash.
    Escaped(u8),
    // What stands between single quotes, and between double quotes.
    Single(&'t [u8]),
    Double(&'t [u8]),
    // The name after a dollar, empty where there is none.
    Name(&'t [u8]),
}

/// What stands first in a text, and what follows it; nothing where the text is empty or a quote does not end.
pub(crate) fn first(text: &[u8]) -> Option<(Lexeme<'_>, &[u8])> {
    match text {
        [b'\\', byte, rest @ ..] => Some((Lexeme::Escaped(*byte), rest)),
        [b'\'', rest @ ..] => {
            let (quoted, rest) = until(rest, b'\'')?;
            Some((Lexeme::Single(quoted), rest))
        }
        [b'"', rest @ ..] => {
            let (quoted, rest) = until(rest, b'"')?;
            Some((Lexeme::Double(quoted), rest))
        }
        [b'$', rest @ ..] => {
            let (name, rest) = split_name(rest);
            Some((Lexeme::Name(name), rest))
        }
        [b'\\'] | [] => None,
        [byte, rest @ ..] => Some((Lexeme::Byte(*byte), rest)),
    }
}

// What stands before and after the first such byte.
fn until(text: &[u8], end: u8) -> Option<(&[u8], &[u8])> {
    for (at, byte) in text.iter().enumerate() {
        if *byte == end {
            return Some((&text[..at], &text[at + 1..]));
        }
    }
    None
}

// The longest name that a text begins with, and the rest.
fn split_name(text: &[u8]) -> (&[u8], &[u8]) {
    for (at, byte) in text.iter().enumerate() {
        if !is_name_start(*byte) && (at == 0 || !is_name_byte(*byte)) {
            return text.split_at(at);
        }
    }
    (text, b"")
}
