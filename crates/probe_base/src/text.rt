ghost use Rattle.std.specs.Prelude.{◌<◌, ◌≤◌, IfSome, length};

use crate::fault::Fault;
use crate::token::{cut, parts};
use eb_bytes::{Bytes, read_decimal};
use std::alloc::Global;

/// The text that a field stands for: texts joined by `+`, each perhaps with how often it stands there, as in
/// `"a"+64*"b"`. A text is lower-case hexadecimal, `-` where it is empty, or readable in double quotes.
pub fn read_text(alloc: Global, field: &[u8]) -> Result<Bytes, Fault> {
    let mut text = Bytes::new(alloc);
    push_field(alloc, field, &mut text)?;
    Ok(text)
}

/// The texts that all the fields stand for.
pub fn read_texts(alloc: Global, fields: &[&[u8]]) -> Result<Vec<Bytes>, Fault> {
    let mut texts = Vec::new(alloc);
    for field in fields {
        texts.push(read_text(alloc, field)?)?;
    }
    Ok(texts)
}

fn push_field(alloc: Global, field: &[u8], text: &mut Bytes) -> Result<(), Fault> {
    for part in parts(alloc, field, b'+')? {
        push_counted(alloc, part, text)?;
    }
    Ok(())
}

fn push_counted(alloc: Global, part: &[u8], text: &mut Bytes) -> Result<(), Fault> {
    let (count, part) = counted(part)?;
    let once = read_part(alloc, part)?;
    for _ in 0..count {
        text.extend(once.as_slice())?;
    }
    Ok(())
}

/// How often something stands, and what: `64*` in front says so, and it stands once where nothing does.
pub fn counted(part: &[u8]) -> Result<(u64, &[u8]), Fault> {
    match cut(part, b'*') {
        Some((count, part)) => Ok((read_decimal(count).ok_or(Fault::NoRequest)?, part)),
        None => Ok((1, part)),
    }
}

/// A text in hexadecimal or in double quotes, alone.
pub fn read_part(alloc: Global, part: &[u8]) -> Result<Bytes, Fault> {
    let mut text = Bytes::new(alloc);
    push_part(part, &mut text)?;
    Ok(text)
}

fn push_part(part: &[u8], text: &mut Bytes) -> Result<(), Fault> {
    match part {
        [b'"', inner @ .., b'"'] => push_bytes(inner, Form::Readable, text),
        [b'-'] => Ok(()),
        [] => Err(Fault::NoRequest),
        digits => push_bytes(digits, Form::Hexadecimal, text),
    }
}

// How the bytes of a text are written.
#[derive(Clone, Copy)]
enum Form {
    Readable,
    Hexadecimal,
}

fn push_bytes(written: &[u8], form: Form, text: &mut Bytes) -> Result<(), Fault> {
    let mut rest = written;
    for _ in 0..written.len() {
        if rest.is_empty() {
            break;
        }
        let first = match form {
            Form::Readable => first_readable(rest),
            Form::Hexadecimal => first_hexadecimal(rest),
        };
        let (byte, others) = first.ok_or(Fault::NoRequest)?;
        text.push(byte)?;
        rest = others;
    }
    Ok(())
}

// The byte that stands first between double quotes, and what follows it.
fn first_readable(written: &[u8]) -> Option<(u8, &[u8])> {
    match written {
        [b'\\', b'n', rest @ ..] => Some((b'\n', rest)),
        [b'\\', b't', rest @ ..] => Some((b'\t', rest)),
        [b'\\', b'x', rest @ ..] => first_hexadecimal(rest),
        [b'\\', byte @ (b'"' | b'\\'), rest @ ..] => Some((*byte, rest)),
        [b'"' | b'\\', ..] => None,
        [byte @ b' '..=b'~', rest @ ..] => Some((*byte, rest)),
        _ => None,
    }
}

// The byte of the two digits that stand first, and what follows them.
fn first_hexadecimal(written: &[u8]) -> Option<(u8, &[u8])> {
    match written {
        [high, low, rest @ ..] => Some((read_byte(*high, *low)?, rest)),
        _ => None,
    }
}

/// The byte of two lower-case hexadecimal digits.
pub fn read_byte(high: u8, low: u8) -> Option<u8> {
    Some(digit_value(high)? * 16 + digit_value(low)?)
}

fn digit_value(digit: u8) -> Option<u8>
    ensures { IfSome result (λ value. value < 16) }
{
    match digit {
        b'0'..=b'9' => Some(digit - b'0'),
        b'a'..=b'f' => Some(digit - b'a' + 10),
        _ => None,
    }
}
