ghost use Rattle.std.specs.Prelude.{◌≡◌, IfOk};
ghost use Rattle.printf_format.specs.Escapes.{common_escape as common_escape_of, counted, echo_escape as echo_escape_of, format_escape as format_escape_of, hexadecimal as hexadecimal_of, letter_of as byte_of_letter, lettered, numbered as numbered_of, part_of as part_of_text, spelled};

use crate::digits::{Base, digit_count, number_in};
use eb_bytes::{Bytes, Memory};
use std::alloc::Global;

/// What ends a text that is printed.
#[derive(Clone, Copy)]
pub enum Ending {
    /// It is whole.
    Through,
    /// An escape `\c` ends all output.
    Stopped,
    /// The words or the format are not what `printf` takes.
    BadUse,
    /// An escape that is not supported.
    Quoting,
}

/// What a part of a text with escapes means.
#[doc(hidden)]
#[derive(Clone, Copy)]
pub enum Meaning {
    /// This byte.
    Byte(u8),
    /// The text ends.
    End,
    /// `\c`: all output ends.
    Stop,
    /// `\u` or `\U`, which are refused.
    Refused,
}

/// What a text with escapes stands for.
#[derive(Drop)]
pub struct Spelled {
    /// The bytes that it stands for, up to what ends it. An escape may make the byte 0.
    pub text: Bytes,
    /// What ends it.
    pub ending: Ending,
}

/// What a text with the escapes of `echo -e` stands for (Bash Reference Manual, "Bash Builtin Commands"): `\a`, `\b`,
/// `\e`, `\E`, `\f`, `\n`, `\r`, `\t`, `\v`, `\\`, `\0` with at most three octal digits, `\x` with one or two
/// hexadecimal ones, and `\c`, which ends all output. `\u` and `\U` end the text as not supported; any other backslash
/// stands for itself.
///
/// # Errors
/// `Memory` where there is no room for it.
#[tactic(auto, unfolding(crate::specs::Escapes::spelled))]
pub fn spell(alloc: Global, text: &[u8]) -> Result<Spelled, Memory>
    ensures text { IfOk result (λ s. s.text ≡ (spelled text.now).text) }
    ensures ending { IfOk result (λ s. s.ending ≡ (spelled text.now).ending) }
{
    let mut value = Bytes::new(alloc);
    let mut rest = text;
    for _part in 0..text.len() {
        let (meaning, after) = part_of(rest);
        match meaning {
            Meaning::Byte(byte) => value.push(byte)?,
            Meaning::End => return Ok(ended(value, Ending::Through)),
            Meaning::Stop => return Ok(ended(value, Ending::Stopped)),
            Meaning::Refused => return Ok(ended(value, Ending::Quoting)),
        }
        rest = after;
    }
    Ok(ended(value, Ending::Through))
}

fn ended(text: Bytes, ending: Ending) -> Spelled
    ensures { result ≡ record { text = text; ending = ending } }
{
    Spelled { text, ending }
}

// The part of a text with echo's escapes that it begins with, and the text after it.
fn part_of(text: &[u8]) -> (Meaning, &[u8])
    ensures meaning { result.0 ≡ (part_of_text text.now).0 }
    ensures rest { result.1.now ≡ (part_of_text text.now).1 }
{
    match text {
        [] => (Meaning::End, text),
        [b'\\', after @ ..] => echo_escape(after),
        [byte, rest @ ..] => (Meaning::Byte(*byte), rest),
    }
}

// A backslash before this text, for `echo -e` and `%b`.
fn echo_escape(after: &[u8]) -> (Meaning, &[u8])
    ensures meaning { result.0 ≡ (echo_escape_of after.now).0 }
    ensures rest { result.1.now ≡ (echo_escape_of after.now).1 }
{
    match after {
        [b'c', rest @ ..] => (Meaning::Stop, rest),
        _ => common_escape(after),
    }
}

// A backslash before this text, in a format.
pub(crate) fn format_escape(after: &[u8]) -> (Meaning, &[u8])
    ensures meaning { result.0 ≡ (format_escape_of after.now).0 }
    ensures rest { result.1.now ≡ (format_escape_of after.now).1 }
{
    match after {
        [b'"', rest @ ..] => (Meaning::Byte(b'"'), rest),
        [b'1'..=b'7', ..] => numbered(Base::Octal, 3, after),
        _ => common_escape(after),
    }
}

fn common_escape(after: &[u8]) -> (Meaning, &[u8])
    ensures meaning { result.0 ≡ (common_escape_of after.now).0 }
    ensures rest { result.1.now ≡ (common_escape_of after.now).1 }
{
    match after {
        [] => (Meaning::Byte(b'\\'), after),
        [b'u' | b'U', rest @ ..] => (Meaning::Refused, rest),
        [b'x', rest @ ..] => hexadecimal(after, rest),
        [b'0', rest @ ..] => numbered(Base::Octal, 3, rest),
        [letter, rest @ ..] => match letter_of(*letter) {
            Some(byte) => (Meaning::Byte(byte), rest),
            None => (Meaning::Byte(b'\\'), after),
        },
    }
}

// The digits of `\x`; `after` stands after the backslash.
fn hexadecimal<'a>(after: &'a [u8], digits: &'a [u8]) -> (Meaning, &'a [u8])
    ensures meaning { result.0 ≡ (hexadecimal_of after.now digits.now).0 }
    ensures rest { result.1.now ≡ (hexadecimal_of after.now digits.now).1 }
{
    if digit_count(Base::Hexadecimal, 2, digits) == 0 {
        (Meaning::Byte(b'\\'), after)
    } else {
        numbered(Base::Hexadecimal, 2, digits)
    }
}

// The byte of at most so many digits.
fn numbered(base: Base, most: usize, text: &[u8]) -> (Meaning, &[u8])
    ensures meaning { result.0 ≡ (numbered_of base most text.now).0 }
    ensures rest { result.1.now ≡ (numbered_of base most text.now).1 }
{
    let count = digit_count(base, most, text);
    let number = number_in(base, &text[..count]).unwrap_or(0);
    (Meaning::Byte((number % 256) as u8), &text[count..])
}

// The byte that a backslash and this letter stand for.
fn letter_of(letter: u8) -> Option<u8>
    ensures { result ≡ byte_of_letter letter }
{
    match letter {
        b'a' => Some(0x07),
        b'b' => Some(0x08),
        b'e' | b'E' => Some(0x1b),
        b'f' => Some(0x0c),
        b'n' => Some(b'\n'),
        b'r' => Some(b'\r'),
        b't' => Some(b'\t'),
        b'v' => Some(0x0b),
        b'\\' => Some(b'\\'),
        _ => None,
    }
}
