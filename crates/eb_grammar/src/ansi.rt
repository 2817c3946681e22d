//! What the text between `$'` and `'` stands for (Bash Reference Manual, "ANSI-C Quoting").

ghost use Rattle.std.specs.Prelude.{◌≡◌, ◌≤◌, ◌+◌, ◌↔◌, length, IfOk, IsTrue};
ghost use Rattle.std.specs.List.{prefix_len};
ghost use Rattle.eb_grammar.specs.AnsiText.{
  ansi_text,
  digit_value,
  digits_at,
  escape,
  has_refused_escape,
  hexadecimal,
  is_digit_of,
  letter_of,
  meaning_of,
  most_digits,
  numbered,
  part_of,
  radix,
  value_from,
};

use byte_class::is_digit;
use eb_bytes::{Bytes, Memory};
use std::alloc::Global;
use thiserror::Error;

/// Why a text in `$'..'` has no value.
#[derive(Clone, Copy, Debug, PartialEq, Eq, Error)]
pub enum AnsiErr {
    /// It has an escape `\u`, `\U` or `\c`, which this shell refuses.
    #[error("an escape that is not supported")]
    Quoting,
    /// Out of memory.
    #[error("out of memory")]
    Memory,
}

impl From<Memory> for AnsiErr {
    ghost use Rattle.std.specs.Prelude.{◌≡◌};
    ghost use Rattle.eb_grammar.specs.declared.ansi.AnsiErr.TheVariants as refusal;

    ghost from_gives = { λ _ e. e ≡ refusal.Memory };

    fn from(_error: Memory) -> AnsiErr {
        AnsiErr::Memory
    }
}

/// What a part of the text means.
#[doc(hidden)]
#[derive(Clone, Copy)]
pub enum Meaning {
    /// This byte.
    Byte(u8),
    /// Nothing: the byte 0 would stand there, which no text holds.
    Nothing,
    /// The text ends.
    End,
    /// A backslash and this letter, which are refused.
    Refused(u8),
}

/// What the digits of an escape count in.
#[doc(hidden)]
#[derive(Clone, Copy)]
pub enum Base {
    /// `\nnn`
    Octal,
    /// `\xHH`
    Hexadecimal,
}

impl Base {
    fn radix(self) -> u8
        ensures { result ≡ radix self }
    {
        match self {
            Base::Octal => 8,
            Base::Hexadecimal => 16,
        }
    }

    fn most_digits(self) -> usize
        ensures { result ≡ most_digits self }
    {
        match self {
            Base::Octal => 3,
            Base::Hexadecimal => 2,
        }
    }

    fn has(self, byte: u8) -> bool
        ensures { result ≡ is_digit_of self byte }
    {
        match self {
            Base::Octal => matches!(byte, b'0'..=b'7'),
            Base::Hexadecimal => is_digit(byte) || matches!(byte, b'A'..=b'F' | b'a'..=b'f'),
        }
    }
}

/// The value of `$'..'`: its text with each escape replaced by the byte that it stands for.
///
/// # Errors
/// `Quoting` exactly where an escape `\u`, `\U` or `\c` stands in the text, `Memory` where there is no room.
pub fn ansi_value(alloc: Global, text: &[u8]) -> Result<Bytes, AnsiErr>
    ensures value { IfOk result (λ value. value ≡ ansi_text text.now) }
    ensures refused { (result ≡ Err AnsiErr.Quoting) ↔ IsTrue (has_refused_escape text.now) }
{
    if has_refused_escape(text) {
        return Err(AnsiErr::Quoting);
    }
    Ok(ansi_text(alloc, text)?)
}

/// The text of `$'..'` with each escape replaced by the byte that it stands for. Escapes that are refused where the
/// text is expanded stay as they are written, as in the delimiter of a here-document.
///
/// # Errors
/// `Memory` where there is no room for it.
#[tactic(auto, unfolding(crate::specs::AnsiText::ansi_text))]
pub fn ansi_text(alloc: Global, text: &[u8]) -> Result<Bytes, Memory>
    ensures { IfOk result (λ value. value ≡ ansi_text text.now) }
{
    let mut value = Bytes::new(alloc);
    let mut rest = text;
    for _part in 0..text.len() {
        let (meaning, len) = part_of(rest);
        match meaning {
            Meaning::Byte(byte) => value.push(byte)?,
            Meaning::Nothing => {}
            Meaning::Refused(letter) => value.extend(&[b'\\', letter])?,
            Meaning::End => return Ok(value),
        }
        rest = &rest[len..];
    }
    Ok(value)
}

// Whether an escape that is refused stands in the text.
#[tactic(auto, unfolding(crate::specs::AnsiText::has_refused_escape))]
fn has_refused_escape(text: &[u8]) -> bool
    ensures { result ≡ has_refused_escape text.now }
{
    let mut rest = text;
    for _part in 0..text.len() {
        let (meaning, len) = part_of(rest);
        match meaning {
            Meaning::Byte(_) => {}
            Meaning::Nothing => {}
            Meaning::Refused(_) => return true,
            Meaning::End => return false,
        }
        rest = &rest[len..];
    }
    false
}

// The part that a text begins with, and how many bytes it has.
fn part_of(text: &[u8]) -> (Meaning, usize)
    ensures part { result ≡ part_of text.now }
    ensures within { result.1 ≤ length text.now }
{
    match text {
        [] => (Meaning::End, 0),
        [b'\\', after @ ..] => escape(after),
        [byte, ..] => (Meaning::Byte(*byte), 1),
    }
}

// A backslash before this text.
fn escape(after: &[u8]) -> (Meaning, usize)
    ensures part { result ≡ escape after.now }
    ensures within { result.1 ≤ length after.now + 1 }
{
    match after {
        [] => (Meaning::Byte(b'\\'), 1),
        [letter @ (b'u' | b'U' | b'c'), ..] => (Meaning::Refused(*letter), 2),
        [b'x', text @ ..] => hexadecimal(digits_at(Base::Hexadecimal, text)),
        [b'0'..=b'7', ..] => numbered(Base::Octal, 1, digits_at(Base::Octal, after)),
        [letter, ..] => match letter_of(*letter) {
            Some(byte) => (Meaning::Byte(byte), 2),
            None => (Meaning::Byte(b'\\'), 1),
        },
    }
}

// `\x` and its digits.
fn hexadecimal(digits: &[u8]) -> (Meaning, usize)
    requires { length digits.now ≤ 2 }
    ensures { result ≡ hexadecimal digits.now }
{
    match digits {
        [] => (Meaning::Byte(b'\\'), 1),
        _ => numbered(Base::Hexadecimal, 2, digits),
    }
}

// Digits, with this many bytes before them.
fn numbered(base: Base, before: usize, digits: &[u8]) -> (Meaning, usize)
    requires before { before ≤ 2 }
    requires digits { length digits.now ≤ 3 }
    ensures { result ≡ numbered base before digits.now }
{
    (number(base.radix(), digits), before + digits.len())
}

// The byte of the number that the digits write.
fn number(radix: u8, digits: &[u8]) -> Meaning
    ensures { result ≡ meaning_of (value_from radix 0 digits.now) }
{
    let mut number = 0u8;
    for digit in digits {
        number = number.wrapping_mul(radix).wrapping_add(digit_value(*digit));
    }
    if number == 0 {
        Meaning::Nothing
    } else {
        Meaning::Byte(number)
    }
}

// What a digit counts.
fn digit_value(byte: u8) -> u8
    ensures { result ≡ digit_value byte }
{
    if is_digit(byte) {
        byte - b'0'
    } else if byte >= b'a' {
        byte - b'a' + 10
    } else {
        byte.saturating_sub(b'A' - 10)
    }
}

// The digits that a text begins with.
#[tactic(auto, using(crate::proofs::AnsiParts::digits_are))]
fn digits_at(base: Base, text: &[u8]) -> &[u8]
    ensures digits { result.now ≡ digits_at base text.now }
    ensures most { length result.now ≤ most_digits base }
    ensures within { length result.now ≤ length text.now }
{
    let first = &text[..base.most_digits().min(text.len())];
    &first[..digit_count(base, first)]
}

// How many digits a text begins with.
fn digit_count(base: Base, text: &[u8]) -> usize
    ensures { result ≡ prefix_len (is_digit_of base) text.now }
{
    text.iter().take_while(|byte| base.has(**byte)).count()
}

// The byte that a backslash and this letter stand for.
fn letter_of(letter: u8) -> Option<u8>
    ensures { result ≡ letter_of letter }
{
    match letter {
        b'a' => Some(0x07),
        b'b' => Some(0x08),
        b'e' | b'E' => Some(0x1b),
        b'f' => Some(0x0c),
        b'n' => Some(b'\n'),
        b'r' => Some(b'\r'),
        b't' => Some(b'\t'),
        b'v' => Some(0x0b),
        b'\\' | b'\'' | b'"' | b'?' => Some(letter),
        _ => None,
    }
}
