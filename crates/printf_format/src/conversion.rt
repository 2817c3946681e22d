ghost use Rattle.std.specs.Prelude.{◌≡◌, ◌≤◌, ◌==◌, length};
ghost use Rattle.std.specs.List.{list_any, prefix_len};
ghost use Rattle.printf_format.specs.Conversions.{flags_of as flags_in, is_flag, kind_of as kind_named, precision as precision_read, size as size_read, size_of as size_written, sized as sized_number, digits_size as digits_size_at};
ghost use Rattle.byte_class.specs.Class.{is_digit};

use crate::digits::{Base, number_in};
use byte_class::is_digit;

/// The flags of a conversion.
#[doc(hidden)]
#[derive(Clone, Copy)]
pub struct Flags {
    /// `-`: blanks come after the text.
    pub left: bool,
    /// `0`: zeros stand between the sign and the digits.
    pub zero: bool,
    /// `+`: a number that is not negative has a plus.
    pub plus: bool,
}

/// A width or a precision.
#[doc(hidden)]
#[derive(Clone, Copy)]
pub enum Size {
    /// This number.
    Given(u64),
    /// `*`: the number that the next word is.
    Word,
}

/// What a conversion makes of a word.
#[doc(hidden)]
#[derive(Clone, Copy)]
pub enum Kind {
    /// `%s`
    Text,
    /// `%b`
    Escaped,
    /// `%c`
    Byte,
    /// `%d` and `%i`
    Signed,
    /// `%u`
    Unsigned,
    /// `%o`
    Octal,
    /// `%x`
    Hexadecimal,
    /// `%X`
    UpperHexadecimal,
}

/// A conversion of a format.
#[doc(hidden)]
#[derive(Clone, Copy)]
pub struct Conversion {
    pub flags: Flags,
    pub width: Size,
    pub precision: Option<Size>,
    pub kind: Kind,
}

// The greatest width or precision, and one more.
const SIZE_LIMIT: u64 = 0x8000_0000_0000_0000;

// The conversion of this letter.
pub(crate) fn kind_of(letter: u8) -> Option<Kind>
    ensures { result ≡ kind_named letter }
{
    match letter {
        b's' => Some(Kind::Text),
        b'b' => Some(Kind::Escaped),
        b'c' => Some(Kind::Byte),
        b'd' | b'i' => Some(Kind::Signed),
        b'u' => Some(Kind::Unsigned),
        b'o' => Some(Kind::Octal),
        b'x' => Some(Kind::Hexadecimal),
        b'X' => Some(Kind::UpperHexadecimal),
        _ => None,
    }
}

// How many flags a text begins with.
pub(crate) fn flag_count(text: &[u8]) -> usize
    ensures value { result ≡ prefix_len is_flag text.now }
    ensures within { result ≤ length text.now }
{
    text.iter()
        .take_while(|byte| matches!(**byte, b'-' | b'0' | b'+'))
        .count()
}

// The flags that stand in a text.
pub(crate) fn flags_of(text: &[u8]) -> Flags
    ensures { result ≡ flags_in text.now }
{
    Flags {
        left: has(text, b'-'),
        zero: has(text, b'0'),
        plus: has(text, b'+'),
    }
}

fn has(text: &[u8], flag: u8) -> bool
    ensures { result ≡ list_any (λ b. b == flag) text.now }
{
    text.iter().any(|byte| *byte == flag)
}

// A width or a precision that a text begins with, which may have no digits, and the text after it; no size where it is
// too great.
pub(crate) fn size_at(text: &[u8]) -> (Option<Size>, &[u8])
    ensures size { result.0 ≡ (size_read text.now).0 }
    ensures rest { result.1.now ≡ (size_read text.now).1 }
{
    match text {
        [] => (Some(Size::Given(0)), text),
        [b'*', rest @ ..] => (Some(Size::Word), rest),
        _ => digits_size(digit_run(text), text),
    }
}

fn digits_size(count: usize, text: &[u8]) -> (Option<Size>, &[u8])
    requires { count ≤ length text.now }
    ensures size { result.0 ≡ (digits_size_at count text.now).0 }
    ensures rest { result.1.now ≡ (digits_size_at count text.now).1 }
{
    (sized(size_of(&text[..count])), &text[count..])
}

fn digit_run(text: &[u8]) -> usize
    ensures value { result ≡ prefix_len is_digit text.now }
    ensures within { result ≤ length text.now }
{
    text.iter().take_while(|byte| is_digit(**byte)).count()
}

fn size_of(digits: &[u8]) -> Option<u64>
    ensures { result ≡ size_written digits.now }
{
    match digits {
        [] => Some(0),
        _ => number_in(Base::Decimal, digits),
    }
}

fn sized(number: Option<u64>) -> Option<Size>
    ensures { result ≡ sized_number number }
{
    match number {
        Some(number) if number < SIZE_LIMIT => Some(Size::Given(number)),
        _ => None,
    }
}

// A precision that a text begins with, if it has one, and the text after it; no precision where it is too great.
pub(crate) fn precision_at(text: &[u8]) -> (Option<Option<Size>>, &[u8])
    ensures precision { result.0 ≡ (precision_read text.now).0 }
    ensures rest { result.1.now ≡ (precision_read text.now).1 }
{
    match text {
        [b'.', after @ ..] => {
            let (size, rest) = size_at(after);
            (size.map(Some), rest)
        }
        _ => (Some(None), text),
    }
}
