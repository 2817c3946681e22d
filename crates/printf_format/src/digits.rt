ghost use Rattle.std.specs.Prelude.{◌≡◌, ◌≤◌, ◌<◌, ◌+◌, ◌*◌, ◌^◌, length, SomeIff};
ghost use Rattle.std.specs.List.{list_all, prefix_len};
ghost use Rattle.printf_format.specs.Digits.{below, digit_count as digit_count_of, digit_value, is_digit_of, number_in, radix, value_from};

use byte_class::is_digit;

/// What digits count in.
#[doc(hidden)]
#[derive(Clone, Copy)]
pub enum Base {
    Octal,
    Decimal,
    Hexadecimal,
}

impl Base {
    fn radix(self) -> u64
        ensures { result ≡ radix self }
    {
        match self {
            Base::Octal => 8,
            Base::Decimal => 10,
            Base::Hexadecimal => 16,
        }
    }

    fn has(self, byte: u8) -> bool
        ensures { result ≡ is_digit_of self byte }
    {
        match self {
            Base::Octal => matches!(byte, b'0'..=b'7'),
            Base::Decimal => is_digit(byte),
            Base::Hexadecimal => is_digit(byte) || matches!(byte, b'A'..=b'F' | b'a'..=b'f'),
        }
    }
}

// What a digit counts.
fn digit_value(byte: u8) -> u8
    ensures { result ≡ digit_value byte }
{
    if is_digit(byte) {
        byte - b'0'
    } else if byte >= b'a' {
        byte - b'a' + 10
    } else {
        byte.saturating_sub(b'A' - 10)
    }
}

// The number that a text writes in digits of the base, at least one and nothing else; `None` where it writes none, or
// one that 64 bits do not hold.
pub(crate) fn number_in(base: Base, text: &[u8]) -> Option<u64>
    ensures { result ≡ number_in base text.now }
{
    if !text.is_empty() && are_digits(base, text) {
        value(base.radix(), text)
    } else {
        None
    }
}

fn are_digits(base: Base, text: &[u8]) -> bool
    ensures { result ≡ list_all (is_digit_of base) text.now }
{
    text.iter().all(|byte| base.has(*byte))
}

// What digits count, where 64 bits hold it.
fn value(radix: u64, digits: &[u8]) -> Option<u64>
    requires { 1 ≤ radix }
    ensures { result ≡ below (2 ^ 64) (value_from radix 0 digits.now) }
{
    let mut value = 0u64;
    for digit in digits {
        match next(value, radix, digit_value(*digit)) {
            Some(more) => value = more,
            None => return None,
        }
    }
    Some(value)
}

// With one digit more.
#[tactic(auto, using(crate::proofs::Values::over))]
fn next(value: u64, radix: u64, digit: u8) -> Option<u64>
    ensures { SomeIff result (value * radix + digit < 2 ^ 64) (value * radix + digit) }
{
    match value.checked_mul(radix) {
        Some(product) => product.checked_add(u64::from(digit)),
        None => None,
    }
}

// How many digits a text begins with, of at most so many.
pub(crate) fn digit_count(base: Base, most: usize, text: &[u8]) -> usize
    ensures value { result ≡ digit_count_of base most text.now }
    ensures within { result ≤ length text.now }
{
    count(base, &text[..most.min(text.len())])
}

fn count(base: Base, text: &[u8]) -> usize
    ensures value { result ≡ prefix_len (is_digit_of base) text.now }
    ensures within { result ≤ length text.now }
{
    text.iter().take_while(|byte| base.has(**byte)).count()
}
