ghost use Rattle.std.specs.Prelude.{◌≡◌};
ghost use Rattle.printf_format.specs.Words.{after_zero as after_zero_of, as_signed as signed_in, as_unsigned as unsigned_in, magnitude as magnitude_of, number as number_written, with_sign as signed_as};

use crate::digits::{Base, number_in};

/// A number and its sign; no number is both 0 and negative.
#[doc(hidden)]
#[derive(Clone, Copy)]
pub struct Number {
    pub negative: bool,
    pub magnitude: u64,
}

// The magnitude of the least number of 64 bits.
const LEAST: u64 = 0x8000_0000_0000_0000;

// A magnitude after a minus or not.
pub(crate) fn with_sign(minus: bool, magnitude: u64) -> Number
    ensures { result ≡ signed_as minus magnitude }
{
    Number {
        negative: minus && magnitude > 0,
        magnitude,
    }
}

// The number that a word writes: a sign or none, and a decimal, octal or hexadecimal number.
pub(crate) fn read_number(text: &[u8]) -> Option<Number>
    ensures { result ≡ number_written text.now }
{
    match text {
        [b'-', digits @ ..] => Some(with_sign(true, magnitude(digits)?)),
        [b'+', digits @ ..] => Some(with_sign(false, magnitude(digits)?)),
        _ => Some(with_sign(false, magnitude(text)?)),
    }
}

fn magnitude(text: &[u8]) -> Option<u64>
    ensures { result ≡ magnitude_of text.now }
{
    match text {
        [] => None,
        [b'0', after @ ..] => after_zero(after),
        _ => number_in(Base::Decimal, text),
    }
}

fn after_zero(text: &[u8]) -> Option<u64>
    ensures { result ≡ after_zero_of text.now }
{
    match text {
        [] => Some(0),
        [b'x' | b'X', digits @ ..] => number_in(Base::Hexadecimal, digits),
        _ => number_in(Base::Octal, text),
    }
}

impl Number {
    // The number, where it is from -2^63 to 2^63 - 1.
    pub(crate) fn as_signed(self) -> Option<Number>
        ensures { result ≡ signed_in self }
    {
        let fits = if self.negative {
            self.magnitude <= LEAST
        } else {
            self.magnitude < LEAST
        };
        fits.then_some(self)
    }

    // The number modulo 2^64, where it is from -2^63 to 2^64 - 1.
    pub(crate) fn as_unsigned(self) -> Option<u64>
        ensures { result ≡ unsigned_in self }
    {
        if !self.negative {
            Some(self.magnitude)
        } else if self.magnitude <= LEAST {
            Some((u64::MAX - self.magnitude).wrapping_add(1))
        } else {
            None
        }
    }
}
