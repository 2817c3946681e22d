//! Signed decimal numbers of 64 bits: the text of one, and the number that a text writes.
#![tactic(auto)]

ghost use Rattle.std.specs.Prelude.{◌≡◌, IfOk};
ghost use Rattle.std.specs.Fmt.{signed_decimal as signed_text};
ghost use Rattle.signed_numbers.specs.Numbers.{signed_number};

use eb_bytes::{Bytes, Memory};
use itoa::Buffer;
use std::alloc::Global;
use std::str;

/// A signed number's decimal digits, without a leading zero, and `-` before them where it is negative.
///
/// # Errors
/// `Memory` where there is no room for them.
pub fn signed_decimal(alloc: Global, number: i64) -> Result<Bytes, Memory>
    ensures { IfOk result (λ text. text ≡ signed_text number) }
{
    Bytes::from_slice(alloc, Buffer::new().format(number).as_bytes())
}

/// The number that a text writes in decimal digits after `+`, `-` or no sign; leading zeros are allowed. `None` where
/// the text is no such number, or one outside -9223372036854775808 to 9223372036854775807. Takes no memory.
pub fn read_signed(text: &[u8]) -> Option<i64>
    ensures { result ≡ signed_number text.now }
{
    str::from_utf8(text).ok()?.parse::<i64>().ok()
}
