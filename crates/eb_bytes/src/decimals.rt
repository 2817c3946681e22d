ghost use Rattle.std.specs.Prelude.{◌≡◌, ◌<◌, ◌^◌, ℕ, decimal as decimal_text, IfOk, IfSome, IfNone};

use crate::bytes::{Bytes, Memory};
use itoa::Buffer;
use std::alloc::Global;
use std::str;

/// A number's decimal digits, without a leading zero.
///
/// # Errors
/// `Memory` where there is no room for them.
pub fn decimal(alloc: Global, number: u64) -> Result<Bytes, Memory>
    ensures { IfOk result (λ text. text ≡ decimal_text number) }
{
    Bytes::from_slice(alloc, Buffer::new().format(number).as_bytes())
}

/// The number that a text writes in decimal digits without a leading zero; `0` itself is one. `None` where the text is
/// no such number, or one above 18446744073709551615. Takes no memory.
pub fn read_decimal(text: &[u8]) -> Option<u64>
    ensures some { IfSome result (λ number. text.now ≡ decimal_text number) }
    ensures none { IfNone result ((number : ℕ) → number < 2 ^ 64 → text.now ≡ decimal_text number → ⊥) }
{
    let number = str::from_utf8(text).ok()?.parse::<u64>().ok()?;
    let mut buffer = Buffer::new();
    if buffer.format(number).as_bytes() == text {
        Some(number)
    } else {
        None
    }
}
