ghost use Rattle.std.specs.Prelude.{◌≡◌, IfOk};
ghost use Rattle.printf_format.specs.Fields.{numeral as numeral_of};

use eb_bytes::{Bytes, Memory, decimal};
use std::alloc::Global;

/// How a number is written in digits.
#[doc(hidden)]
#[derive(Clone, Copy)]
pub enum Numeral {
    Decimal,
    Octal,
    Hexadecimal,
    UpperHexadecimal,
}

// A number in digits.
pub(crate) fn digits_text(alloc: Global, digits: Numeral, number: u64) -> Result<Bytes, Memory>
    ensures { IfOk result (λ text. text ≡ numeral_of digits number) }
{
    match digits {
        Numeral::Decimal => decimal(alloc, number),
        Numeral::Octal => {
            let text = format!(in alloc; "{number:o}")?;
            Bytes::from_slice(alloc, text.as_bytes())
        }
        Numeral::Hexadecimal => {
            let text = format!(in alloc; "{number:x}")?;
            Bytes::from_slice(alloc, text.as_bytes())
        }
        Numeral::UpperHexadecimal => {
            let text = format!(in alloc; "{number:X}")?;
            Bytes::from_slice(alloc, text.as_bytes())
        }
    }
}
