ghost use Rattle.std.specs.Prelude.{◌≡◌, ◌++◌, drop, IfOk, OnOk};
ghost use Rattle.printf_format.specs.Escapes.{spelled};
ghost use Rattle.printf_format.specs.Words.{first};
ghost use Rattle.printf_format.specs.Fields.{beside, byte_field, cut as cut_at, digits_field, digits_of as digits_shown, field_of, first_byte as first_byte_of, padded, shown, sign_of as sign_shown, signed, signed_field, text_field, unsigned, unsigned_field, with_zeros};

use crate::conversion::Kind;
use crate::drawn::Drawn;
use crate::escapes::{Ending, spell};
use crate::layout::Layout;
use crate::number::Number;
use crate::numeral::{Numeral, digits_text};
use crate::words::Words;
use eb_bytes::Memory;
use std::alloc::Global;

// Prints the field of a conversion, which takes the next word.
pub(crate) fn put_field(
    alloc: Global,
    kind: Kind,
    layout: &Layout,
    words: &mut Words<'_>,
    drawn: &mut Drawn,
) -> Result<Ending, Memory>
    ensures text { OnOk result (drawn.new ≡ drawn.old ++ (field_of kind layout.now (first words.old)).text) }
    ensures ending { IfOk result (λ ending. ending ≡ (field_of kind layout.now (first words.old)).ending) }
    ensures left { OnOk result (words.new ≡ drop 1 words.old) }
{
    match kind {
        Kind::Text => put_text(alloc, layout, words.text(), drawn),
        Kind::Escaped => put_escaped(alloc, layout, words.text(), drawn),
        Kind::Byte => put_byte(alloc, layout, words.text(), drawn),
        Kind::Signed => put_signed(alloc, layout, words.signed(), drawn),
        Kind::Unsigned => put_unsigned(alloc, layout, Numeral::Decimal, words.unsigned(), drawn),
        Kind::Octal => put_unsigned(alloc, layout, Numeral::Octal, words.unsigned(), drawn),
        Kind::Hexadecimal => put_unsigned(
            alloc,
            layout,
            Numeral::Hexadecimal,
            words.unsigned(),
            drawn,
        ),
        Kind::UpperHexadecimal => put_unsigned(
            alloc,
            layout,
            Numeral::UpperHexadecimal,
            words.unsigned(),
            drawn,
        ),
    }
}

fn put_text(
    alloc: Global,
    layout: &Layout,
    text: &[u8],
    drawn: &mut Drawn,
) -> Result<Ending, Memory>
    ensures text { OnOk result (drawn.new ≡ drawn.old ++ text_field layout.now text.now) }
    ensures ending { IfOk result (λ ending. ending ≡ Ending.Through) }
{
    let shown = cut(layout.precision, text);
    put_beside(alloc, layout, shown.len() as u64, shown, drawn)?;
    Ok(Ending::Through)
}

fn put_escaped(
    alloc: Global,
    layout: &Layout,
    text: &[u8],
    drawn: &mut Drawn,
) -> Result<Ending, Memory>
    ensures text { OnOk result (drawn.new ≡ drawn.old ++ text_field layout.now (spelled text.now).text) }
    ensures ending { IfOk result (λ ending. ending ≡ (spelled text.now).ending) }
{
    let spelling = spell(alloc, text)?;
    put_text(alloc, layout, spelling.text.as_slice(), drawn)?;
    Ok(spelling.ending)
}

fn put_byte(
    alloc: Global,
    layout: &Layout,
    text: &[u8],
    drawn: &mut Drawn,
) -> Result<Ending, Memory>
    ensures text { OnOk result (drawn.new ≡ drawn.old ++ byte_field layout.now text.now) }
    ensures ending { IfOk result (λ ending. ending ≡ Ending.Through) }
{
    put_beside(alloc, layout, 1, first_byte(text), drawn)?;
    Ok(Ending::Through)
}

// The first byte of a word, or the byte 0.
fn first_byte(text: &[u8]) -> &[u8]
    ensures { result.now ≡ first_byte_of text.now }
{
    match text {
        [] => &[0],
        _ => &text[..1],
    }
}

// A text up to a precision.
#[tactic(auto, using(std::proofs::lemmas::List::take_min))]
fn cut(precision: Option<u64>, text: &[u8]) -> &[u8]
    ensures { result.now ≡ cut_at precision text.now }
{
    match precision {
        None => text,
        Some(most) => {
            let count = most.min(text.len() as u64);
            &text[..count as usize]
        }
    }
}

// Puts a text that counts for so many bytes, with blanks up to the width on one side.
#[tactic(auto, using(crate::proofs::Appended::in_two))]
fn put_beside(
    alloc: Global,
    layout: &Layout,
    count: u64,
    text: &[u8],
    drawn: &mut Drawn,
) -> Result<(), Memory>
    ensures { OnOk result (drawn.new ≡ drawn.old ++ beside layout.now count (shown text.now)) }
{
    let blanks = layout.width.saturating_sub(count);
    if layout.left {
        drawn.put_shown(text)?;
        drawn.fill(alloc, b' ', blanks)
    } else {
        drawn.fill(alloc, b' ', blanks)?;
        drawn.put_shown(text)
    }
}

fn put_signed(
    alloc: Global,
    layout: &Layout,
    number: Option<Number>,
    drawn: &mut Drawn,
) -> Result<Ending, Memory>
    ensures text { OnOk result (drawn.new ≡ drawn.old ++ (signed layout.now number).text) }
    ensures ending { IfOk result (λ ending. ending ≡ (signed layout.now number).ending) }
{
    match number {
        None => Ok(Ending::BadUse),
        Some(number) => {
            put_signed_number(alloc, layout, number, drawn)?;
            Ok(Ending::Through)
        }
    }
}

fn put_signed_number(
    alloc: Global,
    layout: &Layout,
    number: Number,
    drawn: &mut Drawn,
) -> Result<(), Memory>
    ensures { OnOk result (drawn.new ≡ drawn.old ++ signed_field layout.now number) }
{
    let digits = digits_text(alloc, Numeral::Decimal, number.magnitude)?;
    let shown = digits_of(layout.precision, number.magnitude, digits.as_slice());
    put_digits(
        alloc,
        layout,
        sign_of(layout, number.negative),
        shown,
        drawn,
    )
}

fn put_unsigned(
    alloc: Global,
    layout: &Layout,
    numeral: Numeral,
    number: Option<u64>,
    drawn: &mut Drawn,
) -> Result<Ending, Memory>
    ensures text { OnOk result (drawn.new ≡ drawn.old ++ (unsigned layout.now numeral number).text) }
    ensures ending { IfOk result (λ ending. ending ≡ (unsigned layout.now numeral number).ending) }
{
    match number {
        None => Ok(Ending::BadUse),
        Some(number) => {
            put_unsigned_number(alloc, layout, numeral, number, drawn)?;
            Ok(Ending::Through)
        }
    }
}

fn put_unsigned_number(
    alloc: Global,
    layout: &Layout,
    numeral: Numeral,
    number: u64,
    drawn: &mut Drawn,
) -> Result<(), Memory>
    ensures { OnOk result (drawn.new ≡ drawn.old ++ unsigned_field layout.now numeral number) }
{
    let digits = digits_text(alloc, numeral, number)?;
    let shown = digits_of(layout.precision, number, digits.as_slice());
    put_digits(alloc, layout, b"", shown, drawn)
}

// The digits of a number: with the precision 0 a number 0 has none.
fn digits_of(precision: Option<u64>, number: u64, digits: &[u8]) -> &[u8]
    ensures { result.now ≡ digits_shown precision number digits.now }
{
    if number == 0 && precision.unwrap_or(1) == 0 {
        b""
    } else {
        digits
    }
}

fn sign_of(layout: &Layout, negative: bool) -> &'static [u8]
    ensures { result.now ≡ sign_shown layout.now negative }
{
    if negative {
        b"-"
    } else if layout.plus {
        b"+"
    } else {
        b""
    }
}

// Puts a sign and digits, at least as many as the precision says.
fn put_digits(
    alloc: Global,
    layout: &Layout,
    sign: &[u8],
    digits: &[u8],
    drawn: &mut Drawn,
) -> Result<(), Memory>
    ensures { OnOk result (drawn.new ≡ drawn.old ++ digits_field layout.now sign.now digits.now) }
{
    let length = digits.len() as u64;
    let precise = layout.precision.unwrap_or(0).saturating_sub(length);
    let without_sign = layout.width.saturating_sub(sign.len() as u64);
    let left = without_sign.saturating_sub(precise).saturating_sub(length);
    put_padded(alloc, layout, sign, precise, digits, left, drawn)
}

// Puts a sign and digits with so many zeros between, where so many bytes of the width are left.
#[tactic(auto, using(crate::proofs::Appended::in_two))]
fn put_padded(
    alloc: Global,
    layout: &Layout,
    sign: &[u8],
    precise: u64,
    digits: &[u8],
    left: u64,
    drawn: &mut Drawn,
) -> Result<(), Memory>
    ensures { OnOk result (drawn.new ≡ drawn.old ++ padded layout.now sign.now precise digits.now left) }
{
    if layout.left {
        put_with_zeros(alloc, sign, precise, digits, drawn)?;
        drawn.fill(alloc, b' ', left)
    } else if layout.zero && layout.precision.is_none() {
        put_with_zeros(alloc, sign, left, digits, drawn)
    } else {
        drawn.fill(alloc, b' ', left)?;
        put_with_zeros(alloc, sign, precise, digits, drawn)
    }
}

// Puts digits with so many zeros before them.
#[tactic(auto, using(crate::proofs::Appended::in_three))]
fn put_with_zeros(
    alloc: Global,
    sign: &[u8],
    count: u64,
    digits: &[u8],
    drawn: &mut Drawn,
) -> Result<(), Memory>
    ensures { OnOk result (drawn.new ≡ drawn.old ++ with_zeros sign.now count digits.now) }
{
    drawn.put(sign)?;
    drawn.fill(alloc, b'0', count)?;
    drawn.put(digits)
}
