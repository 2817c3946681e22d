ghost use Rattle.std.specs.Prelude.{◌≡◌};
ghost use Rattle.std.specs.Option.{option_map};
ghost use Rattle.printf_format.specs.Words.{laid_out as laid_out_of, layout as layout_said, left_by, left_by_layout, left_by_precision, not_negative as not_negative_of, precision_of, size_of};

use crate::conversion::{Conversion, Size};
use crate::number::{Number, with_sign};
use crate::words::Words;

/// How a field is laid out.
#[doc(hidden)]
#[derive(Clone, Copy)]
pub struct Layout {
    /// Whether blanks come after the text.
    pub left: bool,
    /// Whether zeros stand between the sign and the digits.
    pub zero: bool,
    /// Whether a number that is not negative has a plus.
    pub plus: bool,
    /// How many bytes the field has at least.
    pub width: u64,
    /// How many bytes of a text are printed at most, or how many digits of a number at least.
    pub precision: Option<u64>,
}

// The layout that a conversion and the next words say; none where such a word is no number.
pub(crate) fn layout_of(conversion: &Conversion, words: &mut Words<'_>) -> Option<Layout>
    ensures layout { result ≡ layout_said conversion.now words.old }
    ensures left { words.new ≡ left_by_layout conversion.now words.old }
{
    let width = size(conversion.width, words);
    let precision = precision(conversion.precision, words);
    laid_out(conversion, width, precision)
}

fn size(size: Size, words: &mut Words<'_>) -> Option<Number>
    ensures size { result ≡ size_of size words.old }
    ensures left { words.new ≡ left_by size words.old }
{
    match size {
        Size::Given(number) => Some(with_sign(false, number)),
        Size::Word => words.signed(),
    }
}

fn precision(precision: Option<Size>, words: &mut Words<'_>) -> Option<Option<Number>>
    ensures precision { result ≡ precision_of precision words.old }
    ensures left { words.new ≡ left_by_precision precision words.old }
{
    match precision {
        None => Some(None),
        Some(wanted) => size(wanted, words).map(Some),
    }
}

fn laid_out(
    conversion: &Conversion,
    width: Option<Number>,
    precision: Option<Option<Number>>,
) -> Option<Layout>
    ensures { result ≡ laid_out_of conversion.now width precision }
{
    match (width, precision) {
        (Some(width), Some(precision)) => Some(Layout {
            left: conversion.flags.left || width.negative,
            zero: conversion.flags.zero,
            plus: conversion.flags.plus,
            width: width.magnitude,
            precision: not_negative(precision),
        }),
        _ => None,
    }
}

fn not_negative(precision: Option<Number>) -> Option<u64>
    ensures { result ≡ not_negative_of precision }
{
    match precision {
        Some(number) if !number.negative => Some(number.magnitude),
        _ => None,
    }
}
