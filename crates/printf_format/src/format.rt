ghost use Rattle.std.specs.Prelude.{◌≡◌, ◌++◌, IfOk, OnOk};
ghost use Rattle.printf_format.specs.Conversions.{parts};
ghost use Rattle.printf_format.specs.Formats.{converted as converted_by, formatted, is_used_again as uses_again, part_used as used_by, used_once};

use crate::conversion::Conversion;
use crate::drawn::Drawn;
use crate::escapes::Ending;
use crate::field::put_field;
use crate::layout::layout_of;
use crate::part::{Part, part_of};
use crate::words::Words;
use eb_bytes::{Bytes, Memory};
use std::alloc::Global;

/// What a format and words make.
#[derive(Drop)]
pub struct Formatted {
    /// The text.
    pub text: Drawn,
    /// What ends it. Where that is a fault, nothing is to be printed.
    pub ending: Ending,
}

/// What `printf` makes of a format and words (Bash Reference Manual, "Bash Builtin Commands", `printf`). Widths and
/// precisions cost no memory until the text is made.
///
/// # Errors
/// `Memory` where there is no room for it.
pub fn format_words(alloc: Global, format: &[u8], words: &[Bytes]) -> Result<Formatted, Memory>
    ensures text { IfOk result (λ f. f.text ≡ (formatted format.now words.now).text) }
    ensures ending { IfOk result (λ f. f.ending ≡ (formatted format.now words.now).ending) }
{
    let mut text = Drawn::new(alloc);
    let mut left = Words::new(words);
    let ending = put_formatted(alloc, format, &mut left, &mut text)?;
    Ok(Formatted { text, ending })
}

// Prints a format with words, and again while words remain of which it took some.
#[tactic(auto, unfolding(crate::specs::Formats::formatted))]
fn put_formatted(
    alloc: Global,
    format: &[u8],
    words: &mut Words<'_>,
    drawn: &mut Drawn,
) -> Result<Ending, Memory>
    ensures text { OnOk result (drawn.new ≡ drawn.old ++ (formatted format.now words.old).text) }
    ensures ending { IfOk result (λ ending. ending ≡ (formatted format.now words.old).ending) }
{
    let most = words.len();
    for _use in 0..most {
        let before = words.len();
        match put_once(alloc, format, words, drawn)? {
            Ending::Through => {}
            ending => return Ok(ending),
        }
        if !is_used_again(before, words) {
            return Ok(Ending::Through);
        }
    }
    put_once(alloc, format, words, drawn)
}

// Whether words remain, fewer than so many.
fn is_used_again(before: usize, words: &Words<'_>) -> bool
    ensures { result ≡ uses_again before words.now }
{
    words.len() > 0 && words.len() < before
}

// Prints one use of a format.
fn put_once(
    alloc: Global,
    format: &[u8],
    words: &mut Words<'_>,
    drawn: &mut Drawn,
) -> Result<Ending, Memory>
    ensures text { OnOk result (drawn.new ≡ drawn.old ++ (used_once (parts format.now) words.old).text) }
    ensures ending { IfOk result (λ ending. ending ≡ (used_once (parts format.now) words.old).ending) }
    ensures left { OnOk result (words.new ≡ (used_once (parts format.now) words.old).rest) }
{
    let mut rest = format;
    for _part in 0..format.len() {
        let (part, after) = part_of(rest);
        match put_part(alloc, &part, words, drawn)? {
            Ending::Through => {}
            ending => return Ok(ending),
        }
        rest = after;
    }
    Ok(Ending::Through)
}

fn put_part(
    alloc: Global,
    part: &Part,
    words: &mut Words<'_>,
    drawn: &mut Drawn,
) -> Result<Ending, Memory>
    ensures text { OnOk result (drawn.new ≡ drawn.old ++ (used_by part.now words.old).text) }
    ensures ending { IfOk result (λ ending. ending ≡ (used_by part.now words.old).ending) }
    ensures left { OnOk result (words.new ≡ (used_by part.now words.old).rest) }
{
    match part {
        Part::Byte(byte) => {
            drawn.put_shown(&[*byte])?;
            Ok(Ending::Through)
        }
        Part::Field(conversion) => put_conversion(alloc, conversion, words, drawn),
        Part::BadUse => Ok(Ending::BadUse),
        Part::Quoting => Ok(Ending::Quoting),
        Part::End => Ok(Ending::Through),
    }
}

fn put_conversion(
    alloc: Global,
    conversion: &Conversion,
    words: &mut Words<'_>,
    drawn: &mut Drawn,
) -> Result<Ending, Memory>
    ensures text { OnOk result (drawn.new ≡ drawn.old ++ (converted_by conversion.now words.old).text) }
    ensures ending { IfOk result (λ ending. ending ≡ (converted_by conversion.now words.old).ending) }
    ensures left { OnOk result (words.new ≡ (converted_by conversion.now words.old).rest) }
{
    match layout_of(conversion, words) {
        None => Ok(Ending::BadUse),
        Some(layout) => put_field(alloc, conversion.kind, &layout, words, drawn),
    }
}
