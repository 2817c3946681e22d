ghost use Rattle.std.specs.Prelude.{◌≡◌, ◌⊎◌, ◌++◌, ◌↔◌, drop, not, length, IsTrue};
ghost use Rattle.std.specs.List.{find, prefix_len};
ghost use Rattle.std.specs.Option.{option_copied};
ghost use Rattle.byte_class.specs.Class.{is_blank as blank_byte};
ghost use Rattle.eapi_tables.specs.EapiLine.{has_content as content, is_eapi_byte as eapi_byte, opening_line as opening, IsEapiText, IsMatched, IsQuote, IsUnmatched, MatchesEapi};
ghost use Rattle.eapi_tables.specs.TextEapi.{text_eapi};
ghost use Rattle.eapi_tables.specs.EapiValue.{Closes, Finds, IsEnding, IsValueOf};

use byte_class::{is_blank, is_letter_or_digit, is_newline};

/// The EAPI that the text of an ebuild names, as its bytes: by its first line that is neither blank nor a comment, and
/// `0` where that line names none, or an empty one, or where there is no such line. Takes no memory.
///
/// That line is to be blanks and tabs, `EAPI=`, a value of letters, digits and `+_.-`, blanks and tabs, and perhaps a
/// comment after one of them. The value may stand in two `'` or two `"`, and may be no EAPI at all (Package Manager
/// Specification, 7.3.1).
pub fn eapi_line(text: &[u8]) -> &[u8]
    ensures written { IsEapiText text.now result.now }
    ensures read { result.now ≡ text_eapi text.now }
{
    match opening_line(text) {
        Some(line) => line_eapi(line),
        None => b"0",
    }
}

/// The first line that is neither blank nor a comment.
fn opening_line(text: &[u8]) -> Option<&[u8]>
    ensures { option_copied result ≡ opening text.now }
{
    text.split(|b| is_newline(*b))
        .find(|line| has_content(line))
}

/// Whether the line is neither blank nor a comment.
fn has_content(line: &[u8]) -> bool
    ensures { result ≡ content line.now }
{
    match first_content(line) {
        Some(byte) => byte != b'#',
        None => false,
    }
}

/// The first byte that is no blank and no tab.
fn first_content(line: &[u8]) -> Option<u8>
    ensures { result ≡ find (λ b. not (blank_byte b)) line.now }
{
    line.iter().copied().find(|b| !is_blank(*b))
}

/// The EAPI that this line names, or `0`.
fn line_eapi(line: &[u8]) -> &[u8]
    ensures { IsMatched line.now result.now ⊎ IsUnmatched line.now result.now }
{
    match line_group(line) {
        Some(group) if !group.is_empty() => group,
        _ => b"0",
    }
}

/// What the line gives as its EAPI, if it gives one.
fn line_group(line: &[u8]) -> Option<&[u8]>
    ensures { Finds (option_copied result) (MatchesEapi line.now) }
{
    let value = stripped(after_blanks(line), b"EAPI=")?;
    value_group(value)
}

/// The value without its quotes, if all that follows them is blank or a comment.
fn value_group(value: &[u8]) -> Option<&[u8]>
    ensures { Finds (option_copied result) (IsValueOf value.now) }
{
    match value {
        [b'\'', inner @ ..] => closed_group(inner, b"'"),
        [b'"', inner @ ..] => closed_group(inner, b"\""),
        _ => closed_group(value, b""),
    }
}

/// The longest run of an EAPI's bytes, if this quote follows it, and then only what is blank or a comment.
fn closed_group<'a>(text: &'a [u8], quote: &[u8]) -> Option<&'a [u8]>
    requires { IsQuote quote.now }
    ensures { Finds (option_copied result) (Closes quote.now text.now) }
{
    let (group, rest) = text.split_at(eapi_len(text));
    match stripped(rest, quote) {
        Some(ending) if is_ending(ending) => Some(group),
        _ => None,
    }
}

/// Whether the text is blank, or a comment after a blank.
fn is_ending(text: &[u8]) -> bool
    ensures { IsTrue result ↔ IsEnding text.now }
{
    let rest = after_blanks(text);
    match rest {
        [] => true,
        [b'#', ..] => rest.len() < text.len(),
        _ => false,
    }
}

/// The text after this one at its front, if it is there.
fn stripped<'a>(text: &'a [u8], front: &[u8]) -> Option<&'a [u8]>
    ensures { Finds (option_copied result) (λ rest. text.now ≡ front.now ++ rest) }
{
    text.strip_prefix(front)
}

/// The text without the blanks and tabs at its front.
fn after_blanks(text: &[u8]) -> &[u8]
    ensures { result.now ≡ drop (prefix_len blank_byte text.now) text.now }
{
    let count = text.iter().take_while(|b| is_blank(**b)).count();
    &text[count..]
}

/// How many bytes at the front of the text may stand in an EAPI.
fn eapi_len(text: &[u8]) -> usize
    ensures { result ≡ prefix_len eapi_byte text.now }
{
    text.iter().take_while(|b| is_eapi_byte(**b)).count()
}

/// Whether the byte may stand in an EAPI: a letter, a digit, or one of `+_.-`.
fn is_eapi_byte(byte: u8) -> bool
    ensures { result ≡ eapi_byte byte }
{
    is_letter_or_digit(byte) || matches!(byte, b'+' | b'_' | b'.' | b'-')
}
