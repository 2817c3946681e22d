ghost use Rattle.std.specs.Prelude.{◌≡◌, position, not};
ghost use Rattle.std.specs.List.{list_all, prefix_len, take_while};
ghost use Rattle.std.specs.Option.{option_copied};
ghost use Rattle.byte_class.specs.Class.{is_name_byte as is_name_byte_of};
ghost use Rattle.egencache.specs.Plain.{after_while, assigned_line, bare_value, before_blanks as before_blanks_text, closed_value, is_quotable as is_quotable_byte, plain_line, spelled_value};
ghost use Rattle.egencache.specs.Seen.{seen, in_class};

use byte_class::{is_blank, is_letter_or_digit, is_name, is_name_byte};

/// What a line of an ebuild is, as far as it can be told without a shell.
#[derive(Clone, Copy)]
pub enum Line<'a> {
    /// A blank line or a comment.
    Nothing,
    /// `NAME=VALUE`: the name, and the value without its quotes.
    Assigns(&'a [u8], &'a [u8]),
    /// Any other line.
    Other,
}

// The bytes that a part of a plain line is made of.
#[derive(Clone, Copy)]
enum Class {
    /// Blank and tab.
    Blank,
    /// Letters, digits and the underscore.
    NameByte,
    /// Letters, digits and `+_.:/@-`.
    Bare,
    /// All except the double quote, `$`, the backquote, the backslash and byte 0.
    Quotable,
}

impl Class {
    fn has(self, byte: u8) -> bool
        ensures { result ≡ in_class self byte }
    {
        match self {
            Class::Blank => is_blank(byte),
            Class::NameByte => is_name_byte(byte),
            Class::Bare => {
                is_letter_or_digit(byte)
                    || matches!(byte, b'+' | b'_' | b'.' | b':' | b'/' | b'@' | b'-')
            }
            Class::Quotable => !matches!(byte, b'"' | b'$' | b'`' | b'\\' | 0),
        }
    }
}

// The index of the first byte that is not of the class.
fn run_end(class: Class, text: &[u8]) -> Option<usize>
    ensures { result ≡ position (λ byte. not (in_class class byte)) text.now }
{
    text.iter().position(|byte| !class.has(*byte))
}

// How many bytes of the class stand at the front.
fn run_len(class: Class, text: &[u8]) -> usize
    ensures { result ≡ prefix_len (in_class class) text.now }
{
    match run_end(class, text) {
        Some(end) => end,
        None => text.len(),
    }
}

// The longest run of bytes of the class at the front, and what follows it.
fn split_run(class: Class, text: &[u8]) -> (&[u8], &[u8])
    ensures run { result.0.now ≡ take_while (in_class class) text.now }
    ensures rest { result.1.now ≡ after_while (in_class class) text.now }
{
    text.split_at(run_len(class, text))
}

// Whether all the bytes are of the class.
fn is_all(class: Class, text: &[u8]) -> bool
    ensures { result ≡ list_all (in_class class) text.now }
{
    text.iter().all(|byte| class.has(*byte))
}

// The value, bare or in double quotes, that is written so, with blanks and tabs after it.
fn read_value(spelled: &[u8]) -> Option<&[u8]>
    ensures { option_copied result ≡ spelled_value spelled.now }
{
    match spelled {
        [b'"', inner @ ..] => read_quoted(inner),
        _ => read_bare(spelled),
    }
}

fn read_bare(spelled: &[u8]) -> Option<&[u8]>
    ensures { option_copied result ≡ bare_value spelled.now }
{
    let (value, rest) = split_run(Class::Bare, spelled);
    before_blanks(value, rest)
}

// The value that is written so after its opening quote.
fn read_quoted(inner: &[u8]) -> Option<&[u8]>
    ensures { option_copied result ≡ closed_value (take_while is_quotable_byte inner.now) (after_while is_quotable_byte inner.now) }
{
    let (value, rest) = split_run(Class::Quotable, inner);
    match rest {
        [b'"', after @ ..] => before_blanks(value, after),
        _ => None,
    }
}

// The value, where only blanks and tabs follow it.
fn before_blanks<'a>(value: &'a [u8], rest: &[u8]) -> Option<&'a [u8]>
    ensures { option_copied result ≡ before_blanks_text value.now rest.now }
{
    if is_all(Class::Blank, rest) {
        Some(value)
    } else {
        None
    }
}

/// Reads a line of an ebuild, without its newline.
pub fn read_line(line: &[u8]) -> Line<'_>
    ensures { seen result ≡ plain_line line.now }
{
    let (_, body) = split_run(Class::Blank, line);
    match body {
        [] => Line::Nothing,
        [b'#', comment @ ..] => {
            if comment.contains(&0) {
                Line::Other
            } else {
                Line::Nothing
            }
        }
        _ => read_assignment(body),
    }
}

fn read_assignment(body: &[u8]) -> Line<'_>
    ensures { seen result ≡ assigned_line (take_while is_name_byte_of body.now) (after_while is_name_byte_of body.now) }
{
    let (name, rest) = split_run(Class::NameByte, body);
    match rest {
        [b'=', spelled @ ..] if is_name(name) => match read_value(spelled) {
            Some(value) => Line::Assigns(name, value),
            None => Line::Other,
        },
        _ => Line::Other,
    }
}
