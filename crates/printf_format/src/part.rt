ghost use Rattle.std.specs.Prelude.{◌≡◌};
ghost use Rattle.printf_format.specs.Conversions.{after_flags as after_flags_of, directive as directive_of, ended as ended_of, escaped as escaped_of, part_of as part_of_text, whole as whole_of};

use crate::conversion::{
    Conversion, Flags, Kind, Size, flag_count, flags_of, kind_of, precision_at, size_at,
};
use crate::escapes::{Meaning, format_escape};

/// A part of a format.
#[doc(hidden)]
#[derive(Clone, Copy)]
pub enum Part {
    /// This byte.
    Byte(u8),
    /// A conversion of a word.
    Field(Conversion),
    /// A `%` that begins no conversion.
    BadUse,
    /// `\u` or `\U`, which are refused.
    Quoting,
    /// The format ends.
    End,
}

// The part that a format begins with, and the format after it.
pub(crate) fn part_of(format: &[u8]) -> (Part, &[u8])
    ensures part { result.0 ≡ (part_of_text format.now).0 }
    ensures rest { result.1.now ≡ (part_of_text format.now).1 }
{
    match format {
        [] => (Part::End, format),
        [b'%', after @ ..] => directive(after),
        [b'\\', after @ ..] => {
            let (meaning, rest) = format_escape(after);
            (escaped(meaning), rest)
        }
        [byte, rest @ ..] => (Part::Byte(*byte), rest),
    }
}

fn escaped(meaning: Meaning) -> Part
    ensures { result ≡ escaped_of meaning }
{
    match meaning {
        Meaning::Byte(byte) => Part::Byte(byte),
        Meaning::Refused => Part::Quoting,
        Meaning::Stop | Meaning::End => Part::End,
    }
}

// A `%` before this text.
fn directive(after: &[u8]) -> (Part, &[u8])
    ensures part { result.0 ≡ (directive_of after.now).0 }
    ensures rest { result.1.now ≡ (directive_of after.now).1 }
{
    match after {
        [] => (Part::BadUse, after),
        [b'%', rest @ ..] => (Part::Byte(b'%'), rest),
        _ => {
            let count = flag_count(after);
            after_flags(flags_of(&after[..count]), &after[count..])
        }
    }
}

fn after_flags(flags: Flags, text: &[u8]) -> (Part, &[u8])
    ensures part { result.0 ≡ (after_flags_of flags text.now).0 }
    ensures rest { result.1.now ≡ (after_flags_of flags text.now).1 }
{
    let (width, text) = size_at(text);
    let (precision, text) = precision_at(text);
    ended(flags, width, precision, text)
}

fn ended(
    flags: Flags,
    width: Option<Size>,
    precision: Option<Option<Size>>,
    text: &[u8],
) -> (Part, &[u8])
    ensures part { result.0 ≡ (ended_of flags width precision text.now).0 }
    ensures rest { result.1.now ≡ (ended_of flags width precision text.now).1 }
{
    match text {
        [] => (Part::BadUse, text),
        [letter, rest @ ..] => (whole(flags, width, precision, kind_of(*letter)), rest),
    }
}

fn whole(
    flags: Flags,
    width: Option<Size>,
    precision: Option<Option<Size>>,
    kind: Option<Kind>,
) -> Part
    ensures { result ≡ whole_of flags width precision kind }
{
    match (width, precision, kind) {
        (Some(width), Some(precision), Some(kind)) => Part::Field(Conversion {
            flags,
            width,
            precision,
            kind,
        }),
        _ => Part::BadUse,
    }
}
