ghost use Rattle.std.specs.Prelude.{◌≡◌};
ghost use Rattle.eb_grammar.specs.Classes as classes;

use byte_class::{is_digit, is_letter, is_name_byte, is_name_start, is_newline, is_nul};
use eb_grammar::Class;

/// Whether a byte is of a class of the grammar.
pub fn is_in(class: Class, byte: u8) -> bool
    ensures { result ≡ classes.is_in class byte }
{
    match class {
        Class::Any => !is_nul(byte),
        Class::NotNewline => !is_nul(byte) && !is_newline(byte),
        Class::Meta => is_meta(byte),
        Class::Digit => is_digit(byte),
        Class::Letter => is_letter(byte),
        Class::NameStart => is_name_start(byte),
        Class::NamePart => is_name_byte(byte),
        Class::Plain => is_plain(byte),
        Class::FunctionName => is_plain(byte) && byte != b'=',
        Class::Single => !matches!(byte, 0 | b'\''),
        Class::Ansi => !matches!(byte, 0 | b'\'' | b'\\'),
        Class::Escaped => matches!(byte, b'$' | b'`' | b'"' | b'\\'),
        Class::Double => !matches!(byte, 0 | b'"' | b'$' | b'`'),
        Class::Back => !matches!(byte, 0 | b'`' | b'\\'),
        Class::Unescaped => matches!(byte, b'$' | b'`' | b'\\'),
        Class::GroupMark => matches!(byte, b'?' | b'*' | b'+' | b'@' | b'!'),
        Class::AfterDollar => {
            matches!(byte, b'(' | b'{') || is_special(byte) || is_name_byte(byte)
        }
        Class::Special => is_special(byte),
        Class::AllElements => matches!(byte, b'@' | b'*'),
        Class::SliceEnd => matches!(byte, b':' | b'}'),
        Class::Slice => !matches!(byte, 0 | b'$' | b'`' | b'"' | b'\\'),
        Class::Arith => !matches!(byte, 0 | b'(' | b')' | b'$' | b'`' | b'\\'),
        Class::Bracket => matches!(byte, b'[' | b']'),
        Class::LineEnd => matches!(byte, b'\n' | b'#'),
    }
}

// A metacharacter.
fn is_meta(byte: u8) -> bool
    ensures { result ≡ classes.is_in Class.Meta byte }
{
    matches!(
        byte,
        b' ' | b'\t' | b'\n' | b';' | b'&' | b'|' | b'(' | b')' | b'<' | b'>'
    )
}

// A special parameter.
fn is_special(byte: u8) -> bool
    ensures { result ≡ classes.is_in Class.Special byte }
{
    matches!(byte, b'@' | b'*' | b'#' | b'?' | b'$' | b'!' | b'-')
}

// A byte of a word that stands for itself.
fn is_plain(byte: u8) -> bool
    ensures { result ≡ classes.is_in Class.Plain byte }
{
    !matches!(byte, 0 | b'$' | b'`' | b'"' | b'\'' | b'\\') && !is_meta(byte)
}
