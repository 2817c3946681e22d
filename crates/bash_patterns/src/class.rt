ghost use Rattle.std.specs.Prelude.{◌≡◌, length};
ghost use Rattle.std.specs.declared.cmp.Ordering.TheVariants.{Equal};
ghost use Rattle.bash_patterns.specs.Bracketed.{all_classes, begins_unquoted, class_among, class_text};
ghost use Rattle.bash_patterns.specs.Brackets.{in_class};

use crate::symbol::Symbol;
use byte_class::{is_blank, is_digit, is_letter, is_letter_or_digit, is_lower, is_upper};
use std::cmp::Ordering;

/// The character classes of POSIX, in ASCII.
#[derive(Clone, Copy, PartialEq)]
pub enum Class {
    Alnum,
    Alpha,
    Blank,
    Cntrl,
    Digit,
    Graph,
    Lower,
    Print,
    Punct,
    Space,
    Upper,
    Xdigit,
}

impl Class {
    const ALL: [Class; 12] = [
        Class::Alnum,
        Class::Alpha,
        Class::Blank,
        Class::Cntrl,
        Class::Digit,
        Class::Graph,
        Class::Lower,
        Class::Print,
        Class::Punct,
        Class::Space,
        Class::Upper,
        Class::Xdigit,
    ];

    // How the class is written after its opening bracket.
    fn text(self) -> &'static [u8]
        ensures { result.now ≡ class_text self }
    {
        match self {
            Class::Alnum => b":alnum:]",
            Class::Alpha => b":alpha:]",
            Class::Blank => b":blank:]",
            Class::Cntrl => b":cntrl:]",
            Class::Digit => b":digit:]",
            Class::Graph => b":graph:]",
            Class::Lower => b":lower:]",
            Class::Print => b":print:]",
            Class::Punct => b":punct:]",
            Class::Space => b":space:]",
            Class::Upper => b":upper:]",
            Class::Xdigit => b":xdigit:]",
        }
    }

    /// The order of classes, by their names. Which comes first counts for nothing.
    pub fn compare(self, other: Class) -> Ordering
        ensures { result ≡ Equal → self ≡ other }
    {
        if self == other {
            return Ordering::Equal;
        }
        match self.text().cmp(other.text()) {
            Ordering::Less => Ordering::Less,
            _ => Ordering::Greater,
        }
    }

    /// The class that these symbols begin with, which stand after an opening bracket.
    pub fn at(symbols: &[Symbol]) -> Option<Class>
        ensures { result ≡ class_among all_classes symbols.now }
    {
        class_among(&Class::ALL, symbols)
    }

    /// How many symbols stand after the opening bracket of the class.
    pub fn len(self) -> usize
        ensures { result ≡ length (class_text self) }
    {
        self.text().len()
    }

    /// Whether the byte is in the class.
    pub fn has(self, byte: u8) -> bool
        ensures { result ≡ in_class self byte }
    {
        match self {
            Class::Alnum => is_letter_or_digit(byte),
            Class::Alpha => is_letter(byte),
            Class::Blank => is_blank(byte),
            Class::Cntrl => matches!(byte, 0..=31 | 127),
            Class::Digit => is_digit(byte),
            Class::Graph => matches!(byte, 33..=126),
            Class::Lower => is_lower(byte),
            Class::Print => matches!(byte, 32..=126),
            Class::Punct => matches!(byte, 33..=126) && !is_letter_or_digit(byte),
            Class::Space => matches!(byte, 9..=13 | 32),
            Class::Upper => is_upper(byte),
            Class::Xdigit => is_digit(byte) || matches!(byte, b'A'..=b'F' | b'a'..=b'f'),
        }
    }
}

// The first of these classes that the symbols begin with.
fn class_among(classes: &[Class], symbols: &[Symbol]) -> Option<Class>
    ensures { result ≡ class_among classes.now symbols.now }
{
    for class in classes {
        if begins_unquoted(class.text(), symbols) {
            return Some(*class);
        }
    }
    None
}

// Whether the symbols begin with these bytes, none of them quoted.
fn begins_unquoted(text: &[u8], symbols: &[Symbol]) -> bool
    ensures { result ≡ begins_unquoted text.now symbols.now }
{
    match text {
        [] => true,
        [byte, text @ ..] => match symbols {
            [Symbol::Unquoted(own), symbols @ ..] => *own == *byte
                && begins_unquoted(text, symbols),
            _ => false,
        },
    }
}
