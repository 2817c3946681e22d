ghost use Rattle.std.specs.Prelude.{◌≡◌};
ghost use Rattle.std.specs.Option.{option_map};
ghost use Rattle.arith_syntax.specs.Names.{after_blanks, begins_name, name_at, name_len};

use byte_class::{is_name_byte, is_name_start, is_space};
use std::marker::Model;

/// A name in a text. Contracts see it as its bytes.
#[derive(Debug, Drop)]
pub struct Name<'t> {
    bytes: &'t [u8],
}

impl<'t> Model for Name<'t> {
    ghost use Rattle.std.specs.Prelude.{List, ℕ};
    ghost use Rattle.std.specs.Coded.{coded_list, coded_ℕ};

    ghost Value = { List ℕ };

    ghost coded = { coded_list coded_ℕ };

    ghost view = { λ n. n.bytes.now };
}

impl<'t> Name<'t> {
    /// The name of these bytes.
    pub(crate) fn of(bytes: &'t [u8]) -> Name<'t>
        ensures { result ≡ bytes.now }
    {
        Name { bytes }
    }

    /// The same name.
    pub(crate) fn copy(&self) -> Name<'t>
        ensures { result ≡ self.now }
    {
        Name { bytes: self.bytes }
    }

    /// Its bytes.
    pub fn as_slice(&self) -> &[u8]
        ensures { result.now ≡ self.now }
    {
        self.bytes
    }
}

/// The text from its first byte on that is no blank, tab or newline.
pub(crate) fn after_blanks(text: &[u8]) -> &[u8]
    ensures { result.now ≡ after_blanks text.now }
{
    let count = text.iter().take_while(|byte| is_space(**byte)).count();
    &text[count..]
}

/// Whether the text begins with a name: with an ASCII letter or `_` (Bash Reference Manual, "Definitions").
pub(crate) fn begins_name(text: &[u8]) -> bool
    ensures { result ≡ begins_name text.now }
{
    match text {
        [] => false,
        [first, ..] => is_name_start(*first),
    }
}

/// The name that the text begins with, and what follows it.
pub(crate) fn name_at(text: &[u8]) -> Option<(&[u8], &[u8])>
    ensures { option_map (λ n. (n.0.now, n.1.now)) result ≡ name_at text.now }
{
    if begins_name(text) {
        Some(text.split_at(name_len(text)))
    } else {
        None
    }
}

// How many bytes of names stand at the front of the text.
fn name_len(text: &[u8]) -> usize
    ensures { result ≡ name_len text.now }
{
    text.iter().take_while(|byte| is_name_byte(**byte)).count()
}
