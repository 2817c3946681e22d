ghost use Rattle.std.specs.Prelude.{◌≡◌, drop, length};
ghost use Rattle.std.specs.Option.{option_copied};
ghost use Rattle.printf_format.specs.Words.{first, number_of, signed_of, text_of, unsigned_of};

use crate::number::{Number, read_number, with_sign};
use eb_bytes::Bytes;
use std::marker::Model;

// The words that are left for the conversions. Contracts see them as a list of texts.
#[derive(Drop)]
pub(crate) struct Words<'a> {
    left: &'a [Bytes],
}

impl<'a> Model for Words<'a> {
    ghost use Rattle.std.specs.Prelude.{List, ℕ};
    ghost use Rattle.std.specs.Coded.{coded_list, coded_ℕ};

    ghost Value = { List (List ℕ) };

    ghost coded = { coded_list (coded_list coded_ℕ) };

    ghost view = { λ w. w.left.now };
}

impl<'a> Words<'a> {
    pub(crate) fn new(left: &'a [Bytes]) -> Words<'a>
        ensures { result ≡ left.now }
    {
        Words { left }
    }

    pub(crate) fn len(&self) -> usize
        ensures { result ≡ length self.now }
    {
        self.left.len()
    }

    // The text of the next word, empty where none is left.
    pub(crate) fn text(&mut self) -> &'a [u8]
        ensures text { result.now ≡ text_of (first self.old) }
        ensures left { self.new ≡ drop 1 self.old }
    {
        match self.left {
            [] => &[],
            [word, others @ ..] => {
                self.left = others;
                word.as_slice()
            }
        }
    }

    // The number of the next word, 0 where none is left; none where the word is no number.
    fn number(&mut self) -> Option<Number>
        ensures number { result ≡ number_of (first self.old) }
        ensures left { self.new ≡ drop 1 self.old }
    {
        match self.left {
            [] => Some(with_sign(false, 0)),
            [word, others @ ..] => {
                self.left = others;
                read_number(word.as_slice())
            }
        }
    }

    // The same number from -2^63 to 2^63 - 1.
    pub(crate) fn signed(&mut self) -> Option<Number>
        ensures number { result ≡ signed_of (first self.old) }
        ensures left { self.new ≡ drop 1 self.old }
    {
        match self.number() {
            Some(number) => number.as_signed(),
            None => None,
        }
    }

    // The same number from -2^63 to 2^64 - 1, modulo 2^64.
    pub(crate) fn unsigned(&mut self) -> Option<u64>
        ensures number { result ≡ unsigned_of (first self.old) }
        ensures left { self.new ≡ drop 1 self.old }
    {
        match self.number() {
            Some(number) => number.as_unsigned(),
            None => None,
        }
    }
}
