//! Bytes and runs of bytes of a class.

ghost use Rattle.std.specs.Prelude.{◌≡◌, ◌≤◌, length, Ok};
ghost use Rattle.std.specs.List.{prefix_len};
ghost use Rattle.eb_grammar.specs.Peg as peg;
ghost use Rattle.eb_grammar.specs.Classes as classes;
ghost use Rattle.bash_cursor.specs.Reads.{Finds, Reads, Stands};
ghost use Rattle.bash_cursor.specs.Ends.{other_than};

use crate::class::is_in;
use crate::cursor::Cursor;
use crate::error::LexErr;
use eb_grammar::Class;
use memchr::memchr2;

impl<'a> Cursor<'a> {
    /// Goes past these bytes, which are a word of the grammar.
    ///
    /// # Errors
    /// `NoParse` exactly where they do not stand there.
    pub fn literal(&mut self, word: &[u8]) -> Result<(), LexErr>
        ensures { Reads (peg.word_of word.now) self.old result self.new }
    {
        if self.eat(word) {
            Ok(())
        } else {
            Err(LexErr::NoParse)
        }
    }

    /// Goes past a byte of a class. `None` where none stands there.
    #[tactic(auto, unfolding(eb_grammar::specs::Peg::byte_in, eb_grammar::specs::Peg::taken))]
    pub fn byte(&mut self, class: Class) -> Option<u8>
        ensures { Finds (classes.byte class) self.old result self.new }
    {
        match self.peek() {
            Some(byte) if is_in(class, byte) => {
                self.take(1);
                Some(byte)
            }
            _ => None,
        }
    }

    /// Whether a byte of a class stands at the place.
    #[tactic(auto, unfolding(eb_grammar::specs::Peg::byte_in, eb_grammar::specs::Peg::first))]
    pub fn sees_byte(&self, class: Class) -> bool
        ensures { Stands (classes.byte class) self.now result }
    {
        match self.rest() {
            [] => false,
            [byte, ..] => is_in(class, *byte),
        }
    }

    /// Goes past the bytes of a class that stand at the place, and gives them.
    #[tactic(auto, unfolding(eb_grammar::specs::Peg::run_in, eb_grammar::specs::Peg::taken))]
    pub fn run(&mut self, class: Class) -> &'a [u8]
        ensures { Reads (classes.run class) self.old (Ok result.now) self.new }
    {
        let count = run_len(class, self.rest());
        self.take(count)
    }
}

// How many bytes at the front are of a class.
fn run_len(class: Class, text: &[u8]) -> usize
    ensures value { result ≡ prefix_len (classes.is_in class) text.now }
    ensures within { result ≤ length text.now }
{
    match class {
        Class::Single => len_before(b'\'', text),
        Class::NotNewline => len_before(b'\n', text),
        _ => len_of(class, text),
    }
}

// How many bytes at the front are of a class, told byte by byte.
fn len_of(class: Class, text: &[u8]) -> usize
    ensures value { result ≡ prefix_len (classes.is_in class) text.now }
    ensures within { result ≤ length text.now }
{
    text.iter().take_while(|byte| is_in(class, **byte)).count()
}

// How many bytes stand before the first of this value and the first 0.
fn len_before(byte: u8, text: &[u8]) -> usize
    ensures value { result ≡ prefix_len (other_than byte) text.now }
    ensures within { result ≤ length text.now }
{
    memchr2(byte, 0, text).unwrap_or(text.len())
}
