//! The words that are reserved where a command may begin (Bash Reference Manual, "Reserved Words").

ghost use Rattle.std.specs.Prelude.{◌≡◌};
ghost use Rattle.std.specs.List.{list_any};
ghost use Rattle.eb_grammar.specs.Names as names;
ghost use Rattle.bash_cursor.specs.Reads.{Stands};
ghost use Rattle.bash_cursor.specs.Reserved.{may_end, stands_as_word, text_of};

use crate::class::is_in;
use crate::cursor::Cursor;
use eb_grammar::Class;

/// A reserved word.
#[derive(Clone, Copy, Debug, PartialEq, Eq)]
pub enum Reserved {
    If,
    Then,
    Elif,
    Else,
    Fi,
    For,
    While,
    Until,
    Do,
    Done,
    Case,
    Esac,
    Select,
    Function,
    Coproc,
    Time,
    /// `{`
    OpenBrace,
    /// `}`
    CloseBrace,
    /// `[[`
    OpenBrackets,
    /// `!`
    Not,
}

// All of them.
const RESERVED: [Reserved; 20] = [
    Reserved::If,
    Reserved::Then,
    Reserved::Elif,
    Reserved::Else,
    Reserved::Fi,
    Reserved::For,
    Reserved::While,
    Reserved::Until,
    Reserved::Do,
    Reserved::Done,
    Reserved::Case,
    Reserved::Esac,
    Reserved::Select,
    Reserved::Function,
    Reserved::Coproc,
    Reserved::Time,
    Reserved::OpenBrace,
    Reserved::CloseBrace,
    Reserved::OpenBrackets,
    Reserved::Not,
];

// Those that end a list of commands.
const CLOSERS: [Reserved; 8] = [
    Reserved::CloseBrace,
    Reserved::Then,
    Reserved::Elif,
    Reserved::Else,
    Reserved::Fi,
    Reserved::Do,
    Reserved::Done,
    Reserved::Esac,
];

impl Reserved {
    /// How it is written.
    pub fn text(self) -> &'static [u8]
        ensures { result.now ≡ text_of self }
    {
        match self {
            Reserved::If => b"if",
            Reserved::Then => b"then",
            Reserved::Elif => b"elif",
            Reserved::Else => b"else",
            Reserved::Fi => b"fi",
            Reserved::For => b"for",
            Reserved::While => b"while",
            Reserved::Until => b"until",
            Reserved::Do => b"do",
            Reserved::Done => b"done",
            Reserved::Case => b"case",
            Reserved::Esac => b"esac",
            Reserved::Select => b"select",
            Reserved::Function => b"function",
            Reserved::Coproc => b"coproc",
            Reserved::Time => b"time",
            Reserved::OpenBrace => b"{",
            Reserved::CloseBrace => b"}",
            Reserved::OpenBrackets => b"[[",
            Reserved::Not => b"!",
        }
    }
}

// Whether a word may end before this text.
fn may_end(text: &[u8]) -> bool
    ensures { result ≡ may_end text.now }
{
    match text {
        [] => true,
        [byte, ..] => is_in(Class::Meta, *byte),
    }
}

// Whether a text begins with this word, after which a word may end.
fn stands_as_word(word: &[u8], text: &[u8]) -> bool
    ensures { result ≡ stands_as_word word.now text.now }
{
    text.starts_with(word) && may_end(&text[word.len()..])
}

// Whether one of these words stands at the front of a text.
fn any_stands(words: &[Reserved], text: &[u8]) -> bool
    ensures { result ≡ list_any (λ word. stands_as_word (text_of word) text.now) words.now }
{
    words.iter().any(|word| stands_as_word(word.text(), text))
}

impl<'a> Cursor<'a> {
    /// Whether a reserved word stands at the place.
    pub fn sees_reserved(&self) -> bool
        ensures { Stands names.reserved self.now result }
    {
        any_stands(&RESERVED, self.rest())
    }

    /// Whether a reserved word that ends a list of commands stands at the place.
    pub fn sees_closer(&self) -> bool
        ensures { Stands names.closer self.now result }
    {
        any_stands(&CLOSERS, self.rest())
    }
}
