//! What stands between words, and the words that are known by themselves.

ghost use Rattle.std.specs.Prelude.{◌≡◌, ◌∷◌, MatchResult};
ghost use Rattle.eb_grammar.specs.Names as names;
ghost use Rattle.bash_cursor.specs.Reads.{Eats, Finds, Reads, Skips, Stands, passed};

use crate::class::is_in;
use crate::cursor::Cursor;
use crate::error::LexErr;
use eb_bytes::Bytes;
use eb_grammar::Class;
use eb_syntax::Blank;
use std::alloc::Global;

impl<'a> Cursor<'a> {
    /// Goes past a blank, a tab, or a backslash and a newline (Bash Reference Manual, "Definitions": blank; "Escape
    /// Character"). `None` where none stands there.
    #[tactic(auto, unfolding(eb_grammar::specs::Names::blank))]
    pub fn blank(&mut self) -> Option<Blank>
        ensures { Finds names.blank self.old result self.new }
    {
        if self.eat(b" ") {
            return Some(Blank::Space);
        }
        if self.eat(b"\t") {
            return Some(Blank::Tab);
        }
        if self.eat(b"\\\n") {
            return Some(Blank::Continuation);
        }
        None
    }

    /// Goes past all blanks, tabs and continuations of the line.
    #[tactic(auto, unfolding(eb_grammar::specs::Names::blanks))]
    pub fn blanks(&mut self)
        ensures { Skips names.blanks self.old self.new }
    {
        for _turn in 0..self.left() {
            match self.blank() {
                Some(_) => {}
                None => return,
            }
        }
    }

    /// Goes past a comment, which ends before the next newline, and says whether one stands there (Bash Reference
    /// Manual, "Comments").
    #[tactic(auto, unfolding(eb_grammar::specs::Names::comment))]
    pub fn comment(&mut self) -> bool
        ensures { Eats (passed names.comment) self.old result self.new }
    {
        if !self.eat(b"#") {
            return false;
        }
        self.run(Class::NotNewline);
        true
    }

    /// Whether a word may end at the place: before a metacharacter, or at the text's end (Bash Reference Manual,
    /// "Definitions": metacharacter).
    #[tactic(auto, unfolding(eb_grammar::specs::Names::word_end, eb_grammar::specs::Peg::byte_in, eb_grammar::specs::Peg::end, eb_grammar::specs::Peg::first))]
    pub fn ends_word(&self) -> bool
        ensures { Stands names.word_end self.now result }
    {
        match self.rest() {
            [] => true,
            [byte, ..] => is_in(Class::Meta, *byte),
        }
    }

    /// Goes past a reserved word, and says whether it stands there as a word of its own (Bash Reference Manual,
    /// "Reserved Words").
    #[tactic(auto, unfolding(eb_grammar::specs::Names::keyword))]
    pub fn keyword(&mut self, word: &[u8]) -> bool
        ensures { Eats (names.keyword word.now) self.old result self.new }
    {
        let start = self.here();
        if !self.eat(word) {
            return false;
        }
        if !self.ends_word() {
            self.back_to(start);
            return false;
        }
        true
    }
}

// A byte and those after it.
fn joined(alloc: Global, first: u8, others: &[u8]) -> Result<Bytes, LexErr>
    ensures { MatchResult result (λ bytes. bytes ≡ first ∷ others.now) (λ e. e ≡ LexErr.Memory) }
{
    let mut bytes = Bytes::new(alloc);
    bytes.push(first)?;
    bytes.extend(others)?;
    Ok(bytes)
}

/// A name: a letter or `_`, and the letters, digits and `_` after it (Bash Reference Manual, "Definitions").
///
/// # Errors
/// `NoParse` exactly where none begins at the place, `Memory` where there is no room for it.
#[tactic(auto, unfolding(eb_grammar::specs::Names::name))]
pub fn name(c: &mut Cursor<'_>) -> Result<Bytes, LexErr>
    ensures { Reads names.name c.old result c.new }
{
    let start = c.here();
    let Some(first) = c.byte(Class::NameStart) else {
        return Err(LexErr::NoParse);
    };
    let others = c.run(Class::NamePart);
    Ok(or_back!(c, start, joined(c.alloc(), first, others)))
}

/// The name of a function: no reserved word, and bytes that stand for themselves, without `=` (Bash Reference Manual,
/// "Shell Functions").
///
/// # Errors
/// `NoParse` exactly where none begins at the place, `Memory` where there is no room for it.
#[tactic(auto, unfolding(eb_grammar::specs::Names::function_name))]
pub fn function_name(c: &mut Cursor<'_>) -> Result<Bytes, LexErr>
    ensures { Reads names.function_name c.old result c.new }
{
    if c.sees_reserved() {
        return Err(LexErr::NoParse);
    }
    let start = c.here();
    let Some(first) = c.byte(Class::FunctionName) else {
        return Err(LexErr::NoParse);
    };
    let others = c.run(Class::FunctionName);
    Ok(or_back!(c, start, joined(c.alloc(), first, others)))
}

/// Digits, at least one.
///
/// # Errors
/// `NoParse` exactly where none stands at the place, `Memory` where there is no room for them.
#[tactic(auto, unfolding(eb_grammar::specs::Names::digits))]
pub fn digits(c: &mut Cursor<'_>) -> Result<Bytes, LexErr>
    ensures { Reads names.digits c.old result c.new }
{
    let start = c.here();
    let Some(first) = c.byte(Class::Digit) else {
        return Err(LexErr::NoParse);
    };
    let others = c.run(Class::Digit);
    Ok(or_back!(c, start, joined(c.alloc(), first, others)))
}

/// Goes past a dollar that begins nothing, and says whether one stands at the place.
#[tactic(auto, unfolding(eb_grammar::specs::Names::lone))]
pub fn lone(c: &mut Cursor<'_>) -> bool
    ensures { Eats names.lone c.old result c.new }
{
    let start = c.here();
    if !c.eat(b"$") {
        return false;
    }
    if c.sees_byte(Class::AfterDollar) {
        c.back_to(start);
        return false;
    }
    true
}
