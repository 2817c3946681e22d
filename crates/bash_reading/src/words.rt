//! Reserved words, and bytes that may stand or not.

ghost use Rattle.std.specs.Prelude.{Ok};
ghost use Rattle.bash_cursor.specs.Reads.{Reads};
ghost use Rattle.eb_grammar.specs.Names as names;
ghost use Rattle.eb_grammar.specs.Peg.{stands, word_of};

use bash_cursor::{Cursor, LexErr};

/// Goes past a reserved word.
///
/// # Errors
/// `NoParse` exactly where it does not stand at the place as a word of its own.
pub fn reserved_word(c: &mut Cursor<'_>, word: &[u8]) -> Result<(), LexErr>
    ensures { Reads (names.keyword word.now) c.old result c.new }
{
    if c.keyword(word) {
        Ok(())
    } else {
        Err(LexErr::NoParse)
    }
}

/// Goes past these bytes where they stand at the place, and says whether they do.
pub fn may_eat(c: &mut Cursor<'_>, word: &[u8]) -> bool
    ensures { Reads (stands (word_of word.now)) c.old (Ok result) c.new }
{
    c.eat(word)
}
