//! The conditions that hold no other: a word, a word with an operator, two words with one between them.

ghost use Rattle.std.specs.Prelude.{◌+◌};
ghost use Rattle.bash_cursor.specs.Reads.{Reads, ReadsBelow};
ghost use Rattle.bash_reading.specs.At.{regex_at, word_at};
ghost use Rattle.bash_reading.specs.Marks.{mapped};
ghost use Rattle.eb_grammar.specs.Conditions as conditions;
ghost use Rattle.eb_grammar.specs.Conditions.{Matches, Compared};
ghost use Rattle.eb_grammar.specs.Grammar.{inside};

use crate::operators::{binary_op, sees_binary_op, unary_op};
use bash_cursor::{Cursor, LexErr, or_back};
use bash_reading::{attempt_or_back, must, some_blanks};
use eb_syntax::{BinOp, Primary, Regex, Word};

// A word that does not end the condition.
#[tactic(auto, unfolding(eb_grammar::specs::Conditions::condition_word))]
fn condition_word<W: Fn(&mut Cursor<'_>) -> Result<Word, LexErr>>(
    c: &mut Cursor<'_>,
    word: &W,
) -> Result<Word, LexErr>
    requires { ReadsBelow word_at (c.old.room + 1) (W.pre word.now) (W.post word.now) }
    ensures { Reads (conditions.condition_word (inside c.old.room)) c.old result c.new }
{
    let start = c.here();
    if c.keyword(b"]]") {
        c.back_to(start);
        return Err(LexErr::NoParse);
    }
    word(c)
}

// `-` and a letter, and the word that it is about.
#[tactic(auto, unfolding(eb_grammar::specs::Conditions::unary_test))]
pub fn unary_test<W: Fn(&mut Cursor<'_>) -> Result<Word, LexErr>>(
    c: &mut Cursor<'_>,
    word: &W,
) -> Result<Primary, LexErr>
    requires { ReadsBelow word_at (c.old.room + 1) (W.pre word.now) (W.post word.now) }
    ensures { Reads (conditions.unary_test (inside c.old.room)) c.old result c.new }
{
    let start = c.here();
    let Some(which) = unary_op(c) else {
        return Err(LexErr::NoParse);
    };
    if !some_blanks(c) || sees_binary_op(c) {
        c.back_to(start);
        return Err(LexErr::NoParse);
    }
    let operand = or_back!(c, start, condition_word(c, word));
    Ok(Primary::Unary(which, operand))
}

// Blanks, `=~`, blanks, and the regular expression.
#[tactic(auto, unfolding(eb_grammar::specs::Conditions::matches))]
fn matches<R: Fn(&mut Cursor<'_>) -> Result<Regex, LexErr>>(
    c: &mut Cursor<'_>,
    regex: &R,
) -> Result<Regex, LexErr>
    requires { ReadsBelow regex_at (c.old.room + 1) (R.pre regex.now) (R.post regex.now) }
    ensures { Reads (conditions.matches (inside c.old.room)) c.old (mapped Matches result) c.new }
{
    let start = c.here();
    if !some_blanks(c) {
        return Err(LexErr::NoParse);
    }
    if !c.eat(b"=~") || !some_blanks(c) {
        c.back_to(start);
        return Err(LexErr::NoParse);
    }
    Ok(or_back!(c, start, regex(c)))
}

// Blanks, an operator, blanks, and the second word.
#[tactic(auto, unfolding(eb_grammar::specs::Conditions::compared))]
fn compared<W: Fn(&mut Cursor<'_>) -> Result<Word, LexErr>>(
    c: &mut Cursor<'_>,
    word: &W,
) -> Result<(BinOp, Word), LexErr>
    requires { ReadsBelow word_at (c.old.room + 1) (W.pre word.now) (W.post word.now) }
    ensures { Reads (conditions.compared (inside c.old.room)) c.old (mapped (λ x. Compared x.0 x.1) result) c.new }
{
    let start = c.here();
    if !some_blanks(c) {
        return Err(LexErr::NoParse);
    }
    let Some(which) = binary_op(c) else {
        c.back_to(start);
        return Err(LexErr::NoParse);
    };
    if !some_blanks(c) {
        c.back_to(start);
        return Err(LexErr::NoParse);
    }
    let right = or_back!(c, start, condition_word(c, word));
    Ok((which, right))
}

// A word, and what it is matched or compared with, if that stands there.
#[tactic(auto, unfolding(eb_grammar::specs::Conditions::word_test))]
pub fn word_test<
    W: Fn(&mut Cursor<'_>) -> Result<Word, LexErr>,
    R: Fn(&mut Cursor<'_>) -> Result<Regex, LexErr>,
>(c: &mut Cursor<'_>, word: &W, regex: &R) -> Result<Primary, LexErr>
    requires words { ReadsBelow word_at (c.old.room + 1) (W.pre word.now) (W.post word.now) }
    requires regexes { ReadsBelow regex_at (c.old.room + 1) (R.pre regex.now) (R.post regex.now) }
    ensures { Reads (conditions.word_test (inside c.old.room)) c.old result c.new }
{
    let start = c.here();
    let left = condition_word(c, word)?;
    if let Some(pattern) = attempt_or_back!(c, start, matches(c, regex)) {
        return Ok(Primary::Matches(left, pattern));
    }
    match attempt_or_back!(c, start, compared(c, word)) {
        Some((which, right)) => Ok(Primary::Binary(left, which, right)),
        None => Ok(Primary::Word(left)),
    }
}
