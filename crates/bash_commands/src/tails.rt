//! Simple commands (Bash Reference Manual, "Simple Commands").

ghost use Rattle.std.specs.Prelude.{◌≡◌, ◌+◌};
ghost use Rattle.bash_cursor.specs.Reads.{ReadsBelow, ReadsMarks, Stands};
ghost use Rattle.bash_commands.specs.Parts.{name_bracket, simple_with};
ghost use Rattle.bash_reading.specs.At.{assign_at, redir_at, word_at};
ghost use Rattle.bash_reading.specs.Marks.{ReadsMarksBelow};
ghost use Rattle.eb_grammar.specs.Commands as commands;
ghost use Rattle.eb_grammar.specs.Grammar.{inside};
ghost use Rattle.eb_grammar.specs.Peg.{many, maybe};

use crate::prefixes::prefixes;
use bash_cursor::{Cursor, LexErr, or_back};
use bash_reading::{attempt, attempt_or_back, fitted, or_restore, put};
use eb_grammar::Class;
use eb_syntax::{Assign, Prefix, Redir, Simple, Tail, TailPart, Word};
use sqlite_items::Items as List;

// Blanks, and a redirection or a word.
#[tactic(auto, unfolding(eb_grammar::specs::Commands::tail_part))]
fn tail_part<
    R: Fn(&mut Cursor<'_>) -> Result<Redir, LexErr>,
    W: Fn(&mut Cursor<'_>) -> Result<Word, LexErr>,
>(c: &mut Cursor<'_>, redir: &R, word: &W) -> Result<TailPart, LexErr>
    requires redirs { ReadsMarksBelow redir_at (c.old.room + 1) (R.pre redir.now) (R.post redir.now) }
    requires words { ReadsBelow word_at (c.old.room + 1) (W.pre word.now) (W.post word.now) }
    ensures { ReadsMarks (commands.tail_part (inside c.old.room)) c.old result c.new }
{
    let start = c.here();
    c.blanks();
    if let Some(found) = attempt_or_back!(c, start, redir(c)) {
        return Ok(TailPart::Redir(found));
    }
    Ok(TailPart::Word(or_back!(c, start, word(c))))
}

#[tactic(auto, using(bash_cursor::proofs::Turns::turn_go, bash_cursor::proofs::Turns::turn_no, bash_cursor::proofs::Turns::turn_deep, bash_cursor::proofs::Turns::turn_out))]
fn tail_parts<
    R: Fn(&mut Cursor<'_>) -> Result<Redir, LexErr>,
    W: Fn(&mut Cursor<'_>) -> Result<Word, LexErr>,
>(c: &mut Cursor<'_>, redir: &R, word: &W) -> Result<List<TailPart>, LexErr>
    requires redirs { ReadsMarksBelow redir_at (c.old.room + 1) (R.pre redir.now) (R.post redir.now) }
    requires words { ReadsBelow word_at (c.old.room + 1) (W.pre word.now) (W.post word.now) }
    ensures { ReadsMarks (many (commands.tail_part (inside c.old.room))) c.old result c.new }
{
    repeat_marks!(c, tail_part(c, redir, word))
}

// The same, in no more room than they take.
fn fitted_parts<
    R: Fn(&mut Cursor<'_>) -> Result<Redir, LexErr>,
    W: Fn(&mut Cursor<'_>) -> Result<Word, LexErr>,
>(c: &mut Cursor<'_>, redir: &R, word: &W) -> Result<List<TailPart>, LexErr>
    requires redirs { ReadsMarksBelow redir_at (c.old.room + 1) (R.pre redir.now) (R.post redir.now) }
    requires words { ReadsBelow word_at (c.old.room + 1) (W.pre word.now) (W.post word.now) }
    ensures { ReadsMarks (many (commands.tail_part (inside c.old.room))) c.old result c.new }
{
    let saved = c.save()?;
    let found = tail_parts(c, redir, word)?;
    Ok(or_restore!(c, saved, fitted(c.alloc(), found)))
}

// Whether a name with a bracket after it stands at the place, which begins an assignment and no word.
#[tactic(auto, unfolding(eb_grammar::specs::Names::name, eb_grammar::specs::Peg::word_of))]
fn sees_subscript(c: &mut Cursor<'_>) -> bool
    ensures stands { Stands name_bracket c.old result }
    ensures same { c.new ≡ c.old }
{
    let start = c.here();
    let Some(_) = c.byte(Class::NameStart) else {
        return false;
    };
    c.run(Class::NamePart);
    let stands = c.sees(b"[");
    c.back_to(start);
    stands
}

// A command's name, and what stands after it.
#[tactic(auto, unfolding(eb_grammar::specs::Commands::tail))]
fn tail<
    R: Fn(&mut Cursor<'_>) -> Result<Redir, LexErr>,
    W: Fn(&mut Cursor<'_>) -> Result<Word, LexErr>,
>(c: &mut Cursor<'_>, redir: &R, word: &W) -> Result<Tail, LexErr>
    requires redirs { ReadsMarksBelow redir_at (c.old.room + 1) (R.pre redir.now) (R.post redir.now) }
    requires words { ReadsBelow word_at (c.old.room + 1) (W.pre word.now) (W.post word.now) }
    ensures { ReadsMarks (commands.tail (inside c.old.room)) c.old result c.new }
{
    if c.sees_reserved() {
        return Err(LexErr::NoParse);
    }
    if sees_subscript(c) {
        return Err(LexErr::NoParse);
    }
    let start = c.here();
    let first = word(c)?;
    let others = or_back!(c, start, fitted_parts(c, redir, word));
    Ok(Tail { first, others })
}

// The same, where it stands.
fn other_tail<
    R: Fn(&mut Cursor<'_>) -> Result<Redir, LexErr>,
    W: Fn(&mut Cursor<'_>) -> Result<Word, LexErr>,
>(c: &mut Cursor<'_>, redir: &R, word: &W) -> Result<Option<Tail>, LexErr>
    requires redirs { ReadsMarksBelow redir_at (c.old.room + 1) (R.pre redir.now) (R.post redir.now) }
    requires words { ReadsBelow word_at (c.old.room + 1) (W.pre word.now) (W.post word.now) }
    ensures { ReadsMarks (maybe (commands.tail (inside c.old.room))) c.old result c.new }
{
    Ok(attempt!(tail(c, redir, word)))
}

/// What stands after these assignments and redirections of a simple command: a name has to, where there are none.
///
/// # Errors
/// `NoParse` exactly where it does not, `TooDeep` exactly where reading it opens more nestings than may be open, `Memory`
/// where there is no room for it. The cursor, with its here-documents, is as it was then.
#[tactic(auto, using(crate::proofs::SharedPrefixes::with_none, crate::proofs::SharedPrefixes::with_some))]
pub fn simple_with<
    R: Fn(&mut Cursor<'_>) -> Result<Redir, LexErr>,
    W: Fn(&mut Cursor<'_>) -> Result<Word, LexErr>,
>(c: &mut Cursor<'_>, before: List<Prefix>, redir: &R, word: &W) -> Result<Simple, LexErr>
    requires redirs { ReadsMarksBelow redir_at (c.old.room + 1) (R.pre redir.now) (R.post redir.now) }
    requires words { ReadsBelow word_at (c.old.room + 1) (W.pre word.now) (W.post word.now) }
    ensures { ReadsMarks (simple_with (inside c.old.room) before) c.old result c.new }
{
    if before.is_empty() {
        let rest = tail(c, redir, word)?;
        return Ok(Simple {
            before,
            tail: Some(rest),
        });
    }
    let rest = other_tail(c, redir, word)?;
    Ok(Simple { before, tail: rest })
}

/// A simple command.
///
/// # Errors
/// `NoParse` exactly where none stands at the place, `TooDeep` exactly where reading it opens more nestings than may be
/// open, `Memory` where there is no room for it. The cursor, with its here-documents, is as it was then.
#[tactic(auto, using(crate::proofs::SharedPrefixes::simple_is))]
pub fn simple<
    A: Fn(&mut Cursor<'_>) -> Result<Assign, LexErr>,
    R: Fn(&mut Cursor<'_>) -> Result<Redir, LexErr>,
    W: Fn(&mut Cursor<'_>) -> Result<Word, LexErr>,
>(c: &mut Cursor<'_>, assign: &A, redir: &R, word: &W) -> Result<Simple, LexErr>
    requires assigns { ReadsMarksBelow assign_at (c.old.room + 1) (A.pre assign.now) (A.post assign.now) }
    requires redirs { ReadsMarksBelow redir_at (c.old.room + 1) (R.pre redir.now) (R.post redir.now) }
    requires words { ReadsBelow word_at (c.old.room + 1) (W.pre word.now) (W.post word.now) }
    ensures { ReadsMarks (commands.simple (inside c.old.room)) c.old result c.new }
{
    let saved = c.save()?;
    let before = prefixes(c, assign, redir)?;
    Ok(or_restore!(c, saved, simple_with(c, before, redir, word)))
}
