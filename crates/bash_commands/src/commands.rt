//! Commands (Bash Reference Manual, "Shell Commands"), and coprocesses ("Coprocesses").

ghost use Rattle.std.specs.Prelude.{◌+◌};
ghost use Rattle.bash_cursor.specs.Reads.{ReadsBelow, ReadsMarks};
ghost use Rattle.bash_commands.specs.Parts.{coproc_command};
ghost use Rattle.bash_reading.specs.At.{assign_at, command_at, compound_at, lines_at, redir_at, word_at};
ghost use Rattle.bash_reading.specs.Marks.{ReadsMarksBelow};
ghost use Rattle.eb_grammar.specs.Commands as commands;
ghost use Rattle.eb_grammar.specs.Grammar.{inside};

use crate::declarations::decl_or_simple;
use crate::functions::{compound_command, function};
use crate::tails::simple;
use bash_cursor::{Cursor, LexErr, or_back};
use bash_drafts::{Draft, Inner};
use bash_reading::{attempt, reserved_word};
use eb_syntax::{Assign, Compound, CoprocOf, Redir, Word};
use sqlite_items::Items as List;

// A compound command without redirections, or a simple command.
fn coproc_command<
    W: Fn(&mut Cursor<'_>) -> Result<Word, LexErr>,
    A: Fn(&mut Cursor<'_>) -> Result<Assign, LexErr>,
    R: Fn(&mut Cursor<'_>) -> Result<Redir, LexErr>,
    C: Fn(&mut Cursor<'_>) -> Result<Compound, LexErr>,
>(c: &mut Cursor<'_>, word: &W, assign: &A, redir: &R, compound: &C) -> Result<Inner, LexErr>
    requires words { ReadsBelow word_at (c.old.room + 1) (W.pre word.now) (W.post word.now) }
    requires assigns { ReadsMarksBelow assign_at (c.old.room + 1) (A.pre assign.now) (A.post assign.now) }
    requires redirs { ReadsMarksBelow redir_at (c.old.room + 1) (R.pre redir.now) (R.post redir.now) }
    requires compounds { ReadsMarksBelow compound_at (c.old.room + 1) (C.pre compound.now) (C.post compound.now) }
    ensures { ReadsMarks (coproc_command (inside c.old.room)) c.old result c.new }
{
    if let Some(what) = attempt!(compound(c)) {
        return Ok(Inner::compound(what, List::new(c.alloc())));
    }
    Ok(Inner::simple(simple(c, assign, redir, word)?))
}

// `coproc`, and its command.
#[tactic(auto, unfolding(eb_grammar::specs::Commands::coproc))]
fn coproc<
    W: Fn(&mut Cursor<'_>) -> Result<Word, LexErr>,
    A: Fn(&mut Cursor<'_>) -> Result<Assign, LexErr>,
    R: Fn(&mut Cursor<'_>) -> Result<Redir, LexErr>,
    C: Fn(&mut Cursor<'_>) -> Result<Compound, LexErr>,
>(
    c: &mut Cursor<'_>,
    word: &W,
    assign: &A,
    redir: &R,
    compound: &C,
) -> Result<CoprocOf<Inner>, LexErr>
    requires words { ReadsBelow word_at (c.old.room + 1) (W.pre word.now) (W.post word.now) }
    requires assigns { ReadsMarksBelow assign_at (c.old.room + 1) (A.pre assign.now) (A.post assign.now) }
    requires redirs { ReadsMarksBelow redir_at (c.old.room + 1) (R.pre redir.now) (R.post redir.now) }
    requires compounds { ReadsMarksBelow compound_at (c.old.room + 1) (C.pre compound.now) (C.post compound.now) }
    ensures { ReadsMarks (commands.coproc (inside c.old.room)) c.old result c.new }
{
    let start = c.here();
    reserved_word(c, b"coproc")?;
    c.blanks();
    let command = or_back!(c, start, coproc_command(c, word, assign, redir, compound));
    Ok(CoprocOf { command })
}

/// A command, before the bodies of its here-documents are known. Words, assignments, redirections, compound commands and
/// the lines before the body of a function are read by what is handed over.
///
/// # Errors
/// `NoParse` exactly where none stands at the place, `TooDeep` exactly where reading it opens more nestings than may be
/// open, `Memory` where there is no room for it. The cursor, with its here-documents, is as it was then.
#[tactic(auto, unfolding(eb_grammar::specs::Commands::command))]
pub fn command_of<
    W: Fn(&mut Cursor<'_>) -> Result<Word, LexErr>,
    A: Fn(&mut Cursor<'_>) -> Result<Assign, LexErr>,
    R: Fn(&mut Cursor<'_>) -> Result<Redir, LexErr>,
    L: Fn(&mut Cursor<'_>) -> Result<(), LexErr>,
    C: Fn(&mut Cursor<'_>) -> Result<Compound, LexErr>,
>(
    c: &mut Cursor<'_>,
    word: &W,
    assign: &A,
    redir: &R,
    lines: &L,
    compound: &C,
) -> Result<Draft, LexErr>
    requires words { ReadsBelow word_at (c.old.room + 1) (W.pre word.now) (W.post word.now) }
    requires assigns { ReadsMarksBelow assign_at (c.old.room + 1) (A.pre assign.now) (A.post assign.now) }
    requires redirs { ReadsMarksBelow redir_at (c.old.room + 1) (R.pre redir.now) (R.post redir.now) }
    requires between { ReadsMarksBelow lines_at (c.old.room + 1) (L.pre lines.now) (L.post lines.now) }
    requires compounds { ReadsMarksBelow compound_at (c.old.room + 1) (C.pre compound.now) (C.post compound.now) }
    ensures { ReadsMarks (command_at c.old.room) c.old result c.new }
{
    if let Some(found) = attempt!(compound_command(c, compound, redir)) {
        return Ok(Draft::inner(found));
    }
    if let Some(found) = attempt!(function(c, lines, compound, redir)) {
        return Ok(Draft::function(found));
    }
    if let Some(found) = attempt!(coproc(c, word, assign, redir, compound)) {
        return Ok(Draft::coproc(found));
    }
    decl_or_simple(c, assign, redir, word)
}
