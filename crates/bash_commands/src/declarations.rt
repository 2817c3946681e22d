//! Declarations (Bash Reference Manual, "Bash Builtins": declare, typeset, local, export, readonly), and the choice
//! between one and a simple command, which begin alike.

ghost use Rattle.std.specs.Prelude.{◌≡◌, ◌+◌};
ghost use Rattle.bash_cursor.specs.Reads.{Finds, ReadsBelow, ReadsMarks};
ghost use Rattle.bash_commands.specs.Parts.{argument_word, decl_or_simple};
ghost use Rattle.bash_reading.specs.At.{assign_at, redir_at, word_at};
ghost use Rattle.bash_reading.specs.Marks.{ReadsMarksBelow};
ghost use Rattle.eb_grammar.specs.Commands as commands;
ghost use Rattle.eb_grammar.specs.Grammar.{inside};
ghost use Rattle.eb_grammar.specs.Peg.{many};

use crate::prefixes::{blank_redir, prefixes};
use crate::tails::simple_with;
use bash_cursor::{Cursor, LexErr, or_back};
use bash_drafts::{Draft, Inner};
use bash_reading::{attempt, or_restore, put, some_blanks};
use eb_syntax::{Argument, Assign, Decl, DeclName, Redir, Word};
use sqlite_items::Items as List;

// The name of a declaration.
#[tactic(auto, unfolding(eb_grammar::specs::Commands::decl_name))]
fn decl_name(c: &mut Cursor<'_>) -> Option<DeclName>
    ensures { Finds commands.decl_name c.old result c.new }
{
    if c.keyword(b"declare") {
        return Some(DeclName::Declare);
    }
    if c.keyword(b"typeset") {
        return Some(DeclName::Typeset);
    }
    if c.keyword(b"local") {
        return Some(DeclName::Local);
    }
    if c.keyword(b"export") {
        return Some(DeclName::Export);
    }
    if c.keyword(b"readonly") {
        return Some(DeclName::Readonly);
    }
    None
}

// An assignment or a word.
fn argument_word<
    A: Fn(&mut Cursor<'_>) -> Result<Assign, LexErr>,
    W: Fn(&mut Cursor<'_>) -> Result<Word, LexErr>,
>(c: &mut Cursor<'_>, assign: &A, word: &W) -> Result<Argument, LexErr>
    requires assigns { ReadsMarksBelow assign_at (c.old.room + 1) (A.pre assign.now) (A.post assign.now) }
    requires words { ReadsBelow word_at (c.old.room + 1) (W.pre word.now) (W.post word.now) }
    ensures { ReadsMarks (argument_word (inside c.old.room)) c.old result c.new }
{
    if let Some(found) = attempt!(assign(c)) {
        return Ok(Argument::Assign(found));
    }
    Ok(Argument::Word(word(c)?))
}

// A redirection, with blanks before it or without, or blanks and an assignment or a word.
#[tactic(auto, unfolding(eb_grammar::specs::Commands::argument))]
fn argument<
    A: Fn(&mut Cursor<'_>) -> Result<Assign, LexErr>,
    R: Fn(&mut Cursor<'_>) -> Result<Redir, LexErr>,
    W: Fn(&mut Cursor<'_>) -> Result<Word, LexErr>,
>(c: &mut Cursor<'_>, assign: &A, redir: &R, word: &W) -> Result<Argument, LexErr>
    requires assigns { ReadsMarksBelow assign_at (c.old.room + 1) (A.pre assign.now) (A.post assign.now) }
    requires redirs { ReadsMarksBelow redir_at (c.old.room + 1) (R.pre redir.now) (R.post redir.now) }
    requires words { ReadsBelow word_at (c.old.room + 1) (W.pre word.now) (W.post word.now) }
    ensures { ReadsMarks (commands.argument (inside c.old.room)) c.old result c.new }
{
    if let Some(found) = attempt!(blank_redir(c, redir)) {
        return Ok(Argument::Redir(found));
    }
    let start = c.here();
    if !some_blanks(c) {
        return Err(LexErr::NoParse);
    }
    Ok(or_back!(c, start, argument_word(c, assign, word)))
}

#[tactic(auto, using(bash_cursor::proofs::Turns::turn_go, bash_cursor::proofs::Turns::turn_no, bash_cursor::proofs::Turns::turn_deep, bash_cursor::proofs::Turns::turn_out))]
fn arguments<
    A: Fn(&mut Cursor<'_>) -> Result<Assign, LexErr>,
    R: Fn(&mut Cursor<'_>) -> Result<Redir, LexErr>,
    W: Fn(&mut Cursor<'_>) -> Result<Word, LexErr>,
>(c: &mut Cursor<'_>, assign: &A, redir: &R, word: &W) -> Result<List<Argument>, LexErr>
    requires assigns { ReadsMarksBelow assign_at (c.old.room + 1) (A.pre assign.now) (A.post assign.now) }
    requires redirs { ReadsMarksBelow redir_at (c.old.room + 1) (R.pre redir.now) (R.post redir.now) }
    requires words { ReadsBelow word_at (c.old.room + 1) (W.pre word.now) (W.post word.now) }
    ensures { ReadsMarks (many (commands.argument (inside c.old.room))) c.old result c.new }
{
    repeat_marks!(c, argument(c, assign, redir, word))
}

/// A declaration or a simple command. The assignments and redirections that both may begin with are read once.
///
/// # Errors
/// `NoParse` exactly where neither stands at the place, `TooDeep` exactly where reading it opens more nestings than may be
/// open, `Memory` where there is no room for it. The cursor, with its here-documents, is as it was then.
#[tactic(auto, using(crate::proofs::SharedPrefixes::decl_or_simple_is, crate::proofs::SharedPrefixes::prefixes_stop, crate::proofs::SharedPrefixes::arguments_stop), unfolding(crate::specs::Parts::decl_with))]
pub fn decl_or_simple<
    A: Fn(&mut Cursor<'_>) -> Result<Assign, LexErr>,
    R: Fn(&mut Cursor<'_>) -> Result<Redir, LexErr>,
    W: Fn(&mut Cursor<'_>) -> Result<Word, LexErr>,
>(c: &mut Cursor<'_>, assign: &A, redir: &R, word: &W) -> Result<Draft, LexErr>
    requires assigns { ReadsMarksBelow assign_at (c.old.room + 1) (A.pre assign.now) (A.post assign.now) }
    requires redirs { ReadsMarksBelow redir_at (c.old.room + 1) (R.pre redir.now) (R.post redir.now) }
    requires words { ReadsBelow word_at (c.old.room + 1) (W.pre word.now) (W.post word.now) }
    ensures { ReadsMarks (decl_or_simple (inside c.old.room)) c.old result c.new }
{
    let saved = c.save()?;
    let before = prefixes(c, assign, redir)?;
    match decl_name(c) {
        Some(name) => {
            let arguments = or_restore!(c, saved, arguments(c, assign, redir, word));
            Ok(Draft::declaration(Decl {
                before,
                name,
                arguments,
            }))
        }
        None => {
            let found = or_restore!(c, saved, simple_with(c, before, redir, word));
            Ok(Draft::inner(Inner::simple(found)))
        }
    }
}
