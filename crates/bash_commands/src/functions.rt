//! Functions (Bash Reference Manual, "Shell Functions").

ghost use Rattle.std.specs.Prelude.{◌+◌};
ghost use Rattle.bash_cursor.specs.Reads.{Eats, Reads, ReadsMarks};
ghost use Rattle.bash_commands.specs.Parts.{empty_parentheses, function_body, function_head, keyword_head};
ghost use Rattle.bash_reading.specs.At.{compound_at, lines_at, redir_at};
ghost use Rattle.bash_reading.specs.Marks.{ReadsMarksBelow};
ghost use Rattle.eb_grammar.specs.Commands as commands;
ghost use Rattle.eb_grammar.specs.Grammar.{inside};

use crate::prefixes::blank_redirs;
use bash_cursor::{Cursor, LexErr, function_name, or_back};
use bash_drafts::Inner;
use bash_reading::{attempt, must, or_restore, reserved_word, some_blanks};
use eb_syntax::{Compound, FName, FuncDefOf, Redir};

/// A compound command and its redirections.
///
/// # Errors
/// `NoParse` exactly where none stands at the place, `TooDeep` exactly where reading it opens more nestings than may be
/// open, `Memory` where there is no room for it. The cursor, with its here-documents, is as it was then.
#[tactic(auto, unfolding(eb_grammar::specs::Commands::compound_command))]
pub fn compound_command<
    C: Fn(&mut Cursor<'_>) -> Result<Compound, LexErr>,
    R: Fn(&mut Cursor<'_>) -> Result<Redir, LexErr>,
>(c: &mut Cursor<'_>, compound: &C, redir: &R) -> Result<Inner, LexErr>
    requires compounds { ReadsMarksBelow compound_at (c.old.room + 1) (C.pre compound.now) (C.post compound.now) }
    requires redirs { ReadsMarksBelow redir_at (c.old.room + 1) (R.pre redir.now) (R.post redir.now) }
    ensures { ReadsMarks (commands.compound_command (inside c.old.room)) c.old result c.new }
{
    let saved = c.save()?;
    let what = compound(c)?;
    let redirs = or_restore!(c, saved, blank_redirs(c, redir));
    Ok(Inner::compound(what, redirs))
}

// The parentheses after a function's name, and says whether they stand at the place.
fn empty_parentheses(c: &mut Cursor<'_>) -> bool
    ensures { Eats empty_parentheses c.old result c.new }
{
    let start = c.here();
    c.blanks();
    if !c.eat(b"(") {
        c.back_to(start);
        return false;
    }
    c.blanks();
    if !c.eat(b")") {
        c.back_to(start);
        return false;
    }
    true
}

// A function's name, and the parentheses after it.
#[tactic(auto, unfolding(crate::specs::Parts::function_head))]
fn function_head(c: &mut Cursor<'_>) -> Result<FName, LexErr>
    ensures { Reads function_head c.old result c.new }
{
    let start = c.here();
    let called = function_name(c)?;
    must!(c, start, empty_parentheses(c));
    Ok(called)
}

// `function`, and the name after it, perhaps with parentheses.
#[tactic(auto, unfolding(crate::specs::Parts::keyword_head))]
fn keyword_head(c: &mut Cursor<'_>) -> Result<FName, LexErr>
    ensures { Reads keyword_head c.old result c.new }
{
    let start = c.here();
    reserved_word(c, b"function")?;
    must!(c, start, some_blanks(c));
    let called = or_back!(c, start, function_name(c));
    empty_parentheses(c);
    Ok(called)
}

// The lines before a function's body, and the body.
fn function_body<
    L: Fn(&mut Cursor<'_>) -> Result<(), LexErr>,
    C: Fn(&mut Cursor<'_>) -> Result<Compound, LexErr>,
    R: Fn(&mut Cursor<'_>) -> Result<Redir, LexErr>,
>(c: &mut Cursor<'_>, lines: &L, compound: &C, redir: &R) -> Result<Inner, LexErr>
    requires between { ReadsMarksBelow lines_at (c.old.room + 1) (L.pre lines.now) (L.post lines.now) }
    requires compounds { ReadsMarksBelow compound_at (c.old.room + 1) (C.pre compound.now) (C.post compound.now) }
    requires redirs { ReadsMarksBelow redir_at (c.old.room + 1) (R.pre redir.now) (R.post redir.now) }
    ensures { ReadsMarks (function_body (inside c.old.room)) c.old result c.new }
{
    let saved = c.save()?;
    lines(c)?;
    Ok(or_restore!(c, saved, compound_command(c, compound, redir)))
}

#[tactic(auto, using(crate::proofs::FunctionHeads::named_is))]
fn named_function<
    L: Fn(&mut Cursor<'_>) -> Result<(), LexErr>,
    C: Fn(&mut Cursor<'_>) -> Result<Compound, LexErr>,
    R: Fn(&mut Cursor<'_>) -> Result<Redir, LexErr>,
>(c: &mut Cursor<'_>, lines: &L, compound: &C, redir: &R) -> Result<FuncDefOf<Inner>, LexErr>
    requires between { ReadsMarksBelow lines_at (c.old.room + 1) (L.pre lines.now) (L.post lines.now) }
    requires compounds { ReadsMarksBelow compound_at (c.old.room + 1) (C.pre compound.now) (C.post compound.now) }
    requires redirs { ReadsMarksBelow redir_at (c.old.room + 1) (R.pre redir.now) (R.post redir.now) }
    ensures { ReadsMarks (commands.named_function (inside c.old.room)) c.old result c.new }
{
    let start = c.here();
    let called = function_head(c)?;
    let body = or_back!(c, start, function_body(c, lines, compound, redir));
    Ok(FuncDefOf {
        keyword: false,
        name: called,
        body,
    })
}

#[tactic(auto, using(crate::proofs::FunctionHeads::keyword_is))]
fn keyword_function<
    L: Fn(&mut Cursor<'_>) -> Result<(), LexErr>,
    C: Fn(&mut Cursor<'_>) -> Result<Compound, LexErr>,
    R: Fn(&mut Cursor<'_>) -> Result<Redir, LexErr>,
>(c: &mut Cursor<'_>, lines: &L, compound: &C, redir: &R) -> Result<FuncDefOf<Inner>, LexErr>
    requires between { ReadsMarksBelow lines_at (c.old.room + 1) (L.pre lines.now) (L.post lines.now) }
    requires compounds { ReadsMarksBelow compound_at (c.old.room + 1) (C.pre compound.now) (C.post compound.now) }
    requires redirs { ReadsMarksBelow redir_at (c.old.room + 1) (R.pre redir.now) (R.post redir.now) }
    ensures { ReadsMarks (commands.keyword_function (inside c.old.room)) c.old result c.new }
{
    let start = c.here();
    let called = keyword_head(c)?;
    let body = or_back!(c, start, function_body(c, lines, compound, redir));
    Ok(FuncDefOf {
        keyword: true,
        name: called,
        body,
    })
}

/// A function.
///
/// # Errors
/// `NoParse` exactly where none stands at the place, `TooDeep` exactly where reading it opens more nestings than may be
/// open, `Memory` where there is no room for it. The cursor, with its here-documents, is as it was then.
#[tactic(auto, unfolding(eb_grammar::specs::Commands::function))]
pub fn function<
    L: Fn(&mut Cursor<'_>) -> Result<(), LexErr>,
    C: Fn(&mut Cursor<'_>) -> Result<Compound, LexErr>,
    R: Fn(&mut Cursor<'_>) -> Result<Redir, LexErr>,
>(c: &mut Cursor<'_>, lines: &L, compound: &C, redir: &R) -> Result<FuncDefOf<Inner>, LexErr>
    requires between { ReadsMarksBelow lines_at (c.old.room + 1) (L.pre lines.now) (L.post lines.now) }
    requires compounds { ReadsMarksBelow compound_at (c.old.room + 1) (C.pre compound.now) (C.post compound.now) }
    requires redirs { ReadsMarksBelow redir_at (c.old.room + 1) (R.pre redir.now) (R.post redir.now) }
    ensures { ReadsMarks (commands.function (inside c.old.room)) c.old result c.new }
{
    if let Some(found) = attempt!(named_function(c, lines, compound, redir)) {
        return Ok(found);
    }
    keyword_function(c, lines, compound, redir)
}
