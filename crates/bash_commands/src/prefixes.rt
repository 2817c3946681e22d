//! The assignments and redirections before a command's name (Bash Reference Manual, "Simple Commands").

ghost use Rattle.std.specs.Prelude.{◌+◌};
ghost use Rattle.bash_cursor.specs.Reads.{ReadsMarks};
ghost use Rattle.bash_commands.specs.Parts.{blank_redir, prefix_blanks};
ghost use Rattle.bash_reading.specs.At.{assign_at, redir_at};
ghost use Rattle.bash_reading.specs.Marks.{ReadsMarksBelow};
ghost use Rattle.eb_grammar.specs.Commands as commands;
ghost use Rattle.eb_grammar.specs.Grammar.{inside};
ghost use Rattle.eb_grammar.specs.Peg.{many};

use bash_cursor::{Cursor, LexErr, or_back};
use bash_reading::{attempt, or_restore, put};
use eb_syntax::{Assign, Prefix, Redir};
use sqlite_items::Items as List;

// An assignment or a redirection.
#[tactic(auto, unfolding(eb_grammar::specs::Commands::prefix))]
fn prefix<
    A: Fn(&mut Cursor<'_>) -> Result<Assign, LexErr>,
    R: Fn(&mut Cursor<'_>) -> Result<Redir, LexErr>,
>(c: &mut Cursor<'_>, assign: &A, redir: &R) -> Result<Prefix, LexErr>
    requires assigns { ReadsMarksBelow assign_at (c.old.room + 1) (A.pre assign.now) (A.post assign.now) }
    requires redirs { ReadsMarksBelow redir_at (c.old.room + 1) (R.pre redir.now) (R.post redir.now) }
    ensures { ReadsMarks (commands.prefix (inside c.old.room)) c.old result c.new }
{
    if let Some(found) = attempt!(assign(c)) {
        return Ok(Prefix::Assign(found));
    }
    Ok(Prefix::Redir(redir(c)?))
}

fn prefix_blanks<
    A: Fn(&mut Cursor<'_>) -> Result<Assign, LexErr>,
    R: Fn(&mut Cursor<'_>) -> Result<Redir, LexErr>,
>(c: &mut Cursor<'_>, assign: &A, redir: &R) -> Result<Prefix, LexErr>
    requires assigns { ReadsMarksBelow assign_at (c.old.room + 1) (A.pre assign.now) (A.post assign.now) }
    requires redirs { ReadsMarksBelow redir_at (c.old.room + 1) (R.pre redir.now) (R.post redir.now) }
    ensures { ReadsMarks (prefix_blanks (inside c.old.room)) c.old result c.new }
{
    let found = prefix(c, assign, redir)?;
    c.blanks();
    Ok(found)
}

/// All assignments and redirections that stand at the place, each with the blanks after it.
///
/// # Errors
/// `TooDeep` exactly where reading one opens more nestings than may be open, `Memory` where there is no room for them.
/// The cursor, with its here-documents, is as it was then.
#[tactic(auto, using(bash_cursor::proofs::Turns::turn_go, bash_cursor::proofs::Turns::turn_no, bash_cursor::proofs::Turns::turn_deep, bash_cursor::proofs::Turns::turn_out))]
pub fn prefixes<
    A: Fn(&mut Cursor<'_>) -> Result<Assign, LexErr>,
    R: Fn(&mut Cursor<'_>) -> Result<Redir, LexErr>,
>(c: &mut Cursor<'_>, assign: &A, redir: &R) -> Result<List<Prefix>, LexErr>
    requires assigns { ReadsMarksBelow assign_at (c.old.room + 1) (A.pre assign.now) (A.post assign.now) }
    requires redirs { ReadsMarksBelow redir_at (c.old.room + 1) (R.pre redir.now) (R.post redir.now) }
    ensures { ReadsMarks (many (prefix_blanks (inside c.old.room))) c.old result c.new }
{
    repeat_marks!(c, prefix_blanks(c, assign, redir))
}

/// Blanks, and a redirection.
///
/// # Errors
/// `NoParse` exactly where none stands at the place, `TooDeep` exactly where reading it opens more nestings than may be
/// open, `Memory` where there is no room for it. The cursor, with its here-documents, is as it was then.
pub fn blank_redir<R: Fn(&mut Cursor<'_>) -> Result<Redir, LexErr>>(
    c: &mut Cursor<'_>,
    redir: &R,
) -> Result<Redir, LexErr>
    requires { ReadsMarksBelow redir_at (c.old.room + 1) (R.pre redir.now) (R.post redir.now) }
    ensures { ReadsMarks (blank_redir (inside c.old.room)) c.old result c.new }
{
    let start = c.here();
    c.blanks();
    Ok(or_back!(c, start, redir(c)))
}

/// All redirections that stand at the place, with blanks before each.
///
/// # Errors
/// `TooDeep` exactly where reading one opens more nestings than may be open, `Memory` where there is no room for them.
/// The cursor, with its here-documents, is as it was then.
#[tactic(auto, using(bash_cursor::proofs::Turns::turn_go, bash_cursor::proofs::Turns::turn_no, bash_cursor::proofs::Turns::turn_deep, bash_cursor::proofs::Turns::turn_out))]
pub fn blank_redirs<R: Fn(&mut Cursor<'_>) -> Result<Redir, LexErr>>(
    c: &mut Cursor<'_>,
    redir: &R,
) -> Result<List<Redir>, LexErr>
    requires { ReadsMarksBelow redir_at (c.old.room + 1) (R.pre redir.now) (R.post redir.now) }
    ensures { ReadsMarks (many (blank_redir (inside c.old.room))) c.old result c.new }
{
    repeat_marks!(c, blank_redir(c, redir))
}
