//! Pipelines, and what is made of them by `&&` and `||` (Bash Reference Manual, "Pipelines" and "Lists of Commands").

ghost use Rattle.std.specs.Prelude.{◌+◌};
ghost use Rattle.bash_cursor.specs.Reads.{ReadsMarks};
ghost use Rattle.bash_reading.specs.At.{command_at, lines_at};
ghost use Rattle.bash_reading.specs.Marks.{ReadsMarksBelow};
ghost use Rattle.eb_grammar.specs.Commands as commands;
ghost use Rattle.eb_grammar.specs.Grammar.{inside};
ghost use Rattle.eb_grammar.specs.Peg.{many};

use crate::operators::{bar, junction, pipe_marks};
use bash_cursor::{Cursor, LexErr};
use bash_drafts::{AndOrDraft, Draft, JoinedDraft, PipeDraft, PipedDraft};
use bash_reading::{boxed, or_restore, put};
use eb_syntax::{AndOrOf, JoinedOf, PipeOf, PipedOf};
use sqlite_items::{Boxed, Items as List};

// A command, held by a pointer, so that a long list of commands takes little room.
fn boxed_command<C: Fn(&mut Cursor<'_>) -> Result<Draft, LexErr>>(
    c: &mut Cursor<'_>,
    command: &C,
) -> Result<Boxed<Draft>, LexErr>
    requires { ReadsMarksBelow command_at (c.old.room + 1) (C.pre command.now) (C.post command.now) }
    ensures { ReadsMarks (command_at c.old.room) c.old result c.new }
{
    let saved = c.save()?;
    let draft = command(c)?;
    Ok(or_restore!(c, saved, boxed(c.alloc(), draft)))
}

// A bar, and the command after it.
#[tactic(auto, unfolding(eb_grammar::specs::Commands::piped))]
fn piped<
    L: Fn(&mut Cursor<'_>) -> Result<(), LexErr>,
    C: Fn(&mut Cursor<'_>) -> Result<Draft, LexErr>,
>(c: &mut Cursor<'_>, lines: &L, command: &C) -> Result<PipedDraft, LexErr>
    requires between { ReadsMarksBelow lines_at (c.old.room + 1) (L.pre lines.now) (L.post lines.now) }
    requires commands { ReadsMarksBelow command_at (c.old.room + 1) (C.pre command.now) (C.post command.now) }
    ensures { ReadsMarks (commands.piped (inside c.old.room)) c.old result c.new }
{
    let saved = c.save()?;
    c.blanks();
    let Some(bar) = bar(c) else {
        c.restore(saved);
        return Err(LexErr::NoParse);
    };
    or_restore!(c, saved, lines(c));
    let command = or_restore!(c, saved, boxed_command(c, command));
    Ok(PipedOf { bar, command })
}

#[tactic(auto, using(bash_cursor::proofs::Turns::turn_go, bash_cursor::proofs::Turns::turn_no, bash_cursor::proofs::Turns::turn_deep, bash_cursor::proofs::Turns::turn_out))]
fn other_commands<
    L: Fn(&mut Cursor<'_>) -> Result<(), LexErr>,
    C: Fn(&mut Cursor<'_>) -> Result<Draft, LexErr>,
>(c: &mut Cursor<'_>, lines: &L, command: &C) -> Result<List<PipedDraft>, LexErr>
    requires between { ReadsMarksBelow lines_at (c.old.room + 1) (L.pre lines.now) (L.post lines.now) }
    requires commands { ReadsMarksBelow command_at (c.old.room + 1) (C.pre command.now) (C.post command.now) }
    ensures { ReadsMarks (many (commands.piped (inside c.old.room))) c.old result c.new }
{
    repeat_marks!(c, piped(c, lines, command))
}

// A pipeline.
#[tactic(auto, unfolding(eb_grammar::specs::Commands::pipe))]
fn pipe<
    L: Fn(&mut Cursor<'_>) -> Result<(), LexErr>,
    C: Fn(&mut Cursor<'_>) -> Result<Draft, LexErr>,
>(c: &mut Cursor<'_>, lines: &L, command: &C) -> Result<PipeDraft, LexErr>
    requires between { ReadsMarksBelow lines_at (c.old.room + 1) (L.pre lines.now) (L.post lines.now) }
    requires commands { ReadsMarksBelow command_at (c.old.room + 1) (C.pre command.now) (C.post command.now) }
    ensures { ReadsMarks (commands.pipe (inside c.old.room)) c.old result c.new }
{
    let saved = c.save()?;
    let marks = pipe_marks(c)?;
    let first = or_restore!(c, saved, boxed_command(c, command));
    let others = or_restore!(c, saved, other_commands(c, lines, command));
    Ok(PipeOf {
        marks,
        first,
        others,
    })
}

// `&&` or `||`, and the pipeline after it.
#[tactic(auto, unfolding(eb_grammar::specs::Commands::joined))]
fn joined<
    L: Fn(&mut Cursor<'_>) -> Result<(), LexErr>,
    C: Fn(&mut Cursor<'_>) -> Result<Draft, LexErr>,
>(c: &mut Cursor<'_>, lines: &L, command: &C) -> Result<JoinedDraft, LexErr>
    requires between { ReadsMarksBelow lines_at (c.old.room + 1) (L.pre lines.now) (L.post lines.now) }
    requires commands { ReadsMarksBelow command_at (c.old.room + 1) (C.pre command.now) (C.post command.now) }
    ensures { ReadsMarks (commands.joined (inside c.old.room)) c.old result c.new }
{
    let saved = c.save()?;
    c.blanks();
    let Some(junction) = junction(c) else {
        c.restore(saved);
        return Err(LexErr::NoParse);
    };
    or_restore!(c, saved, lines(c));
    let pipe = or_restore!(c, saved, pipe(c, lines, command));
    Ok(JoinedOf { junction, pipe })
}

#[tactic(auto, using(bash_cursor::proofs::Turns::turn_go, bash_cursor::proofs::Turns::turn_no, bash_cursor::proofs::Turns::turn_deep, bash_cursor::proofs::Turns::turn_out))]
fn other_pipes<
    L: Fn(&mut Cursor<'_>) -> Result<(), LexErr>,
    C: Fn(&mut Cursor<'_>) -> Result<Draft, LexErr>,
>(c: &mut Cursor<'_>, lines: &L, command: &C) -> Result<List<JoinedDraft>, LexErr>
    requires between { ReadsMarksBelow lines_at (c.old.room + 1) (L.pre lines.now) (L.post lines.now) }
    requires commands { ReadsMarksBelow command_at (c.old.room + 1) (C.pre command.now) (C.post command.now) }
    ensures { ReadsMarks (many (commands.joined (inside c.old.room))) c.old result c.new }
{
    repeat_marks!(c, joined(c, lines, command))
}

/// Pipelines joined by `&&` and `||`.
///
/// # Errors
/// `NoParse` exactly where none stands at the place, `TooDeep` exactly where reading it opens more nestings than may be
/// open, `Memory` where there is no room for it. The cursor, with its here-documents, is as it was then.
#[tactic(auto, unfolding(eb_grammar::specs::Commands::and_or))]
pub fn and_or<
    L: Fn(&mut Cursor<'_>) -> Result<(), LexErr>,
    C: Fn(&mut Cursor<'_>) -> Result<Draft, LexErr>,
>(c: &mut Cursor<'_>, lines: &L, command: &C) -> Result<AndOrDraft, LexErr>
    requires between { ReadsMarksBelow lines_at (c.old.room + 1) (L.pre lines.now) (L.post lines.now) }
    requires commands { ReadsMarksBelow command_at (c.old.room + 1) (C.pre command.now) (C.post command.now) }
    ensures { ReadsMarks (commands.and_or (inside c.old.room)) c.old result c.new }
{
    let saved = c.save()?;
    let first = pipe(c, lines, command)?;
    let others = or_restore!(c, saved, other_pipes(c, lines, command));
    Ok(AndOrOf { first, others })
}
