//! Lists of commands (Bash Reference Manual, "Lists of Commands").

ghost use Rattle.std.specs.Prelude.{◌+◌};
ghost use Rattle.bash_bodies.specs.Parts.{listed};
ghost use Rattle.bash_cursor.specs.Reads.{ReadsMarks};
ghost use Rattle.bash_reading.specs.At.{command_at, lines_at, newline_at};
ghost use Rattle.bash_reading.specs.Marks.{ReadsMarksBelow, mapped};
ghost use Rattle.eb_grammar.specs.Commands as commands;
ghost use Rattle.eb_grammar.specs.Grammar.{inside};
ghost use Rattle.eb_grammar.specs.Peg.{gather};

use crate::ends::item_end;
use crate::pipes::and_or;
use bash_cursor::{Cursor, LexErr};
use bash_drafts::{Draft, ItemDraft};
use bash_reading::{attempt, list_with, or_restore, put};
use eb_syntax::ItemOf;
use sqlite_items::Items as List;

// An item, and what ends it.
#[tactic(auto, unfolding(eb_grammar::specs::Commands::item))]
fn item<
    L: Fn(&mut Cursor<'_>) -> Result<(), LexErr>,
    C: Fn(&mut Cursor<'_>) -> Result<Draft, LexErr>,
>(c: &mut Cursor<'_>, lines: &L, command: &C) -> Result<ItemDraft, LexErr>
    requires between { ReadsMarksBelow lines_at (c.old.room + 1) (L.pre lines.now) (L.post lines.now) }
    requires commands { ReadsMarksBelow command_at (c.old.room + 1) (C.pre command.now) (C.post command.now) }
    ensures { ReadsMarks (commands.item (inside c.old.room)) c.old result c.new }
{
    let saved = c.save()?;
    let list = and_or(c, lines, command)?;
    c.blanks();
    match item_end(c) {
        Some(end) => Ok(ItemOf { list, end }),
        None => {
            c.restore(saved);
            Err(LexErr::NoParse)
        }
    }
}

// A blank, a newline, a comment or an item: the item, if it is one.
#[tactic(auto, using(crate::proofs::Skipped::skipped_node, crate::proofs::Skipped::skipped_stop), unfolding(eb_grammar::specs::Commands::turn))]
fn turn<
    L: Fn(&mut Cursor<'_>) -> Result<(), LexErr>,
    N: Fn(&mut Cursor<'_>) -> Result<(), LexErr>,
    C: Fn(&mut Cursor<'_>) -> Result<Draft, LexErr>,
>(c: &mut Cursor<'_>, lines: &L, newline: &N, command: &C) -> Result<Option<ItemDraft>, LexErr>
    requires between { ReadsMarksBelow lines_at (c.old.room + 1) (L.pre lines.now) (L.post lines.now) }
    requires newlines { ReadsMarksBelow newline_at (c.old.room + 1) (N.pre newline.now) (N.post newline.now) }
    requires commands { ReadsMarksBelow command_at (c.old.room + 1) (C.pre command.now) (C.post command.now) }
    ensures { ReadsMarks (commands.turn (inside c.old.room)) c.old (mapped listed result) c.new }
{
    if c.blank().is_some() {
        return Ok(None);
    }
    if attempt!(newline(c)).is_some() {
        return Ok(None);
    }
    if c.comment() {
        return Ok(None);
    }
    Ok(Some(item(c, lines, command)?))
}

/// All items that stand at the place, with the blanks, newlines and comments between them, before the bodies of their
/// here-documents are put into them. The marks that wait at their end, and the bodies that were read, stay at the cursor.
///
/// # Errors
/// `TooDeep` exactly where reading them opens more nestings than may be open, `Memory` where there is no room for them. The
/// cursor, with its here-documents, is as it was then.
#[tactic(auto, using(bash_cursor::proofs::Turns::turn_go, bash_cursor::proofs::Turns::turn_skip, bash_cursor::proofs::Turns::turn_no, bash_cursor::proofs::Turns::turn_deep, bash_cursor::proofs::Turns::turn_out))]
pub fn turns<
    L: Fn(&mut Cursor<'_>) -> Result<(), LexErr>,
    N: Fn(&mut Cursor<'_>) -> Result<(), LexErr>,
    C: Fn(&mut Cursor<'_>) -> Result<Draft, LexErr>,
>(c: &mut Cursor<'_>, lines: &L, newline: &N, command: &C) -> Result<List<ItemDraft>, LexErr>
    requires between { ReadsMarksBelow lines_at (c.old.room + 1) (L.pre lines.now) (L.post lines.now) }
    requires newlines { ReadsMarksBelow newline_at (c.old.room + 1) (N.pre newline.now) (N.post newline.now) }
    requires commands { ReadsMarksBelow command_at (c.old.room + 1) (C.pre command.now) (C.post command.now) }
    ensures { ReadsMarks (gather (commands.turn (inside c.old.room))) c.old result c.new }
{
    let saved = c.save()?;
    let mut found = List::new(c.alloc());
    for _turn in 0..c.left() {
        match turn(c, lines, newline, command) {
            Ok(Some(item)) => or_restore!(c, saved, put(&mut found, item)),
            Ok(None) => {}
            Err(LexErr::NoParse) => return Ok(found),
            Err(error) => {
                c.restore(saved);
                return Err(error);
            }
        }
    }
    Ok(found)
}

/// The same where the first of them has to stand after no more than blanks, comments and newlines.
///
/// # Errors
/// `NoParse` exactly where it does not, and the others as `turns` has them.
#[tactic(auto, unfolding(eb_grammar::specs::Commands::item_and_items))]
pub fn item_and_items<
    L: Fn(&mut Cursor<'_>) -> Result<(), LexErr>,
    N: Fn(&mut Cursor<'_>) -> Result<(), LexErr>,
    C: Fn(&mut Cursor<'_>) -> Result<Draft, LexErr>,
>(c: &mut Cursor<'_>, lines: &L, newline: &N, command: &C) -> Result<List<ItemDraft>, LexErr>
    requires between { ReadsMarksBelow lines_at (c.old.room + 1) (L.pre lines.now) (L.post lines.now) }
    requires newlines { ReadsMarksBelow newline_at (c.old.room + 1) (N.pre newline.now) (N.post newline.now) }
    requires commands { ReadsMarksBelow command_at (c.old.room + 1) (C.pre command.now) (C.post command.now) }
    ensures { ReadsMarks (commands.item_and_items (inside c.old.room)) c.old result c.new }
{
    let saved = c.save()?;
    lines(c)?;
    let first = or_restore!(c, saved, item(c, lines, command));
    let others = or_restore!(c, saved, turns(c, lines, newline, command));
    Ok(or_restore!(c, saved, list_with(c.alloc(), first, others)))
}
