//! Lists of commands with here-documents of their own (Bash Reference Manual, "Here Documents").

ghost use Rattle.std.specs.Prelude.{◌≡◌, ◌≢◌, ◌+◌, Ok, Err, MatchResult};
ghost use Rattle.bash_bodies.specs.Parts.{closing};
ghost use Rattle.bash_cursor.specs.Reads.{Reads, stop_of};
ghost use Rattle.bash_reading.specs.At.{body_at, command_at, items_at, lines_at, newline_at};
ghost use Rattle.bash_reading.specs.Marks.{ReadsMarksBelow};
ghost use Rattle.eb_grammar.specs.Commands as commands;
ghost use Rattle.eb_grammar.specs.Peg.{ends};

use crate::lists::{item_and_items, turns};
use bash_cursor::{Cursor, LexErr, Marks, or_back};
use bash_drafts::{Draft, ItemDraft, filled_items};
use bash_reading::shared;
use eb_syntax::{Body, Item, Items};
use sqlite_items::Items as List;
use std::alloc::Global;

// Whether no here-document waits for its body.
fn is_answered(own: &Marks) -> Result<bool, LexErr>
    ensures { MatchResult result (λ answered. answered ≡ ends own.now.waiting) (λ e. e ≡ LexErr.Memory) }
{
    let waiting = own.waiting()?;
    Ok(waiting.as_slice().is_empty())
}

// The node of a list of commands.
fn node_of(alloc: Global, items: List<Item>) -> Result<Items, LexErr>
    ensures { MatchResult result (λ node. node ≡ commands.items_of items) (λ e. e ≡ LexErr.Memory) }
{
    Ok(Items {
        items: shared(alloc, items)?,
    })
}

/// A list of commands that ends here: its items, with the bodies of its own here-documents.
///
/// # Errors
/// `NoParse` exactly where one of its here-documents still waits for its body, `Memory` where there is no room for it.
#[tactic(auto, unfolding(crate::specs::Parts::closing))]
pub fn closed(alloc: Global, found: List<ItemDraft>, own: Marks) -> Result<Items, LexErr>
    ensures { MatchResult result (λ node. closing found own ≡ Ok node) (λ e. e ≢ LexErr.Memory → closing found own ≡ Err (stop_of e)) }
{
    if !is_answered(&own)? {
        return Err(LexErr::NoParse);
    }
    let bodies = own.bodies()?;
    let items = filled_items(alloc, found, bodies.as_slice())?;
    node_of(alloc, items)
}

/// A list of commands, which may be empty: the commands are read by `command`, newlines by `newline`, and what may stand
/// after an operator by `lines`.
///
/// # Errors
/// `NoParse` exactly where a here-document of its own still waits at its end, `TooDeep` exactly where reading it opens more
/// nestings than may be open, `Memory` where there is no room for it.
#[tactic(auto, using(crate::proofs::Owns::own_node, crate::proofs::Owns::own_waits, crate::proofs::Owns::own_stop), unfolding(eb_grammar::specs::Commands::items))]
pub fn items_of<
    L: Fn(&mut Cursor<'_>) -> Result<(), LexErr>,
    N: Fn(&mut Cursor<'_>) -> Result<(), LexErr>,
    C: Fn(&mut Cursor<'_>) -> Result<Draft, LexErr>,
>(c: &mut Cursor<'_>, lines: &L, newline: &N, command: &C) -> Result<Items, LexErr>
    requires between { ReadsMarksBelow lines_at (c.old.room + 1) (L.pre lines.now) (L.post lines.now) }
    requires newlines { ReadsMarksBelow newline_at (c.old.room + 1) (N.pre newline.now) (N.post newline.now) }
    requires commands { ReadsMarksBelow command_at (c.old.room + 1) (C.pre command.now) (C.post command.now) }
    ensures { Reads (items_at c.old.room) c.old result c.new }
{
    let start = c.here();
    let outer = c.open_items();
    let read = turns(c, lines, newline, command);
    let own = c.close_items(outer);
    let found = or_back!(c, start, read);
    Ok(or_back!(c, start, closed(c.alloc(), found, own)))
}

/// The same of which an item has to stand after no more than blanks, comments and newlines.
///
/// # Errors
/// `NoParse` exactly where it does not, or a here-document of its own still waits at its end, `TooDeep` exactly where
/// reading it opens more nestings than may be open, `Memory` where there is no room for it.
#[tactic(auto, using(crate::proofs::Owns::own_node, crate::proofs::Owns::own_waits, crate::proofs::Owns::own_stop), unfolding(eb_grammar::specs::Commands::body))]
pub fn body_of<
    L: Fn(&mut Cursor<'_>) -> Result<(), LexErr>,
    N: Fn(&mut Cursor<'_>) -> Result<(), LexErr>,
    C: Fn(&mut Cursor<'_>) -> Result<Draft, LexErr>,
>(c: &mut Cursor<'_>, lines: &L, newline: &N, command: &C) -> Result<Body, LexErr>
    requires between { ReadsMarksBelow lines_at (c.old.room + 1) (L.pre lines.now) (L.post lines.now) }
    requires newlines { ReadsMarksBelow newline_at (c.old.room + 1) (N.pre newline.now) (N.post newline.now) }
    requires commands { ReadsMarksBelow command_at (c.old.room + 1) (C.pre command.now) (C.post command.now) }
    ensures { Reads (body_at c.old.room) c.old result c.new }
{
    let start = c.here();
    let outer = c.open_items();
    let read = item_and_items(c, lines, newline, command);
    let own = c.close_items(outer);
    let found = or_back!(c, start, read);
    Ok(or_back!(c, start, closed(c.alloc(), found, own)))
}
