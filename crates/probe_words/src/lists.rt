//! Readers of lists of commands that read only the empty one.

ghost use Rattle.std.specs.Prelude.{◌≡◌, [], MatchResult};
ghost use Rattle.bash_cursor.specs.Reads.{Reads};
ghost use Rattle.bash_reading.specs.At.{body_at, items_at};
ghost use Rattle.eb_grammar.specs.Commands.{items_of};

use bash_cursor::{Cursor, LexErr};
use eb_syntax::{Body, Items};
use shared::Shared;
use sqlite_items::Items as List;
use std::alloc::Global;
use std::cell::Cell;

// No commands.
fn nothing(alloc: Global) -> Result<Items, LexErr>
    ensures { MatchResult result (λ items. items ≡ items_of []) (λ e. e ≡ LexErr.Memory) }
{
    Ok(Items {
        items: Shared::new(alloc, List::new(alloc))?,
    })
}

/// Items where it is empty. Anything else is not read, but noted.
#[tactic(auto, using(crate::proofs::EmptyLists::empty_at_end, crate::proofs::EmptyLists::empty_at_closing))]
pub fn no_items(c: &mut Cursor<'_>, noted: &Cell<bool>) -> Result<Items, LexErr>
    ensures { Reads (items_at c.old.room) c.old result c.new }
{
    if c.at_end() {
        return nothing(c.alloc());
    }
    if c.sees(b")") {
        return nothing(c.alloc());
    }
    noted.set(true);
    Err(LexErr::Memory)
}

/// Body, which has a command: it is not read, but noted.
pub fn no_body(c: &mut Cursor<'_>, noted: &Cell<bool>) -> Result<Body, LexErr>
    ensures { Reads (body_at c.old.room) c.old result c.new }
{
    noted.set(true);
    Err(LexErr::Memory)
}
