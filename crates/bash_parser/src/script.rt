//! Whole scripts.

ghost use Rattle.std.specs.Prelude.{◌≡◌, ◌<◌, length, MatchResult};
ghost use Rattle.bash_cursor.specs.Reads.{Reads, ReadsMarks};
ghost use Rattle.bash_parser.specs.Parses.{Parses, ParsesTo};
ghost use Rattle.bash_reading.specs.At.{body_at, items_at};
ghost use Rattle.eb_grammar.specs.Commands as commands;
ghost use Rattle.eb_grammar.specs.Grammar.{inside, script};
ghost use Rattle.eb_grammar.specs.Peg.{gather};

use crate::commands::turns;
use crate::error::ParseErr;
use crate::knot::{body, items};
use bash_cursor::{Cursor, LexErr};
use bash_drafts::ItemDraft;
use eb_bytes::Bytes;
use eb_grammar::Parsed;
use eb_syntax::{Body, Items, Script};
use sqlite_items::Items as List;
use std::alloc::Global;

// All items that stand at the place.
fn turns_here(c: &mut Cursor<'_>) -> Result<List<ItemDraft>, LexErr>
    ensures { ReadsMarks (gather (commands.turn (inside c.old.room))) c.old result c.new }
{
    let inner_items = |c: &mut Cursor<'_>| -> Result<Items, LexErr>
        ensures { Reads (items_at c.old.room) c.old result c.new }
    { items(c) };
    let inner_body = |c: &mut Cursor<'_>| -> Result<Body, LexErr>
        ensures { Reads (body_at c.old.room) c.old result c.new }
    { body(c) };
    turns(c, &inner_items, &inner_body)
}

// The script that a text is.
#[tactic(auto, using(crate::proofs::Scripts::script_node, crate::proofs::Scripts::script_waits, crate::proofs::Scripts::script_left, crate::proofs::Scripts::script_deep, crate::proofs::Scripts::script_none))]
fn script_of(alloc: Global, text: &[u8]) -> Result<Script, ParseErr>
    requires { length text.now < 4294967295 }
    ensures { Parses result (script text.now) }
{
    let mut c = Cursor::new(alloc, text);
    let found = match turns_here(&mut c) {
        Ok(found) => found,
        Err(LexErr::TooDeep { line }) => return Err(ParseErr::TooDeep { line }),
        Err(LexErr::NoParse) => return Err(ParseErr::Refused { line: 1 }),
        Err(LexErr::Memory) => return Err(ParseErr::Memory),
    };
    let line = c.line();
    if !c.at_end() {
        return Err(ParseErr::Refused { line });
    }
    let own = c.open_items();
    match bash_bodies::closed(alloc, found, own) {
        Ok(node) => Ok(node),
        Err(LexErr::Memory) => Err(ParseErr::Memory),
        Err(LexErr::NoParse | LexErr::TooDeep { .. }) => Err(ParseErr::Refused { line }),
    }
}

/// The script that a text is, kept with the text (Bash Reference Manual, "Shell Syntax"). The text may have any bytes, and
/// has fewer than 4,294,967,295 of them, so that its lines and places are numbers of 32 bits; lines count from 1.
///
/// # Errors
/// `Refused` exactly where the text is no script, with the line of the first byte that the outermost list of commands does
/// not take, which is that on which the wrong command begins, or with the line of the text's end where a here-document still
/// waits for its body there. `TooDeep` exactly where reading it opens more nestings than the 200 that may be open, with the
/// line on which the first such one begins. `Memory` where there is no room for it.
pub fn parse_script(alloc: Global, text: Bytes) -> Result<Parsed, ParseErr>
    requires { length text < 4294967295 }
    ensures { ParsesTo text result (script text) }
{
    let node = script_of(alloc, text.as_slice())?;
    Ok(Parsed::new(text, node))
}
