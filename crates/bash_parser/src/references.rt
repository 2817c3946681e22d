//! Texts that name a parameter, as the operand of `-v` and the value behind `${!name}` do.

ghost use Rattle.std.specs.Prelude.{◌≡◌, ◌<◌, length, IfOk};
ghost use Rattle.bash_cursor.specs.Reads.{Reads};
ghost use Rattle.bash_reading.specs.At.{body_at, items_at, subscript_at};
ghost use Rattle.eb_grammar.specs.Grammar.{whole_ref as whole_ref_of};

use crate::knot::{body, items};
use bash_cursor::{Cursor, LexErr};
use bash_lexer::reference;
use eb_bytes::Memory;
use eb_syntax::{Body, Items, Ref, Sub};
use std::alloc::Global;

// A subscript, with the lists of commands in it.
fn subscript_here(c: &mut Cursor<'_>) -> Result<Sub, LexErr>
    ensures { Reads (subscript_at c.old.room) c.old result c.new }
{
    let inner_items = |c: &mut Cursor<'_>| -> Result<Items, LexErr>
        ensures { Reads (items_at c.old.room) c.old result c.new }
    { items(c) };
    let inner_body = |c: &mut Cursor<'_>| -> Result<Body, LexErr>
        ensures { Reads (body_at c.old.room) c.old result c.new }
    { body(c) };
    bash_words::subscript(c, &inner_items, &inner_body)
}

/// The parameter that a whole text names: a variable, with a subscript or without; a positional parameter, by its number;
/// or a special one (Bash Reference Manual, "Shell Parameters", "Arrays"). `None` exactly where the text is none of these,
/// also where its subscript opens more nestings than may be open.
///
/// # Errors
/// `Memory`.
#[tactic(auto, using(crate::proofs::RefForms::whole_is, crate::proofs::RefForms::whole_left, crate::proofs::RefForms::whole_no))]
pub fn whole_ref(alloc: Global, text: &[u8]) -> Result<Option<Ref>, Memory>
    requires { length text.now < 4294967295 }
    ensures { IfOk result (λ found. found ≡ whole_ref_of text.now) }
{
    let subscript = |c: &mut Cursor<'_>| -> Result<Sub, LexErr>
        ensures { Reads (subscript_at c.old.room) c.old result c.new }
    { subscript_here(c) };
    let mut c = Cursor::new(alloc, text);
    match reference(&mut c, &subscript) {
        Ok(found) if c.at_end() => Ok(Some(found)),
        Ok(_) | Err(LexErr::NoParse | LexErr::TooDeep { .. }) => Ok(None),
        Err(LexErr::Memory) => Err(Memory),
    }
}
