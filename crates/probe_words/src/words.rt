ghost use Rattle.std.specs.Prelude.{◌<◌, length};
ghost use Rattle.bash_cursor.specs.Reads.{Reads};
ghost use Rattle.bash_reading.specs.At.{body_at, items_at};

use crate::lists::{no_body, no_items};
use bash_cursor::{Cursor, LexErr};
use eb_syntax::{Body, Items};
use probe_base::{Answer, Fault};
use std::cell::Cell;

// How many bytes a text has at most.
const LONGEST: usize = 4_294_967_294;

/// `word TEXT`: `place` and the number of bytes that a word at the start of the text takes; `no` where none stands there;
/// `deep` and the line where it nests too deep; `commands` where it would have to read one, which it does not.
pub fn word(text: &[u8], answer: &mut Answer) -> Result<(), Fault> {
    if text.len() > LONGEST {
        return Err(Fault::NoRequest);
    }
    put_end(text, answer)
}

fn put_end(text: &[u8], answer: &mut Answer) -> Result<(), Fault>
    requires { length text.now < 4294967295 }
{
    let has_commands = Cell::new(false);
    match end_of_word(text, answer, &has_commands) {
        Ok(place) => {
            answer.word("place");
            answer.number(place as u64);
        }
        Err(LexErr::NoParse) => answer.word("no"),
        Err(LexErr::TooDeep { line }) => {
            answer.word("deep");
            answer.number(u64::from(line));
        }
        Err(LexErr::Memory) if has_commands.get() => answer.word("commands"),
        Err(LexErr::Memory) => return Err(Fault::Memory),
    }
    Ok(())
}

// Where the word at the start of the text ends. Commands in it end the reading, and are noted.
fn end_of_word(text: &[u8], answer: &Answer, has_commands: &Cell<bool>) -> Result<usize, LexErr>
    requires { length text.now < 4294967295 }
{
    let items = |c: &mut Cursor<'_>| -> Result<Items, LexErr>
        ensures { Reads (items_at c.old.room) c.old result c.new }
    { no_items(c, has_commands) };
    let body = |c: &mut Cursor<'_>| -> Result<Body, LexErr>
        ensures { Reads (body_at c.old.room) c.old result c.new }
    { no_body(c, has_commands) };
    let mut c = Cursor::new(answer.alloc(), text);
    bash_words::word(&mut c, &items, &body)?;
    Ok(c.place())
}
