//! Quotes that nothing is expanded in (Bash Reference Manual, "Quoting").

ghost use Rattle.std.specs.Prelude.{◌≡◌, ◌++◌, MatchResult};
ghost use Rattle.eb_grammar.specs.Params as params;
ghost use Rattle.eb_grammar.specs.Peg.{gather};
ghost use Rattle.eb_grammar.specs.Words as words;
ghost use Rattle.bash_cursor.specs.Reads.{Eats, Finds, Reads};

use crate::cursor::Cursor;
use crate::error::LexErr;
use eb_bytes::Bytes;
use eb_grammar::Class;
use std::alloc::Global;

/// Goes past a backslash and a newline, which stand for nothing, and says whether they stand at the place.
#[tactic(auto, unfolding(eb_grammar::specs::Words::continuation))]
pub fn continuation(c: &mut Cursor<'_>) -> bool
    ensures { Eats words.continuation c.old result c.new }
{
    c.eat(b"\\\n")
}

/// Goes past a backslash and a byte other than a newline, and gives that byte. `None` where they do not stand at the
/// place.
#[tactic(auto, unfolding(eb_grammar::specs::Words::escaped))]
pub fn escaped(c: &mut Cursor<'_>) -> Option<u8>
    ensures { Finds words.escaped c.old result c.new }
{
    let start = c.here();
    if !c.eat(b"\\") {
        return None;
    }
    match c.byte(Class::NotNewline) {
        Some(byte) => Some(byte),
        None => {
            c.back_to(start);
            None
        }
    }
}

/// Goes past a backslash and a byte, and gives that byte. `None` where they do not stand at the place.
#[tactic(auto, unfolding(eb_grammar::specs::Params::backslash))]
pub fn backslash(c: &mut Cursor<'_>) -> Option<u8>
    ensures { Finds params.backslash c.old result c.new }
{
    let start = c.here();
    if !c.eat(b"\\") {
        return None;
    }
    match c.byte(Class::Any) {
        Some(byte) => Some(byte),
        None => {
            c.back_to(start);
            None
        }
    }
}

// A copy of a text.
fn copied(alloc: Global, text: &[u8]) -> Result<Bytes, LexErr>
    ensures { MatchResult result (λ bytes. bytes ≡ text.now) (λ e. e ≡ LexErr.Memory) }
{
    Ok(Bytes::from_slice(alloc, text)?)
}

/// `'..'`: what stands between the quotes ("Single Quotes").
///
/// # Errors
/// `NoParse` exactly where no such quotes stand at the place, `Memory` where there is no room for the text.
#[tactic(auto, unfolding(eb_grammar::specs::Words::single_quoted))]
pub fn single_quoted(c: &mut Cursor<'_>) -> Result<Bytes, LexErr>
    ensures { Reads words.single_quoted c.old result c.new }
{
    let start = c.here();
    c.literal(b"'")?;
    let text = c.run(Class::Single);
    if !c.eat(b"'") {
        c.back_to(start);
        return Err(LexErr::NoParse);
    }
    Ok(or_back!(c, start, copied(c.alloc(), text)))
}

// Puts these bytes at the end of a text.
fn put(text: &mut Bytes, more: &[u8]) -> Result<(), LexErr>
    ensures { MatchResult result (λ _. text.new ≡ text.old ++ more.now) (λ e. e ≡ LexErr.Memory) }
{
    text.extend(more)?;
    Ok(())
}

// What stands between `$'` and `'`, as it is written.
#[tactic(auto, using(crate::proofs::Turns::turn_go, crate::proofs::Turns::turn_no, crate::proofs::Turns::turn_out), unfolding(eb_grammar::specs::Words::ansi_part))]
fn ansi_text(c: &mut Cursor<'_>) -> Result<Bytes, LexErr>
    ensures { Reads (gather words.ansi_part) c.old result c.new }
{
    let start = c.here();
    let mut text = Bytes::new(c.alloc());
    for _turn in 0..c.left() {
        if let Some(byte) = backslash(c) {
            or_back!(c, start, put(&mut text, &[b'\\', byte]));
        } else if let Some(byte) = c.byte(Class::Ansi) {
            or_back!(c, start, put(&mut text, &[byte]));
        } else {
            return Ok(text);
        }
    }
    Ok(text)
}

/// `$'..'`: what stands between the quotes, as it is written ("ANSI-C Quoting").
///
/// # Errors
/// `NoParse` exactly where no such quotes stand at the place, `Memory` where there is no room for the text.
#[tactic(auto, unfolding(eb_grammar::specs::Words::ansi_quoted))]
pub fn ansi_quoted(c: &mut Cursor<'_>) -> Result<Bytes, LexErr>
    ensures { Reads words.ansi_quoted c.old result c.new }
{
    let start = c.here();
    c.literal(b"$'")?;
    let text = or_back!(c, start, ansi_text(c));
    if !c.eat(b"'") {
        c.back_to(start);
        return Err(LexErr::NoParse);
    }
    Ok(text)
}
