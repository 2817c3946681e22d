//! The offset and the length of `${..:..:..}` (Bash Reference Manual, "Shell Parameter Expansion").

ghost use Rattle.std.specs.Prelude.{◌+◌, Bool, true};
ghost use Rattle.bash_cursor.specs.Reads.{Reads, ReadsBelow};
ghost use Rattle.bash_lexer.specs.At.{back_at, dollar_at};
ghost use Rattle.eb_grammar.specs.Grammar.{inside, rules_in};
ghost use Rattle.eb_grammar.specs.Params as params;
ghost use Rattle.eb_grammar.specs.Peg.{many};

use crate::quotes::double_quoted_of;
use bash_cursor::{Cursor, LexErr, backslash, lone, or_back};
use bash_reading::{attempt, attempt_or_back, put, shared};
use eb_grammar::Class;
use eb_syntax::{Back, Dollar, Op, SW};
use shared::Shared;
use sqlite_items::Items as List;

// A part of an offset or a length.
#[tactic(auto, unfolding(eb_grammar::specs::Params::slice_piece))]
fn slice_piece<
    D: Fn(bool, &mut Cursor<'_>) -> Result<Dollar, LexErr>,
    B: Fn(&mut Cursor<'_>) -> Result<Back, LexErr>,
>(quoted: bool, c: &mut Cursor<'_>, dollar: &D, back: &B) -> Result<SW, LexErr>
    requires dollars { ReadsBelow (dollar_at quoted) (c.old.room + 1) (D.pre dollar.now quoted) (D.post dollar.now quoted) }
    requires quotes { ReadsBelow (dollar_at true) (c.old.room + 1) (D.pre dollar.now true) (D.post dollar.now true) }
    requires backs { ReadsBelow back_at (c.old.room + 1) (B.pre back.now) (B.post back.now) }
    ensures { Reads (params.slice_piece (rules_in (inside c.old.room)) quoted) c.old result c.new }
{
    if c.sees_byte(Class::SliceEnd) {
        return Err(LexErr::NoParse);
    }
    if let Some(found) = attempt!(dollar(quoted, c)) {
        return Ok(SW::Dollar(found));
    }
    if let Some(found) = attempt!(back(c)) {
        return Ok(SW::Back(found));
    }
    if let Some(found) = attempt!(double_quoted_of(c, dollar, back)) {
        return Ok(SW::Double(found));
    }
    if lone(c) {
        return Ok(SW::Lone);
    }
    if let Some(byte) = backslash(c) {
        return Ok(SW::Escaped(byte));
    }
    match c.byte(Class::Slice) {
        Some(byte) => Ok(SW::Byte(byte)),
        None => Err(LexErr::NoParse),
    }
}

#[tactic(auto, using(bash_cursor::proofs::Turns::turn_go, bash_cursor::proofs::Turns::turn_no, bash_cursor::proofs::Turns::turn_deep, bash_cursor::proofs::Turns::turn_out))]
fn slice_pieces<
    D: Fn(bool, &mut Cursor<'_>) -> Result<Dollar, LexErr>,
    B: Fn(&mut Cursor<'_>) -> Result<Back, LexErr>,
>(quoted: bool, c: &mut Cursor<'_>, dollar: &D, back: &B) -> Result<List<SW>, LexErr>
    requires dollars { ReadsBelow (dollar_at quoted) (c.old.room + 1) (D.pre dollar.now quoted) (D.post dollar.now quoted) }
    requires quotes { ReadsBelow (dollar_at true) (c.old.room + 1) (D.pre dollar.now true) (D.post dollar.now true) }
    requires backs { ReadsBelow back_at (c.old.room + 1) (B.pre back.now) (B.post back.now) }
    ensures { Reads (many (params.slice_piece (rules_in (inside c.old.room)) quoted)) c.old result c.new }
{
    repeat!(c, slice_piece(quoted, c, dollar, back))
}

// A colon, and the offset or the length after it.
#[tactic(auto, unfolding(eb_grammar::specs::Params::slice_part))]
fn slice_part<
    D: Fn(bool, &mut Cursor<'_>) -> Result<Dollar, LexErr>,
    B: Fn(&mut Cursor<'_>) -> Result<Back, LexErr>,
>(quoted: bool, c: &mut Cursor<'_>, dollar: &D, back: &B) -> Result<Shared<List<SW>>, LexErr>
    requires dollars { ReadsBelow (dollar_at quoted) (c.old.room + 1) (D.pre dollar.now quoted) (D.post dollar.now quoted) }
    requires quotes { ReadsBelow (dollar_at true) (c.old.room + 1) (D.pre dollar.now true) (D.post dollar.now true) }
    requires backs { ReadsBelow back_at (c.old.room + 1) (B.pre back.now) (B.post back.now) }
    ensures { Reads (params.slice_part (rules_in (inside c.old.room)) quoted) c.old result c.new }
{
    let start = c.here();
    c.literal(b":")?;
    let pieces = or_back!(c, start, slice_pieces(quoted, c, dollar, back));
    Ok(or_back!(c, start, shared(c.alloc(), pieces)))
}

/// The offset, and the length, where it is given. What is expanded in them is read by `dollar` and `back`.
#[tactic(auto, unfolding(eb_grammar::specs::Params::slice))]
pub fn slice<
    D: Fn(bool, &mut Cursor<'_>) -> Result<Dollar, LexErr>,
    B: Fn(&mut Cursor<'_>) -> Result<Back, LexErr>,
>(quoted: bool, c: &mut Cursor<'_>, dollar: &D, back: &B) -> Result<Op, LexErr>
    requires dollars { ReadsBelow (dollar_at quoted) (c.old.room + 1) (D.pre dollar.now quoted) (D.post dollar.now quoted) }
    requires quotes { ReadsBelow (dollar_at true) (c.old.room + 1) (D.pre dollar.now true) (D.post dollar.now true) }
    requires backs { ReadsBelow back_at (c.old.room + 1) (B.pre back.now) (B.post back.now) }
    ensures { Reads (params.slice (rules_in (inside c.old.room)) quoted) c.old result c.new }
{
    let start = c.here();
    let offset = slice_part(quoted, c, dollar, back)?;
    let size = attempt_or_back!(c, start, slice_part(quoted, c, dollar, back));
    Ok(Op::Slice(offset, size))
}
