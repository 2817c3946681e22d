//! Subscripts (Bash Reference Manual, "Arrays").

ghost use Rattle.std.specs.Prelude.{◌+◌};
ghost use Rattle.bash_cursor.specs.Reads.{Reads, ReadsBelow};
ghost use Rattle.bash_reading.specs.At.{piece_at, subscript_at};
ghost use Rattle.eb_grammar.specs.Grammar.{inside, rules_in};
ghost use Rattle.eb_grammar.specs.Params as params;
ghost use Rattle.eb_grammar.specs.Peg.{many};

use bash_cursor::{Cursor, LexErr, or_back, or_remember};
use bash_reading::{attempt, must, put, shared};
use eb_grammar::Class;
use eb_syntax::{Piece, Sub, SubPart};
use grammar_laws::Nesting;
use sqlite_items::Items as List;

/// `[..]`, with what is read inside it by `subscript` and `piece`.
#[tactic(auto, using(bash_cursor::proofs::Nesting::nest_no, bash_cursor::proofs::Nesting::nest_deep, bash_cursor::proofs::Nesting::nest_in), unfolding(eb_grammar::specs::Params::subscript))]
pub fn subscript_of<
    S: Fn(&mut Cursor<'_>) -> Result<Sub, LexErr>,
    P: Fn(&mut Cursor<'_>) -> Result<Piece, LexErr>,
>(c: &mut Cursor<'_>, subscript: &S, piece: &P) -> Result<Sub, LexErr>
    requires subscripts { ReadsBelow subscript_at c.old.room (S.pre subscript.now) (S.post subscript.now) }
    requires pieces { ReadsBelow piece_at c.old.room (P.pre piece.now) (P.post piece.now) }
    ensures { Reads (subscript_at c.old.room) c.old result c.new }
{
    nested!(c, Nesting::Subscript, b"[", brackets(c, subscript, piece))
}

// Brackets whose nesting is open.
#[tactic(auto, unfolding(eb_grammar::specs::Params::brackets))]
fn brackets<
    S: Fn(&mut Cursor<'_>) -> Result<Sub, LexErr>,
    P: Fn(&mut Cursor<'_>) -> Result<Piece, LexErr>,
>(c: &mut Cursor<'_>, subscript: &S, piece: &P) -> Result<Sub, LexErr>
    requires subscripts { ReadsBelow subscript_at (c.old.room + 1) (S.pre subscript.now) (S.post subscript.now) }
    requires pieces { ReadsBelow piece_at (c.old.room + 1) (P.pre piece.now) (P.post piece.now) }
    ensures { Reads (params.brackets (rules_in (inside c.old.room))) c.old result c.new }
{
    let start = c.here();
    c.literal(b"[")?;
    let parts = or_back!(c, start, subscript_parts(c, subscript, piece));
    must!(c, start, c.eat(b"]"));
    Ok(or_back!(c, start, shared(c.alloc(), parts)))
}

// What stands between brackets.
#[tactic(auto, using(bash_cursor::proofs::Turns::turn_go, bash_cursor::proofs::Turns::turn_no, bash_cursor::proofs::Turns::turn_deep, bash_cursor::proofs::Turns::turn_out))]
fn subscript_parts<
    S: Fn(&mut Cursor<'_>) -> Result<Sub, LexErr>,
    P: Fn(&mut Cursor<'_>) -> Result<Piece, LexErr>,
>(c: &mut Cursor<'_>, subscript: &S, piece: &P) -> Result<List<SubPart>, LexErr>
    requires subscripts { ReadsBelow subscript_at (c.old.room + 1) (S.pre subscript.now) (S.post subscript.now) }
    requires pieces { ReadsBelow piece_at (c.old.room + 1) (P.pre piece.now) (P.post piece.now) }
    ensures { Reads (many (params.subscript_part (rules_in (inside c.old.room)))) c.old result c.new }
{
    repeat!(c, subscript_part(c, subscript, piece))
}

// A subscript, a blank, or a piece that begins with no bracket.
#[tactic(auto, unfolding(eb_grammar::specs::Params::subscript_part))]
fn subscript_part<
    S: Fn(&mut Cursor<'_>) -> Result<Sub, LexErr>,
    P: Fn(&mut Cursor<'_>) -> Result<Piece, LexErr>,
>(c: &mut Cursor<'_>, subscript: &S, piece: &P) -> Result<SubPart, LexErr>
    requires subscripts { ReadsBelow subscript_at (c.old.room + 1) (S.pre subscript.now) (S.post subscript.now) }
    requires pieces { ReadsBelow piece_at (c.old.room + 1) (P.pre piece.now) (P.post piece.now) }
    ensures { Reads (params.subscript_part (rules_in (inside c.old.room))) c.old result c.new }
{
    if let Some(parts) = attempt!(subscript(c)) {
        return Ok(SubPart::Sub(parts));
    }
    if let Some(blank) = c.blank() {
        return Ok(SubPart::Blank(blank));
    }
    if c.sees_byte(Class::Bracket) {
        return Err(LexErr::NoParse);
    }
    Ok(SubPart::Piece(piece(c)?))
}
