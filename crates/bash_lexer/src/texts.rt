//! The texts in the operators of a parameter (Bash Reference Manual, "Shell Parameter Expansion").

ghost use Rattle.std.specs.Prelude.{◌+◌, Bool, true};
ghost use Rattle.bash_cursor.specs.Reads.{Reads, ReadsBelow};
ghost use Rattle.bash_lexer.specs.At.{back_at, dollar_at, pattern_piece};
ghost use Rattle.bash_reading.specs.At.{piece_at};
ghost use Rattle.eb_grammar.specs.Grammar.{inside, rules_in};
ghost use Rattle.eb_grammar.specs.Params as params;
ghost use Rattle.eb_grammar.specs.Peg.{many};

use crate::quotes::{double_quoted_of, quoted_piece_of};
use bash_cursor::{Cursor, LexErr, or_back};
use bash_reading::{attempt, put, shared};
use eb_grammar::Class;
use eb_syntax::{Back, Dollar, PW, Piece};
use shared::Shared;
use sqlite_items::Items as List;

// A part of a text outside double quotes: a piece, or a metacharacter.
#[tactic(auto, unfolding(eb_grammar::specs::Params::text_piece, eb_grammar::specs::Peg::word_of))]
fn text_piece<P: Fn(&mut Cursor<'_>) -> Result<Piece, LexErr>>(
    c: &mut Cursor<'_>,
    piece: &P,
) -> Result<PW, LexErr>
    requires { ReadsBelow piece_at (c.old.room + 1) (P.pre piece.now) (P.post piece.now) }
    ensures { Reads (params.text_piece (rules_in (inside c.old.room))) c.old result c.new }
{
    if c.sees(b"}") {
        return Err(LexErr::NoParse);
    }
    if let Some(found) = attempt!(piece(c)) {
        return Ok(PW::Piece(found));
    }
    match c.byte(Class::Meta) {
        Some(byte) => Ok(PW::Byte(byte)),
        None => Err(LexErr::NoParse),
    }
}

// A part of the pattern that is replaced, which ends at a slash.
#[tactic(auto, unfolding(eb_grammar::specs::Peg::word_of))]
fn pattern_piece<P: Fn(&mut Cursor<'_>) -> Result<Piece, LexErr>>(
    c: &mut Cursor<'_>,
    piece: &P,
) -> Result<PW, LexErr>
    requires { ReadsBelow piece_at (c.old.room + 1) (P.pre piece.now) (P.post piece.now) }
    ensures { Reads (pattern_piece (rules_in (inside c.old.room))) c.old result c.new }
{
    if c.sees(b"/") {
        return Err(LexErr::NoParse);
    }
    text_piece(c, piece)
}

#[tactic(auto, using(bash_cursor::proofs::Turns::turn_go, bash_cursor::proofs::Turns::turn_no, bash_cursor::proofs::Turns::turn_deep, bash_cursor::proofs::Turns::turn_out))]
fn text_pieces<P: Fn(&mut Cursor<'_>) -> Result<Piece, LexErr>>(
    c: &mut Cursor<'_>,
    piece: &P,
) -> Result<List<PW>, LexErr>
    requires { ReadsBelow piece_at (c.old.room + 1) (P.pre piece.now) (P.post piece.now) }
    ensures { Reads (many (params.text_piece (rules_in (inside c.old.room)))) c.old result c.new }
{
    repeat!(c, text_piece(c, piece))
}

#[tactic(auto, using(bash_cursor::proofs::Turns::turn_go, bash_cursor::proofs::Turns::turn_no, bash_cursor::proofs::Turns::turn_deep, bash_cursor::proofs::Turns::turn_out))]
fn pattern_pieces<P: Fn(&mut Cursor<'_>) -> Result<Piece, LexErr>>(
    c: &mut Cursor<'_>,
    piece: &P,
) -> Result<List<PW>, LexErr>
    requires { ReadsBelow piece_at (c.old.room + 1) (P.pre piece.now) (P.post piece.now) }
    ensures { Reads (many (pattern_piece (rules_in (inside c.old.room)))) c.old result c.new }
{
    repeat!(c, pattern_piece(c, piece))
}

/// A text after another operator, with its pieces read by `piece`.
pub fn text<P: Fn(&mut Cursor<'_>) -> Result<Piece, LexErr>>(
    c: &mut Cursor<'_>,
    piece: &P,
) -> Result<Shared<List<PW>>, LexErr>
    requires { ReadsBelow piece_at (c.old.room + 1) (P.pre piece.now) (P.post piece.now) }
    ensures { Reads (many (params.text_piece (rules_in (inside c.old.room)))) c.old result c.new }
{
    let start = c.here();
    let found = text_pieces(c, piece)?;
    Ok(or_back!(c, start, shared(c.alloc(), found)))
}

/// The pattern that is replaced, with its pieces read by `piece`.
pub fn pattern<P: Fn(&mut Cursor<'_>) -> Result<Piece, LexErr>>(
    c: &mut Cursor<'_>,
    piece: &P,
) -> Result<Shared<List<PW>>, LexErr>
    requires { ReadsBelow piece_at (c.old.room + 1) (P.pre piece.now) (P.post piece.now) }
    ensures { Reads (many (pattern_piece (rules_in (inside c.old.room)))) c.old result c.new }
{
    let start = c.here();
    let found = pattern_pieces(c, piece)?;
    Ok(or_back!(c, start, shared(c.alloc(), found)))
}

// A part of a text after an operator of values inside double quotes.
#[tactic(auto, unfolding(eb_grammar::specs::Params::quoted_text_piece, eb_grammar::specs::Peg::word_of))]
fn quoted_text_piece<
    D: Fn(bool, &mut Cursor<'_>) -> Result<Dollar, LexErr>,
    B: Fn(&mut Cursor<'_>) -> Result<Back, LexErr>,
>(c: &mut Cursor<'_>, dollar: &D, back: &B) -> Result<PW, LexErr>
    requires dollars { ReadsBelow (dollar_at true) (c.old.room + 1) (D.pre dollar.now true) (D.post dollar.now true) }
    requires backs { ReadsBelow back_at (c.old.room + 1) (B.pre back.now) (B.post back.now) }
    ensures { Reads (params.quoted_text_piece (rules_in (inside c.old.room))) c.old result c.new }
{
    if c.sees(b"}") {
        return Err(LexErr::NoParse);
    }
    if let Some(found) = attempt!(double_quoted_of(c, dollar, back)) {
        return Ok(PW::Double(found));
    }
    Ok(PW::Quoted(quoted_piece_of(c, dollar, back)?))
}

#[tactic(auto, using(bash_cursor::proofs::Turns::turn_go, bash_cursor::proofs::Turns::turn_no, bash_cursor::proofs::Turns::turn_deep, bash_cursor::proofs::Turns::turn_out))]
fn quoted_text_pieces<
    D: Fn(bool, &mut Cursor<'_>) -> Result<Dollar, LexErr>,
    B: Fn(&mut Cursor<'_>) -> Result<Back, LexErr>,
>(c: &mut Cursor<'_>, dollar: &D, back: &B) -> Result<List<PW>, LexErr>
    requires dollars { ReadsBelow (dollar_at true) (c.old.room + 1) (D.pre dollar.now true) (D.post dollar.now true) }
    requires backs { ReadsBelow back_at (c.old.room + 1) (B.pre back.now) (B.post back.now) }
    ensures { Reads (many (params.quoted_text_piece (rules_in (inside c.old.room)))) c.old result c.new }
{
    repeat!(c, quoted_text_piece(c, dollar, back))
}

/// A text after an operator of values inside double quotes, with what is expanded in it read by `dollar` and `back`.
pub fn quoted_text<
    D: Fn(bool, &mut Cursor<'_>) -> Result<Dollar, LexErr>,
    B: Fn(&mut Cursor<'_>) -> Result<Back, LexErr>,
>(c: &mut Cursor<'_>, dollar: &D, back: &B) -> Result<Shared<List<PW>>, LexErr>
    requires dollars { ReadsBelow (dollar_at true) (c.old.room + 1) (D.pre dollar.now true) (D.post dollar.now true) }
    requires backs { ReadsBelow back_at (c.old.room + 1) (B.pre back.now) (B.post back.now) }
    ensures { Reads (many (params.quoted_text_piece (rules_in (inside c.old.room)))) c.old result c.new }
{
    let start = c.here();
    let found = quoted_text_pieces(c, dollar, back)?;
    Ok(or_back!(c, start, shared(c.alloc(), found)))
}
