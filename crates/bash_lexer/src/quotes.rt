//! Double quotes (Bash Reference Manual, "Double Quotes" and "Locale-Specific Translation").

ghost use Rattle.std.specs.Prelude.{◌+◌, true};
ghost use Rattle.bash_cursor.specs.Reads.{Finds, Reads, ReadsBelow};
ghost use Rattle.bash_lexer.specs.At.{back_at, dollar_at, double_at, double_quoted_at, escaped_in_quotes};
ghost use Rattle.bash_reading.specs.At.{quoted_at};
ghost use Rattle.eb_grammar.specs.Grammar.{inside, rules_in};
ghost use Rattle.eb_grammar.specs.Peg.{many};
ghost use Rattle.eb_grammar.specs.Words as words;

use bash_cursor::{Cursor, LexErr, continuation, lone, or_back, or_remember};
use bash_reading::{attempt, must, put, shared};
use eb_grammar::Class;
use eb_syntax::{Back, DQ, Dollar, Piece, QPiece};
use grammar_laws::Nesting;
use sqlite_items::Items as List;

// A backslash and the byte that it quotes inside double quotes, which is given.
fn escaped_in_quotes(c: &mut Cursor<'_>) -> Option<u8>
    ensures { Finds escaped_in_quotes c.old result c.new }
{
    let start = c.here();
    if !c.eat(b"\\") {
        return None;
    }
    match c.byte(Class::Escaped) {
        Some(byte) => Some(byte),
        None => {
            c.back_to(start);
            None
        }
    }
}

/// A piece inside double quotes, with what is expanded in it read by `dollar` and `back`.
#[tactic(auto, unfolding(eb_grammar::specs::Words::quoted_piece))]
pub fn quoted_piece_of<
    D: Fn(bool, &mut Cursor<'_>) -> Result<Dollar, LexErr>,
    B: Fn(&mut Cursor<'_>) -> Result<Back, LexErr>,
>(c: &mut Cursor<'_>, dollar: &D, back: &B) -> Result<QPiece, LexErr>
    requires dollars { ReadsBelow (dollar_at true) (c.old.room + 1) (D.pre dollar.now true) (D.post dollar.now true) }
    requires backs { ReadsBelow back_at (c.old.room + 1) (B.pre back.now) (B.post back.now) }
    ensures { Reads (quoted_at c.old.room) c.old result c.new }
{
    if continuation(c) {
        return Ok(QPiece::Continuation);
    }
    if let Some(byte) = escaped_in_quotes(c) {
        return Ok(QPiece::Escaped(byte));
    }
    if let Some(found) = attempt!(dollar(true, c)) {
        return Ok(QPiece::Dollar(found));
    }
    if let Some(found) = attempt!(back(c)) {
        return Ok(QPiece::Back(found));
    }
    if lone(c) {
        return Ok(QPiece::Lone);
    }
    match c.byte(Class::Double) {
        Some(byte) => Ok(QPiece::Byte(byte)),
        None => Err(LexErr::NoParse),
    }
}

#[tactic(auto, using(bash_cursor::proofs::Turns::turn_go, bash_cursor::proofs::Turns::turn_no, bash_cursor::proofs::Turns::turn_deep, bash_cursor::proofs::Turns::turn_out))]
fn quoted_pieces<
    D: Fn(bool, &mut Cursor<'_>) -> Result<Dollar, LexErr>,
    B: Fn(&mut Cursor<'_>) -> Result<Back, LexErr>,
>(c: &mut Cursor<'_>, dollar: &D, back: &B) -> Result<List<QPiece>, LexErr>
    requires dollars { ReadsBelow (dollar_at true) (c.old.room + 1) (D.pre dollar.now true) (D.post dollar.now true) }
    requires backs { ReadsBelow back_at (c.old.room + 1) (B.pre back.now) (B.post back.now) }
    ensures { Reads (many (quoted_at c.old.room)) c.old result c.new }
{
    repeat!(c, quoted_piece_of(c, dollar, back))
}

// `".."`, whose nesting is open.
#[tactic(auto, unfolding(eb_grammar::specs::Words::quotes))]
fn quotes<
    D: Fn(bool, &mut Cursor<'_>) -> Result<Dollar, LexErr>,
    B: Fn(&mut Cursor<'_>) -> Result<Back, LexErr>,
>(c: &mut Cursor<'_>, dollar: &D, back: &B) -> Result<DQ, LexErr>
    requires dollars { ReadsBelow (dollar_at true) (c.old.room + 1) (D.pre dollar.now true) (D.post dollar.now true) }
    requires backs { ReadsBelow back_at (c.old.room + 1) (B.pre back.now) (B.post back.now) }
    ensures { Reads (words.quotes (rules_in (inside c.old.room))) c.old result c.new }
{
    let start = c.here();
    c.literal(b"\"")?;
    let pieces = or_back!(c, start, quoted_pieces(c, dollar, back));
    must!(c, start, c.eat(b"\""));
    Ok(or_back!(c, start, shared(c.alloc(), pieces)))
}

/// `".."`, with what is expanded in it read by `dollar` and `back`.
#[tactic(auto, using(bash_cursor::proofs::Nesting::nest_no, bash_cursor::proofs::Nesting::nest_deep, bash_cursor::proofs::Nesting::nest_in, bash_cursor::proofs::Below::narrower), unfolding(eb_grammar::specs::Words::double_quoted))]
pub fn double_quoted_of<
    D: Fn(bool, &mut Cursor<'_>) -> Result<Dollar, LexErr>,
    B: Fn(&mut Cursor<'_>) -> Result<Back, LexErr>,
>(c: &mut Cursor<'_>, dollar: &D, back: &B) -> Result<DQ, LexErr>
    requires dollars { ReadsBelow (dollar_at true) (c.old.room + 1) (D.pre dollar.now true) (D.post dollar.now true) }
    requires backs { ReadsBelow back_at (c.old.room + 1) (B.pre back.now) (B.post back.now) }
    ensures { Reads (double_quoted_at c.old.room) c.old result c.new }
{
    nested!(c, Nesting::DoubleQuotes, b"\"", quotes(c, dollar, back))
}

/// `".."` or `$".."`, as a piece.
#[tactic(auto, unfolding(eb_grammar::specs::Words::double))]
pub fn double_of<
    D: Fn(bool, &mut Cursor<'_>) -> Result<Dollar, LexErr>,
    B: Fn(&mut Cursor<'_>) -> Result<Back, LexErr>,
>(c: &mut Cursor<'_>, dollar: &D, back: &B) -> Result<Piece, LexErr>
    requires dollars { ReadsBelow (dollar_at true) (c.old.room + 1) (D.pre dollar.now true) (D.post dollar.now true) }
    requires backs { ReadsBelow back_at (c.old.room + 1) (B.pre back.now) (B.post back.now) }
    ensures { Reads (double_at c.old.room) c.old result c.new }
{
    let start = c.here();
    if c.eat(b"$") {
        let pieces = or_back!(c, start, double_quoted_of(c, dollar, back));
        return Ok(Piece::Double(true, pieces));
    }
    Ok(Piece::Double(false, double_quoted_of(c, dollar, back)?))
}
