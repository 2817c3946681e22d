//! The texts of arithmetic expressions (Bash Reference Manual, "Arithmetic Expansion" and "Shell Arithmetic").

ghost use Rattle.std.specs.Prelude.{◌+◌, Bool, false};
ghost use Rattle.bash_cursor.specs.Reads.{Reads, ReadsBelow};
ghost use Rattle.bash_lexer.specs.At.{arith_at, arith_part_piece, arith_piece_at, back_at, dollar_at, parentheses_at};
ghost use Rattle.bash_reading.specs.At.{arith_part_at};
ghost use Rattle.eb_grammar.specs.ArithText as arith_text;
ghost use Rattle.eb_grammar.specs.Grammar.{inside, rules_in};
ghost use Rattle.eb_grammar.specs.Peg.{many};

use bash_cursor::{Cursor, LexErr, backslash, lone, or_back};
use bash_reading::{attempt, must, put, shared};
use eb_grammar::Class;
use eb_syntax::{AP, ArithText, Back, Dollar};
use sqlite_items::Items as List;

// `(..)`, with the text read by `arith`.
#[tactic(auto, using(bash_cursor::proofs::Nesting::nest_no, bash_cursor::proofs::Nesting::nest_deep, bash_cursor::proofs::Nesting::nest_in))]
fn parentheses<A: Fn(bool, &mut Cursor<'_>) -> Result<ArithText, LexErr>>(
    quoted: bool,
    c: &mut Cursor<'_>,
    arith: &A,
) -> Result<ArithText, LexErr>
    requires { ReadsBelow (arith_at quoted) c.old.room (A.pre arith.now quoted) (A.post arith.now quoted) }
    ensures { Reads (parentheses_at quoted c.old.room) c.old result c.new }
{
    if !c.sees(b"(") {
        return Err(LexErr::NoParse);
    }
    let start = c.here();
    c.enter()?;
    let text = or_back!(c, start, parentheses_inside(quoted, c, arith));
    c.leave();
    Ok(text)
}

// The same, whose nesting is open.
#[tactic(auto, unfolding(eb_grammar::specs::ArithText::parentheses))]
fn parentheses_inside<A: Fn(bool, &mut Cursor<'_>) -> Result<ArithText, LexErr>>(
    quoted: bool,
    c: &mut Cursor<'_>,
    arith: &A,
) -> Result<ArithText, LexErr>
    requires { ReadsBelow (arith_at quoted) (c.old.room + 1) (A.pre arith.now quoted) (A.post arith.now quoted) }
    ensures { Reads (arith_text.parentheses quoted (rules_in (inside c.old.room))) c.old result c.new }
{
    let start = c.here();
    c.literal(b"(")?;
    let text = or_back!(c, start, arith(quoted, c));
    must!(c, start, c.eat(b")"));
    Ok(text)
}

// A part of the text of an expression.
#[tactic(auto, unfolding(eb_grammar::specs::ArithText::arith_piece))]
fn arith_piece<
    A: Fn(bool, &mut Cursor<'_>) -> Result<ArithText, LexErr>,
    D: Fn(bool, &mut Cursor<'_>) -> Result<Dollar, LexErr>,
    B: Fn(&mut Cursor<'_>) -> Result<Back, LexErr>,
>(quoted: bool, c: &mut Cursor<'_>, arith: &A, dollar: &D, back: &B) -> Result<AP, LexErr>
    requires texts { ReadsBelow (arith_at quoted) c.old.room (A.pre arith.now quoted) (A.post arith.now quoted) }
    requires dollars { ReadsBelow (dollar_at quoted) (c.old.room + 1) (D.pre dollar.now quoted) (D.post dollar.now quoted) }
    requires backs { ReadsBelow back_at (c.old.room + 1) (B.pre back.now) (B.post back.now) }
    ensures { Reads (arith_piece_at quoted c.old.room) c.old result c.new }
{
    if let Some(text) = attempt!(parentheses(quoted, c, arith)) {
        return Ok(AP::Group(text));
    }
    if let Some(found) = attempt!(dollar(quoted, c)) {
        return Ok(AP::Dollar(found));
    }
    if let Some(found) = attempt!(back(c)) {
        return Ok(AP::Back(found));
    }
    if lone(c) {
        return Ok(AP::Lone);
    }
    if let Some(byte) = backslash(c) {
        return Ok(AP::Escaped(byte));
    }
    match c.byte(Class::Arith) {
        Some(byte) => Ok(AP::Byte(byte)),
        None => Err(LexErr::NoParse),
    }
}

#[tactic(auto, using(bash_cursor::proofs::Turns::turn_go, bash_cursor::proofs::Turns::turn_no, bash_cursor::proofs::Turns::turn_deep, bash_cursor::proofs::Turns::turn_out))]
fn arith_pieces<
    A: Fn(bool, &mut Cursor<'_>) -> Result<ArithText, LexErr>,
    D: Fn(bool, &mut Cursor<'_>) -> Result<Dollar, LexErr>,
    B: Fn(&mut Cursor<'_>) -> Result<Back, LexErr>,
>(quoted: bool, c: &mut Cursor<'_>, arith: &A, dollar: &D, back: &B) -> Result<List<AP>, LexErr>
    requires texts { ReadsBelow (arith_at quoted) c.old.room (A.pre arith.now quoted) (A.post arith.now quoted) }
    requires dollars { ReadsBelow (dollar_at quoted) (c.old.room + 1) (D.pre dollar.now quoted) (D.post dollar.now quoted) }
    requires backs { ReadsBelow back_at (c.old.room + 1) (B.pre back.now) (B.post back.now) }
    ensures { Reads (many (arith_piece_at quoted c.old.room)) c.old result c.new }
{
    repeat!(c, arith_piece(quoted, c, arith, dollar, back))
}

/// The text of an expression, `quoted` inside double quotes and here-documents. What stands in parentheses is read by
/// `arith`, what is expanded by `dollar` and `back`.
#[tactic(auto, unfolding(eb_grammar::specs::ArithText::arith))]
pub fn arith_of<
    A: Fn(bool, &mut Cursor<'_>) -> Result<ArithText, LexErr>,
    D: Fn(bool, &mut Cursor<'_>) -> Result<Dollar, LexErr>,
    B: Fn(&mut Cursor<'_>) -> Result<Back, LexErr>,
>(quoted: bool, c: &mut Cursor<'_>, arith: &A, dollar: &D, back: &B) -> Result<ArithText, LexErr>
    requires texts { ReadsBelow (arith_at quoted) c.old.room (A.pre arith.now quoted) (A.post arith.now quoted) }
    requires dollars { ReadsBelow (dollar_at quoted) (c.old.room + 1) (D.pre dollar.now quoted) (D.post dollar.now quoted) }
    requires backs { ReadsBelow back_at (c.old.room + 1) (B.pre back.now) (B.post back.now) }
    ensures { Reads (arith_at quoted c.old.room) c.old result c.new }
{
    let start = c.here();
    let pieces = arith_pieces(quoted, c, arith, dollar, back)?;
    Ok(or_back!(c, start, shared(c.alloc(), pieces)))
}

// A part of an expression between semicolons.
#[tactic(auto, unfolding(eb_grammar::specs::Peg::word_of))]
fn arith_part_piece<
    A: Fn(bool, &mut Cursor<'_>) -> Result<ArithText, LexErr>,
    D: Fn(bool, &mut Cursor<'_>) -> Result<Dollar, LexErr>,
    B: Fn(&mut Cursor<'_>) -> Result<Back, LexErr>,
>(c: &mut Cursor<'_>, arith: &A, dollar: &D, back: &B) -> Result<AP, LexErr>
    requires texts { ReadsBelow (arith_at false) c.old.room (A.pre arith.now false) (A.post arith.now false) }
    requires dollars { ReadsBelow (dollar_at false) (c.old.room + 1) (D.pre dollar.now false) (D.post dollar.now false) }
    requires backs { ReadsBelow back_at (c.old.room + 1) (B.pre back.now) (B.post back.now) }
    ensures { Reads (arith_part_piece c.old.room) c.old result c.new }
{
    if c.sees(b";") {
        return Err(LexErr::NoParse);
    }
    arith_piece(false, c, arith, dollar, back)
}

#[tactic(auto, using(bash_cursor::proofs::Turns::turn_go, bash_cursor::proofs::Turns::turn_no, bash_cursor::proofs::Turns::turn_deep, bash_cursor::proofs::Turns::turn_out))]
fn arith_part_pieces<
    A: Fn(bool, &mut Cursor<'_>) -> Result<ArithText, LexErr>,
    D: Fn(bool, &mut Cursor<'_>) -> Result<Dollar, LexErr>,
    B: Fn(&mut Cursor<'_>) -> Result<Back, LexErr>,
>(c: &mut Cursor<'_>, arith: &A, dollar: &D, back: &B) -> Result<List<AP>, LexErr>
    requires texts { ReadsBelow (arith_at false) c.old.room (A.pre arith.now false) (A.post arith.now false) }
    requires dollars { ReadsBelow (dollar_at false) (c.old.room + 1) (D.pre dollar.now false) (D.post dollar.now false) }
    requires backs { ReadsBelow back_at (c.old.room + 1) (B.pre back.now) (B.post back.now) }
    ensures { Reads (many (arith_part_piece c.old.room)) c.old result c.new }
{
    repeat!(c, arith_part_piece(c, arith, dollar, back))
}

/// The text of one of the expressions of `for ((..;..;..))` ("Looping Constructs"). What stands in parentheses is read by
/// `arith`, what is expanded by `dollar` and `back`.
#[tactic(auto, unfolding(eb_grammar::specs::ArithText::arith_part))]
pub fn arith_part_of<
    A: Fn(bool, &mut Cursor<'_>) -> Result<ArithText, LexErr>,
    D: Fn(bool, &mut Cursor<'_>) -> Result<Dollar, LexErr>,
    B: Fn(&mut Cursor<'_>) -> Result<Back, LexErr>,
>(c: &mut Cursor<'_>, arith: &A, dollar: &D, back: &B) -> Result<ArithText, LexErr>
    requires texts { ReadsBelow (arith_at false) c.old.room (A.pre arith.now false) (A.post arith.now false) }
    requires dollars { ReadsBelow (dollar_at false) (c.old.room + 1) (D.pre dollar.now false) (D.post dollar.now false) }
    requires backs { ReadsBelow back_at (c.old.room + 1) (B.pre back.now) (B.post back.now) }
    ensures { Reads (arith_part_at c.old.room) c.old result c.new }
{
    let start = c.here();
    let pieces = arith_part_pieces(c, arith, dollar, back)?;
    Ok(or_back!(c, start, shared(c.alloc(), pieces)))
}
