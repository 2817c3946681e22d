//! The operators of a parameter (Bash Reference Manual, "Shell Parameter Expansion").

ghost use Rattle.std.specs.Prelude.{◌+◌, Bool, true};
ghost use Rattle.bash_cursor.specs.Reads.{Finds, Reads, ReadsBelow};
ghost use Rattle.bash_lexer.specs.At.{back_at, dollar_at, transform};
ghost use Rattle.bash_reading.specs.At.{piece_at};
ghost use Rattle.eb_grammar.specs.Grammar.{inside, rules_in};
ghost use Rattle.eb_grammar.specs.Params as params;
ghost use Rattle.eb_grammar.specs.Peg.{many};

use crate::slices::slice;
use crate::texts::{pattern, quoted_text, text};
use bash_cursor::{Cursor, LexErr, case_op, or_back, replace_op, strip_op, value_op};
use bash_reading::{attempt, attempt_or_back};
use eb_grammar::Class;
use eb_syntax::{Back, Dollar, Op, PW, Piece};
use shared::Shared;
use sqlite_items::Items as List;

// `#` and its kin, and the pattern after it.
#[tactic(auto, unfolding(eb_grammar::specs::Params::strip_change))]
pub fn strip_change<P: Fn(&mut Cursor<'_>) -> Result<Piece, LexErr>>(
    c: &mut Cursor<'_>,
    piece: &P,
) -> Result<Op, LexErr>
    requires { ReadsBelow piece_at (c.old.room + 1) (P.pre piece.now) (P.post piece.now) }
    ensures { Reads (params.strip_change (rules_in (inside c.old.room))) c.old result c.new }
{
    let start = c.here();
    let Some(which) = strip_op(c) else {
        return Err(LexErr::NoParse);
    };
    let found = or_back!(c, start, text(c, piece));
    Ok(Op::Strip(which, found))
}

// `/` and the text that replaces a match.
#[tactic(auto, unfolding(eb_grammar::specs::Params::replacement))]
fn replacement<P: Fn(&mut Cursor<'_>) -> Result<Piece, LexErr>>(
    c: &mut Cursor<'_>,
    piece: &P,
) -> Result<Shared<List<PW>>, LexErr>
    requires { ReadsBelow piece_at (c.old.room + 1) (P.pre piece.now) (P.post piece.now) }
    ensures { Reads (params.replacement (rules_in (inside c.old.room))) c.old result c.new }
{
    let start = c.here();
    c.literal(b"/")?;
    Ok(or_back!(c, start, text(c, piece)))
}

// `/` and its kin, the pattern after it, and what replaces a match, where it is given.
#[tactic(auto, unfolding(eb_grammar::specs::Params::replace_change))]
pub fn replace_change<P: Fn(&mut Cursor<'_>) -> Result<Piece, LexErr>>(
    c: &mut Cursor<'_>,
    piece: &P,
) -> Result<Op, LexErr>
    requires { ReadsBelow piece_at (c.old.room + 1) (P.pre piece.now) (P.post piece.now) }
    ensures { Reads (params.replace_change (rules_in (inside c.old.room))) c.old result c.new }
{
    let start = c.here();
    let Some(which) = replace_op(c) else {
        return Err(LexErr::NoParse);
    };
    let found = or_back!(c, start, pattern(c, piece));
    let other = attempt_or_back!(c, start, replacement(c, piece));
    Ok(Op::Replace(which, found, other))
}

// `^` and its kin, and the pattern after it.
#[tactic(auto, unfolding(eb_grammar::specs::Params::case_change))]
pub fn case_change<P: Fn(&mut Cursor<'_>) -> Result<Piece, LexErr>>(
    c: &mut Cursor<'_>,
    piece: &P,
) -> Result<Op, LexErr>
    requires { ReadsBelow piece_at (c.old.room + 1) (P.pre piece.now) (P.post piece.now) }
    ensures { Reads (params.case_change (rules_in (inside c.old.room))) c.old result c.new }
{
    let start = c.here();
    let Some(which) = case_op(c) else {
        return Err(LexErr::NoParse);
    };
    let found = or_back!(c, start, text(c, piece));
    Ok(Op::Case(which, found))
}

// `@` and a letter, which is given.
pub fn transform(c: &mut Cursor<'_>) -> Option<u8>
    ensures { Finds transform c.old result c.new }
{
    let start = c.here();
    if !c.eat(b"@") {
        return None;
    }
    match c.byte(Class::Letter) {
        Some(letter) => Some(letter),
        None => {
            c.back_to(start);
            None
        }
    }
}

// The text after an operator of values.
fn value_text<
    P: Fn(&mut Cursor<'_>) -> Result<Piece, LexErr>,
    D: Fn(bool, &mut Cursor<'_>) -> Result<Dollar, LexErr>,
    B: Fn(&mut Cursor<'_>) -> Result<Back, LexErr>,
>(
    quoted: bool,
    c: &mut Cursor<'_>,
    piece: &P,
    dollar: &D,
    back: &B,
) -> Result<Shared<List<PW>>, LexErr>
    requires pieces { ReadsBelow piece_at (c.old.room + 1) (P.pre piece.now) (P.post piece.now) }
    requires quotes { ReadsBelow (dollar_at true) (c.old.room + 1) (D.pre dollar.now true) (D.post dollar.now true) }
    requires backs { ReadsBelow back_at (c.old.room + 1) (B.pre back.now) (B.post back.now) }
    ensures { Reads (many (params.value_piece (rules_in (inside c.old.room)) quoted)) c.old result c.new }
{
    if quoted {
        quoted_text(c, dollar, back)
    } else {
        text(c, piece)
    }
}

// `:-` and its kin, and the text after it.
#[tactic(auto, unfolding(eb_grammar::specs::Params::value_change))]
fn value_change<
    P: Fn(&mut Cursor<'_>) -> Result<Piece, LexErr>,
    D: Fn(bool, &mut Cursor<'_>) -> Result<Dollar, LexErr>,
    B: Fn(&mut Cursor<'_>) -> Result<Back, LexErr>,
>(quoted: bool, c: &mut Cursor<'_>, piece: &P, dollar: &D, back: &B) -> Result<Op, LexErr>
    requires pieces { ReadsBelow piece_at (c.old.room + 1) (P.pre piece.now) (P.post piece.now) }
    requires quotes { ReadsBelow (dollar_at true) (c.old.room + 1) (D.pre dollar.now true) (D.post dollar.now true) }
    requires backs { ReadsBelow back_at (c.old.room + 1) (B.pre back.now) (B.post back.now) }
    ensures { Reads (params.value_change (rules_in (inside c.old.room)) quoted) c.old result c.new }
{
    let start = c.here();
    let Some(which) = value_op(c) else {
        return Err(LexErr::NoParse);
    };
    let found = or_back!(c, start, value_text(quoted, c, piece, dollar, back));
    Ok(Op::Value(which, found))
}

/// The operator of a parameter, `quoted` inside double quotes and here-documents, with its text read by `piece`, `dollar`
/// and `back`.
#[tactic(auto, unfolding(eb_grammar::specs::Params::change))]
pub fn change_of<
    P: Fn(&mut Cursor<'_>) -> Result<Piece, LexErr>,
    D: Fn(bool, &mut Cursor<'_>) -> Result<Dollar, LexErr>,
    B: Fn(&mut Cursor<'_>) -> Result<Back, LexErr>,
>(quoted: bool, c: &mut Cursor<'_>, piece: &P, dollar: &D, back: &B) -> Result<Op, LexErr>
    requires pieces { ReadsBelow piece_at (c.old.room + 1) (P.pre piece.now) (P.post piece.now) }
    requires dollars { ReadsBelow (dollar_at quoted) (c.old.room + 1) (D.pre dollar.now quoted) (D.post dollar.now quoted) }
    requires quotes { ReadsBelow (dollar_at true) (c.old.room + 1) (D.pre dollar.now true) (D.post dollar.now true) }
    requires backs { ReadsBelow back_at (c.old.room + 1) (B.pre back.now) (B.post back.now) }
    ensures { Reads (params.change (rules_in (inside c.old.room)) quoted) c.old result c.new }
{
    if let Some(found) = attempt!(value_change(quoted, c, piece, dollar, back)) {
        return Ok(found);
    }
    if let Some(found) = attempt!(strip_change(c, piece)) {
        return Ok(found);
    }
    if let Some(found) = attempt!(replace_change(c, piece)) {
        return Ok(found);
    }
    if let Some(found) = attempt!(case_change(c, piece)) {
        return Ok(found);
    }
    if let Some(letter) = transform(c) {
        return Ok(Op::Transform(letter));
    }
    slice(quoted, c, dollar, back)
}
