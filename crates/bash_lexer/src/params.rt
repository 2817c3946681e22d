//! Parameters in braces (Bash Reference Manual, "Shell Parameter Expansion").

ghost use Rattle.std.specs.Prelude.{◌+◌, Bool, true};
ghost use Rattle.bash_cursor.specs.Reads.{Finds, Reads, ReadsBelow};
ghost use Rattle.bash_lexer.specs.At.{back_at, change_end, dollar_at, marked_param, names_end, param_at};
ghost use Rattle.bash_reading.specs.At.{piece_at, subscript_at};
ghost use Rattle.eb_grammar.specs.Grammar.{inside, rules_in};
ghost use Rattle.eb_grammar.specs.Params as params;

use crate::change::change_of;
use bash_cursor::{Cursor, LexErr, digits, name, or_back};
use bash_reading::{attempt, attempt_or_back, must};
use eb_grammar::Class;
use eb_syntax::{Back, Dollar, Op, Param, Piece, Ref, Sub};

// A name, and a subscript, if it stands there.
#[tactic(auto, unfolding(eb_grammar::specs::Params::named_ref))]
fn named_reference<S: Fn(&mut Cursor<'_>) -> Result<Sub, LexErr>>(
    c: &mut Cursor<'_>,
    subscript: &S,
) -> Result<Ref, LexErr>
    requires { ReadsBelow subscript_at (c.old.room + 1) (S.pre subscript.now) (S.post subscript.now) }
    ensures { Reads (params.named_ref (rules_in (inside c.old.room))) c.old result c.new }
{
    let start = c.here();
    let called = name(c)?;
    let index = attempt_or_back!(c, start, subscript(c));
    Ok(Ref::Name(called, index))
}

/// The parameter that is meant: a name with its subscript, read by `subscript`, digits, or a special parameter.
///
/// # Errors
/// `NoParse` exactly where none stands at the place, `TooDeep` exactly where its subscript opens more nestings than may be
/// open, `Memory` where there is no room for it. The cursor is as it was then.
#[tactic(auto, using(crate::proofs::References::reference_is))]
pub fn reference<S: Fn(&mut Cursor<'_>) -> Result<Sub, LexErr>>(
    c: &mut Cursor<'_>,
    subscript: &S,
) -> Result<Ref, LexErr>
    requires { ReadsBelow subscript_at (c.old.room + 1) (S.pre subscript.now) (S.post subscript.now) }
    ensures { Reads (params.ref (rules_in (inside c.old.room))) c.old result c.new }
{
    if let Some(found) = attempt!(named_reference(c, subscript)) {
        return Ok(found);
    }
    if let Some(number) = attempt!(digits(c)) {
        return Ok(Ref::Digits(number));
    }
    match c.byte(Class::Special) {
        Some(byte) => Ok(Ref::Special(byte)),
        None => Err(LexErr::NoParse),
    }
}

// `${#..}`
#[tactic(auto, unfolding(eb_grammar::specs::Params::length_param))]
pub fn length_param<S: Fn(&mut Cursor<'_>) -> Result<Sub, LexErr>>(
    c: &mut Cursor<'_>,
    subscript: &S,
) -> Result<Param, LexErr>
    requires { ReadsBelow subscript_at (c.old.room + 1) (S.pre subscript.now) (S.post subscript.now) }
    ensures { Reads (params.length_param (rules_in (inside c.old.room))) c.old result c.new }
{
    let start = c.here();
    c.literal(b"${#")?;
    let whose = or_back!(c, start, reference(c, subscript));
    must!(c, start, c.eat(b"}"));
    Ok(Param::Length(whose))
}

// `@}` or `*}`: the first of its bytes.
#[tactic(auto, unfolding(crate::specs::At::names_end))]
fn names_end(c: &mut Cursor<'_>) -> Option<u8>
    ensures { Finds names_end c.old result c.new }
{
    let start = c.here();
    let Some(how) = c.byte(Class::AllElements) else {
        return None;
    };
    if !c.eat(b"}") {
        c.back_to(start);
        return None;
    }
    Some(how)
}

// An operator, if one stands there, and `}`.
#[tactic(auto, unfolding(crate::specs::At::change_end))]
fn change_end<
    P: Fn(&mut Cursor<'_>) -> Result<Piece, LexErr>,
    D: Fn(bool, &mut Cursor<'_>) -> Result<Dollar, LexErr>,
    B: Fn(&mut Cursor<'_>) -> Result<Back, LexErr>,
>(quoted: bool, c: &mut Cursor<'_>, piece: &P, dollar: &D, back: &B) -> Result<Option<Op>, LexErr>
    requires pieces { ReadsBelow piece_at (c.old.room + 1) (P.pre piece.now) (P.post piece.now) }
    requires dollars { ReadsBelow (dollar_at quoted) (c.old.room + 1) (D.pre dollar.now quoted) (D.post dollar.now quoted) }
    requires quotes { ReadsBelow (dollar_at true) (c.old.room + 1) (D.pre dollar.now true) (D.post dollar.now true) }
    requires backs { ReadsBelow back_at (c.old.room + 1) (B.pre back.now) (B.post back.now) }
    ensures { Reads (change_end (rules_in (inside c.old.room)) quoted) c.old result c.new }
{
    let start = c.here();
    let how = attempt!(change_of(quoted, c, piece, dollar, back));
    must!(c, start, c.eat(b"}"));
    Ok(how)
}

// `${!..}`, whose parameter is read once.
#[tactic(auto, unfolding(crate::specs::At::marked_param))]
fn marked_param<
    S: Fn(&mut Cursor<'_>) -> Result<Sub, LexErr>,
    P: Fn(&mut Cursor<'_>) -> Result<Piece, LexErr>,
    D: Fn(bool, &mut Cursor<'_>) -> Result<Dollar, LexErr>,
    B: Fn(&mut Cursor<'_>) -> Result<Back, LexErr>,
>(
    quoted: bool,
    c: &mut Cursor<'_>,
    subscript: &S,
    piece: &P,
    dollar: &D,
    back: &B,
) -> Result<Param, LexErr>
    requires subscripts { ReadsBelow subscript_at (c.old.room + 1) (S.pre subscript.now) (S.post subscript.now) }
    requires pieces { ReadsBelow piece_at (c.old.room + 1) (P.pre piece.now) (P.post piece.now) }
    requires dollars { ReadsBelow (dollar_at quoted) (c.old.room + 1) (D.pre dollar.now quoted) (D.post dollar.now quoted) }
    requires quotes { ReadsBelow (dollar_at true) (c.old.room + 1) (D.pre dollar.now true) (D.post dollar.now true) }
    requires backs { ReadsBelow back_at (c.old.room + 1) (B.pre back.now) (B.post back.now) }
    ensures { Reads (marked_param (rules_in (inside c.old.room)) quoted) c.old result c.new }
{
    let start = c.here();
    c.literal(b"${!")?;
    let whose = or_back!(c, start, reference(c, subscript));
    if let Some(how) = names_end(c) {
        return Ok(Param::Names(whose, how));
    }
    let how = or_back!(c, start, change_end(quoted, c, piece, dollar, back));
    Ok(Param::Indirect(whose, how))
}

// `${..}`, the parameter's value.
#[tactic(auto, using(crate::proofs::Parameters::value_is))]
fn value_param<
    S: Fn(&mut Cursor<'_>) -> Result<Sub, LexErr>,
    P: Fn(&mut Cursor<'_>) -> Result<Piece, LexErr>,
    D: Fn(bool, &mut Cursor<'_>) -> Result<Dollar, LexErr>,
    B: Fn(&mut Cursor<'_>) -> Result<Back, LexErr>,
>(
    quoted: bool,
    c: &mut Cursor<'_>,
    subscript: &S,
    piece: &P,
    dollar: &D,
    back: &B,
) -> Result<Param, LexErr>
    requires subscripts { ReadsBelow subscript_at (c.old.room + 1) (S.pre subscript.now) (S.post subscript.now) }
    requires pieces { ReadsBelow piece_at (c.old.room + 1) (P.pre piece.now) (P.post piece.now) }
    requires dollars { ReadsBelow (dollar_at quoted) (c.old.room + 1) (D.pre dollar.now quoted) (D.post dollar.now quoted) }
    requires quotes { ReadsBelow (dollar_at true) (c.old.room + 1) (D.pre dollar.now true) (D.post dollar.now true) }
    requires backs { ReadsBelow back_at (c.old.room + 1) (B.pre back.now) (B.post back.now) }
    ensures { Reads (params.value_param (rules_in (inside c.old.room)) quoted) c.old result c.new }
{
    let start = c.here();
    c.literal(b"${")?;
    let whose = or_back!(c, start, reference(c, subscript));
    let how = or_back!(c, start, change_end(quoted, c, piece, dollar, back));
    Ok(Param::Value(whose, how))
}

/// A parameter in braces, `quoted` inside double quotes and here-documents. What stands in it is read by `subscript`,
/// `piece`, `dollar` and `back`.
#[tactic(auto, using(crate::proofs::Parameters::param_is))]
pub fn param_of<
    S: Fn(&mut Cursor<'_>) -> Result<Sub, LexErr>,
    P: Fn(&mut Cursor<'_>) -> Result<Piece, LexErr>,
    D: Fn(bool, &mut Cursor<'_>) -> Result<Dollar, LexErr>,
    B: Fn(&mut Cursor<'_>) -> Result<Back, LexErr>,
>(
    quoted: bool,
    c: &mut Cursor<'_>,
    subscript: &S,
    piece: &P,
    dollar: &D,
    back: &B,
) -> Result<Param, LexErr>
    requires subscripts { ReadsBelow subscript_at (c.old.room + 1) (S.pre subscript.now) (S.post subscript.now) }
    requires pieces { ReadsBelow piece_at (c.old.room + 1) (P.pre piece.now) (P.post piece.now) }
    requires dollars { ReadsBelow (dollar_at quoted) (c.old.room + 1) (D.pre dollar.now quoted) (D.post dollar.now quoted) }
    requires quotes { ReadsBelow (dollar_at true) (c.old.room + 1) (D.pre dollar.now true) (D.post dollar.now true) }
    requires backs { ReadsBelow back_at (c.old.room + 1) (B.pre back.now) (B.post back.now) }
    ensures { Reads (param_at quoted c.old.room) c.old result c.new }
{
    if let Some(found) = attempt!(length_param(c, subscript)) {
        return Ok(found);
    }
    if let Some(found) = attempt!(marked_param(quoted, c, subscript, piece, dollar, back)) {
        return Ok(found);
    }
    value_param(quoted, c, subscript, piece, dollar, back)
}
