//! What a dollar begins (Bash Reference Manual, "Shell Parameter Expansion", "Command Substitution" and "Arithmetic
//! Expansion").

ghost use Rattle.std.specs.Prelude.{◌+◌, Bool};
ghost use Rattle.bash_cursor.specs.Reads.{Finds, Reads, ReadsBelow};
ghost use Rattle.bash_lexer.specs.At.{arith_at, arith_expansion_at, dollar_at, dollar_byte, dollar_name, param_at, param_expansion_at, substitution_at};
ghost use Rattle.bash_reading.specs.At.{items_at};
ghost use Rattle.eb_grammar.specs.Grammar.{inside, rules_in};
ghost use Rattle.eb_grammar.specs.Words as words;

use bash_cursor::{Cursor, LexErr, name, or_back, or_remember};
use bash_reading::{attempt, must, shared};
use eb_bytes::Bytes;
use eb_grammar::Class;
use eb_syntax::{ArithText, Dollar, Items, Param};
use grammar_laws::Nesting;
use shared::Shared;

// `$((..))`, with the text read by `arith`.
#[tactic(auto, using(bash_cursor::proofs::Nesting::nest_no, bash_cursor::proofs::Nesting::nest_deep, bash_cursor::proofs::Nesting::nest_in))]
fn arith_expansion<A: Fn(bool, &mut Cursor<'_>) -> Result<ArithText, LexErr>>(
    quoted: bool,
    c: &mut Cursor<'_>,
    arith: &A,
) -> Result<ArithText, LexErr>
    requires { ReadsBelow (arith_at quoted) c.old.room (A.pre arith.now quoted) (A.post arith.now quoted) }
    ensures { Reads (arith_expansion_at quoted c.old.room) c.old result c.new }
{
    nested!(
        c,
        Nesting::Arithmetic { quoted },
        b"$((",
        arith_dollar(quoted, c, arith)
    )
}

// The same, whose nesting is open.
#[tactic(auto, unfolding(eb_grammar::specs::Words::arith_dollar))]
fn arith_dollar<A: Fn(bool, &mut Cursor<'_>) -> Result<ArithText, LexErr>>(
    quoted: bool,
    c: &mut Cursor<'_>,
    arith: &A,
) -> Result<ArithText, LexErr>
    requires { ReadsBelow (arith_at quoted) (c.old.room + 1) (A.pre arith.now quoted) (A.post arith.now quoted) }
    ensures { Reads (words.arith_dollar quoted (rules_in (inside c.old.room))) c.old result c.new }
{
    let start = c.here();
    c.literal(b"$((")?;
    let text = or_back!(c, start, arith(quoted, c));
    must!(c, start, c.eat(b"))"));
    Ok(text)
}

// `$(..)`, with the commands read by `items`.
#[tactic(auto, using(bash_cursor::proofs::Nesting::nest_no, bash_cursor::proofs::Nesting::nest_deep, bash_cursor::proofs::Nesting::nest_in))]
fn substitution<I: Fn(&mut Cursor<'_>) -> Result<Items, LexErr>>(
    c: &mut Cursor<'_>,
    items: &I,
) -> Result<Items, LexErr>
    requires { ReadsBelow items_at c.old.room (I.pre items.now) (I.post items.now) }
    ensures { Reads (substitution_at c.old.room) c.old result c.new }
{
    nested!(c, Nesting::Command, b"$(", commands(c, items))
}

// The same, whose nesting is open.
#[tactic(auto, unfolding(eb_grammar::specs::Words::substitution, eb_grammar::specs::Peg::word_of))]
fn commands<I: Fn(&mut Cursor<'_>) -> Result<Items, LexErr>>(
    c: &mut Cursor<'_>,
    items: &I,
) -> Result<Items, LexErr>
    requires { ReadsBelow items_at (c.old.room + 1) (I.pre items.now) (I.post items.now) }
    ensures { Reads (words.substitution (rules_in (inside c.old.room))) c.old result c.new }
{
    let start = c.here();
    c.literal(b"$(")?;
    if c.sees(b"(") {
        c.back_to(start);
        return Err(LexErr::NoParse);
    }
    let found = or_back!(c, start, items(c));
    must!(c, start, c.eat(b")"));
    Ok(found)
}

// `${..}`, read by `param`.
#[tactic(auto, using(bash_cursor::proofs::Nesting::nest_no, bash_cursor::proofs::Nesting::nest_deep, bash_cursor::proofs::Nesting::nest_in, crate::proofs::DollarForms::param_is))]
fn param_expansion<P: Fn(bool, &mut Cursor<'_>) -> Result<Param, LexErr>>(
    quoted: bool,
    c: &mut Cursor<'_>,
    param: &P,
) -> Result<Param, LexErr>
    requires { ReadsBelow (param_at quoted) c.old.room (P.pre param.now quoted) (P.post param.now quoted) }
    ensures { Reads (param_expansion_at quoted c.old.room) c.old result c.new }
{
    nested!(c, Nesting::Parameter { quoted }, b"${", param(quoted, c))
}

// The same, shared.
fn shared_param<P: Fn(bool, &mut Cursor<'_>) -> Result<Param, LexErr>>(
    quoted: bool,
    c: &mut Cursor<'_>,
    param: &P,
) -> Result<Shared<Param>, LexErr>
    requires { ReadsBelow (param_at quoted) c.old.room (P.pre param.now quoted) (P.post param.now quoted) }
    ensures { Reads (param_expansion_at quoted c.old.room) c.old result c.new }
{
    let start = c.here();
    let found = param_expansion(quoted, c, param)?;
    Ok(or_back!(c, start, shared(c.alloc(), found)))
}

// `$` and a name, which is given.
fn dollar_name(c: &mut Cursor<'_>) -> Result<Shared<Bytes>, LexErr>
    ensures { Reads dollar_name c.old result c.new }
{
    let start = c.here();
    c.literal(b"$")?;
    let called = or_back!(c, start, name(c));
    Ok(or_back!(c, start, shared(c.alloc(), called)))
}

// `$` and a byte of a class, which is given.
fn dollar_byte(class: Class, c: &mut Cursor<'_>) -> Option<u8>
    ensures { Finds (dollar_byte class) c.old result c.new }
{
    let start = c.here();
    if !c.eat(b"$") {
        return None;
    }
    match c.byte(class) {
        Some(byte) => Some(byte),
        None => {
            c.back_to(start);
            None
        }
    }
}

/// What a dollar begins, `quoted` inside double quotes and here-documents. What stands in it is read by `items`, `arith`
/// and `param`.
#[tactic(auto, using(crate::proofs::DollarForms::dollar_is))]
pub fn dollar_of<
    I: Fn(&mut Cursor<'_>) -> Result<Items, LexErr>,
    A: Fn(bool, &mut Cursor<'_>) -> Result<ArithText, LexErr>,
    P: Fn(bool, &mut Cursor<'_>) -> Result<Param, LexErr>,
>(quoted: bool, c: &mut Cursor<'_>, items: &I, arith: &A, param: &P) -> Result<Dollar, LexErr>
    requires commands { ReadsBelow items_at c.old.room (I.pre items.now) (I.post items.now) }
    requires texts { ReadsBelow (arith_at quoted) c.old.room (A.pre arith.now quoted) (A.post arith.now quoted) }
    requires params { ReadsBelow (param_at quoted) c.old.room (P.pre param.now quoted) (P.post param.now quoted) }
    ensures { Reads (dollar_at quoted c.old.room) c.old result c.new }
{
    if let Some(text) = attempt!(arith_expansion(quoted, c, arith)) {
        return Ok(Dollar::Arith(text));
    }
    if let Some(found) = attempt!(substitution(c, items)) {
        return Ok(Dollar::Command(found));
    }
    if let Some(found) = attempt!(shared_param(quoted, c, param)) {
        return Ok(Dollar::Param(found));
    }
    if let Some(called) = attempt!(dollar_name(c)) {
        return Ok(Dollar::Name(called));
    }
    if let Some(digit) = dollar_byte(Class::Digit, c) {
        return Ok(Dollar::Digit(digit));
    }
    match dollar_byte(Class::Special, c) {
        Some(byte) => Ok(Dollar::Special(byte)),
        None => Err(LexErr::NoParse),
    }
}
