//! The operators of conditions (Bash Reference Manual, "Bash Conditional Expressions").

ghost use Rattle.std.specs.Prelude.{◌≡◌};
ghost use Rattle.bash_cursor.specs.Reads.{Finds, Stands};
ghost use Rattle.eb_grammar.specs.Conditions as conditions;

use bash_cursor::Cursor;
use bash_reading::sees_blank;
use eb_grammar::Class;
use eb_syntax::BinOp;

// The operator of two texts or numbers, of which the first in this order that stands at the place is read.
#[tactic(auto, unfolding(eb_grammar::specs::Conditions::binary_word))]
fn binary_word(c: &mut Cursor<'_>) -> Option<BinOp>
    ensures { Finds conditions.binary_word c.old result c.new }
{
    if c.eat(b"==") {
        return Some(BinOp::DoubleEqual);
    }
    if c.eat(b"=") {
        return Some(BinOp::Equal);
    }
    if c.eat(b"!=") {
        return Some(BinOp::NotEqual);
    }
    if c.eat(b"<") {
        return Some(BinOp::Before);
    }
    if c.eat(b">") {
        return Some(BinOp::After);
    }
    if c.eat(b"-eq") {
        return Some(BinOp::NumberEqual);
    }
    if c.eat(b"-ne") {
        return Some(BinOp::NumberNotEqual);
    }
    if c.eat(b"-lt") {
        return Some(BinOp::NumberLess);
    }
    if c.eat(b"-le") {
        return Some(BinOp::NumberAtMost);
    }
    if c.eat(b"-gt") {
        return Some(BinOp::NumberGreater);
    }
    if c.eat(b"-ge") {
        return Some(BinOp::NumberAtLeast);
    }
    if c.eat(b"-nt") {
        return Some(BinOp::NewerFile);
    }
    if c.eat(b"-ot") {
        return Some(BinOp::OlderFile);
    }
    if c.eat(b"-ef") {
        return Some(BinOp::SameFile);
    }
    None
}

// The same, with a blank after it, which is not taken.
#[tactic(auto, unfolding(eb_grammar::specs::Conditions::binary_op))]
pub fn binary_op(c: &mut Cursor<'_>) -> Option<BinOp>
    ensures { Finds conditions.binary_op c.old result c.new }
{
    let start = c.here();
    let Some(which) = binary_word(c) else {
        return None;
    };
    if !sees_blank(c) {
        c.back_to(start);
        return None;
    }
    Some(which)
}

// Whether such an operator stands at the place.
pub fn sees_binary_op(c: &mut Cursor<'_>) -> bool
    ensures stands { Stands conditions.binary_op c.old result }
    ensures same { c.new ≡ c.old }
{
    let start = c.here();
    let Some(_) = binary_op(c) else {
        return false;
    };
    c.back_to(start);
    true
}

// `-` and a letter, with a blank after it, which is not taken: the letter.
#[tactic(auto, unfolding(eb_grammar::specs::Conditions::unary_op))]
pub fn unary_op(c: &mut Cursor<'_>) -> Option<u8>
    ensures { Finds conditions.unary_op c.old result c.new }
{
    let start = c.here();
    if !c.eat(b"-") {
        return None;
    }
    let Some(letter) = c.byte(Class::Letter) else {
        c.back_to(start);
        return None;
    };
    if !sees_blank(c) {
        c.back_to(start);
        return None;
    }
    Some(letter)
}
