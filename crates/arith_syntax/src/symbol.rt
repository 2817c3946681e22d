ghost use Rattle.std.specs.Prelude.{◌≡◌, ◌∷◌, Some};
ghost use Rattle.std.specs.Option.{option_map};
ghost use Rattle.arith_syntax.specs.Symbols.{first_of, signs, increments, symbols, pre_increment, post_increment, symbol_at};
ghost use Rattle.arith_syntax.specs.Tails.{assignable, comparing, doubling};

use crate::name::{after_blanks, begins_name};
use crate::operator::{BinaryOperator, Increment, Operator, Sign, Symbol};

/// The operator after an operand that the text begins with, blanks aside, and what follows it (Bash Reference Manual,
/// "Shell Arithmetic"). `++` or `--` before a variable is none.
pub(crate) fn symbol_at(text: &[u8]) -> Option<(Symbol, &[u8])>
    ensures { option_map (λ s. (s.0, s.1.now)) result ≡ symbol_at text.now }
{
    match pre_increment(text) {
        Some(_) => None,
        None => first_symbol(after_blanks(text)),
    }
}

/// The unary operator that the text begins with, and what follows it.
pub(crate) fn sign_at(text: &[u8]) -> Option<(Sign, &[u8])>
    ensures { option_map (λ s. (s.0, s.1.now)) result ≡ first_of signs text.now }
{
    match text {
        [b'!', rest @ ..] => Some((Sign::Not, rest)),
        [b'~', rest @ ..] => Some((Sign::Complement, rest)),
        [b'+', rest @ ..] => Some((Sign::Plus, rest)),
        [b'-', rest @ ..] => Some((Sign::Minus, rest)),
        _ => None,
    }
}

/// The `++` or `--` before a variable that the text begins with, blanks aside, and the text from the variable's name on.
/// Where no name follows, they are two signs.
pub(crate) fn pre_increment(text: &[u8]) -> Option<(Increment, &[u8])>
    ensures { option_map (λ s. (s.0, s.1.now)) result ≡ pre_increment text.now }
{
    let (increment, rest) = post_increment(text)?;
    let name = after_blanks(rest);
    if !begins_name(name) {
        return None;
    }
    Some((increment, name))
}

/// The `++` or `--` after a variable that the text begins with, blanks aside, and what follows it.
pub(crate) fn post_increment(text: &[u8]) -> Option<(Increment, &[u8])>
    ensures { option_map (λ s. (s.0, s.1.now)) result ≡ post_increment text.now }
{
    increment_at(after_blanks(text))
}

fn increment_at(text: &[u8]) -> Option<(Increment, &[u8])>
    ensures { option_map (λ s. (s.0, s.1.now)) result ≡ first_of increments text.now }
{
    match text {
        [b'+', b'+', rest @ ..] => Some((Increment::Up, rest)),
        [b'-', b'-', rest @ ..] => Some((Increment::Down, rest)),
        _ => None,
    }
}

fn first_symbol(text: &[u8]) -> Option<(Symbol, &[u8])>
    ensures { option_map (λ s. (s.0, s.1.now)) result ≡ first_of symbols text.now }
{
    match text {
        [] => None,
        [first, rest @ ..] => symbol_from(*first, rest),
    }
}

// The operator with this first byte, which the rest follows.
fn symbol_from(first: u8, rest: &[u8]) -> Option<(Symbol, &[u8])>
    ensures { option_map (λ s. (s.0, s.1.now)) result ≡ first_of symbols (first ∷ rest.now) }
{
    match first {
        b'*' => Some(doubled(b'*', Symbol::Power, Operator::Multiply, rest)),
        b'/' => Some(assigned(Operator::Divide, rest)),
        b'%' => Some(assigned(Operator::Remainder, rest)),
        b'+' => Some(assigned(Operator::Add, rest)),
        b'-' => Some(assigned(Operator::Subtract, rest)),
        b'^' => Some(assigned(Operator::BitXor, rest)),
        b'&' => Some(doubled(
            b'&',
            Symbol::Binary(BinaryOperator::And),
            Operator::BitAnd,
            rest,
        )),
        b'|' => Some(doubled(
            b'|',
            Symbol::Binary(BinaryOperator::Or),
            Operator::BitOr,
            rest,
        )),
        b'<' => Some(compared(
            b'<',
            Operator::ShiftLeft,
            Operator::LessOrEqual,
            Operator::Less,
            rest,
        )),
        b'>' => Some(compared(
            b'>',
            Operator::ShiftRight,
            Operator::GreaterOrEqual,
            Operator::Greater,
            rest,
        )),
        b'=' => Some(equals(rest)),
        b'!' => differs(rest),
        b'?' => Some((Symbol::Question, rest)),
        b':' => Some((Symbol::Colon, rest)),
        b',' => Some((Symbol::Binary(BinaryOperator::Comma), rest)),
        _ => None,
    }
}

// The operator, or the assignment by it where `=` follows.
fn assigned(operator: Operator, rest: &[u8]) -> (Symbol, &[u8])
    ensures { Some (result.0, result.1.now) ≡ first_of (assignable operator) rest.now }
{
    match rest {
        [b'=', rest @ ..] => (Symbol::Assign(Some(operator)), rest),
        _ => (Symbol::Binary(BinaryOperator::Both(operator)), rest),
    }
}

// What the mark is where it stands twice, or else the operator or the assignment by it.
fn doubled(mark: u8, double: Symbol, operator: Operator, rest: &[u8]) -> (Symbol, &[u8])
    ensures { Some (result.0, result.1.now) ≡ first_of (doubling mark double operator) rest.now }
{
    match rest {
        [next, rest @ ..] if *next == mark => (double, rest),
        _ => assigned(operator, rest),
    }
}

// A shift where the mark `<` or `>` stands twice, or else a comparison.
fn compared(
    mark: u8,
    shift: Operator,
    or_equal: Operator,
    plain: Operator,
    rest: &[u8],
) -> (Symbol, &[u8])
    ensures { Some (result.0, result.1.now) ≡ first_of (comparing mark shift or_equal plain) rest.now }
{
    match rest {
        [next, rest @ ..] if *next == mark => assigned(shift, rest),
        [b'=', rest @ ..] => (Symbol::Binary(BinaryOperator::Both(or_equal)), rest),
        _ => (Symbol::Binary(BinaryOperator::Both(plain)), rest),
    }
}

// What begins with `=`.
fn equals(rest: &[u8]) -> (Symbol, &[u8])
    ensures { Some (result.0, result.1.now) ≡ first_of symbols (61 ∷ rest.now) }
{
    match rest {
        [b'=', rest @ ..] => (Symbol::Binary(BinaryOperator::Both(Operator::Equal)), rest),
        _ => (Symbol::Assign(None), rest),
    }
}

// What begins with `!`.
fn differs(rest: &[u8]) -> Option<(Symbol, &[u8])>
    ensures { option_map (λ s. (s.0, s.1.now)) result ≡ first_of symbols (33 ∷ rest.now) }
{
    match rest {
        [b'=', rest @ ..] => Some((
            Symbol::Binary(BinaryOperator::Both(Operator::NotEqual)),
            rest,
        )),
        _ => None,
    }
}
