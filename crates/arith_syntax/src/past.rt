ghost use Rattle.std.specs.Prelude.{◌≡◌};
ghost use Rattle.std.specs.Option.{option_map};
ghost use Rattle.arith_syntax.specs.Names.{after_blanks};
ghost use Rattle.arith_syntax.specs.Symbols.{precedence, symbol_at};
ghost use Rattle.arith_syntax.specs.Reading.{begins, ends, binary_operator_at};
ghost use Rattle.arith_syntax.specs.Putting.{past, past_assign, past_byte, past_colon, past_power, past_question};

use crate::name::after_blanks;
use crate::operator::{BinaryOperator, Operator, Symbol};
use crate::symbol::symbol_at;

#[tactic(auto, unfolding(crate::specs::Reading::binary_operator_at))]
pub(crate) fn binary_operator_at(level: u8, text: &[u8]) -> Option<(BinaryOperator, &[u8])>
    ensures { option_map (λ j. (j.0, j.1.now)) result ≡ binary_operator_at level text.now }
{
    match symbol_at(text) {
        Some((Symbol::Binary(operator), after)) if precedence(operator) == level => Some((
            operator, after,
        )),
        _ => None,
    }
}

// The precedence of a binary operator, from 1 for the tightest to 11 for the loosest.
pub(crate) fn precedence(operator: BinaryOperator) -> u8
    ensures { result ≡ precedence operator }
{
    match operator {
        BinaryOperator::Comma => 11,
        BinaryOperator::Or => 10,
        BinaryOperator::And => 9,
        BinaryOperator::Both(Operator::BitOr) => 8,
        BinaryOperator::Both(Operator::BitXor) => 7,
        BinaryOperator::Both(Operator::BitAnd) => 6,
        BinaryOperator::Both(Operator::Equal | Operator::NotEqual) => 5,
        BinaryOperator::Both(
            Operator::Less | Operator::LessOrEqual | Operator::Greater | Operator::GreaterOrEqual,
        ) => 4,
        BinaryOperator::Both(Operator::ShiftLeft | Operator::ShiftRight) => 3,
        BinaryOperator::Both(Operator::Add | Operator::Subtract) => 2,
        BinaryOperator::Both(Operator::Multiply | Operator::Divide | Operator::Remainder) => 1,
    }
}

pub(crate) fn past_power(text: &[u8]) -> Option<&[u8]>
    ensures { option_map (λ u. u.now) result ≡ past past_power (symbol_at text.now) }
{
    match symbol_at(text) {
        Some((Symbol::Power, after)) => Some(after),
        _ => None,
    }
}

pub(crate) fn past_question(text: &[u8]) -> Option<&[u8]>
    ensures { option_map (λ u. u.now) result ≡ past past_question (symbol_at text.now) }
{
    match symbol_at(text) {
        Some((Symbol::Question, after)) => Some(after),
        _ => None,
    }
}

pub(crate) fn past_colon(text: &[u8]) -> Option<&[u8]>
    ensures { option_map (λ u. u.now) result ≡ past past_colon (symbol_at text.now) }
{
    match symbol_at(text) {
        Some((Symbol::Colon, after)) => Some(after),
        _ => None,
    }
}

pub(crate) fn past_assign(text: &[u8]) -> Option<(Option<Operator>, &[u8])>
    ensures { option_map (λ a. (a.0, a.1.now)) result ≡ past past_assign (symbol_at text.now) }
{
    match symbol_at(text) {
        Some((Symbol::Assign(by), after)) => Some((by, after)),
        _ => None,
    }
}

pub(crate) fn past_byte(byte: u8, text: &[u8]) -> Option<&[u8]>
    ensures { option_map (λ u. u.now) result ≡ past_byte byte text.now }
{
    match text {
        [first, after @ ..] if *first == byte => Some(after),
        _ => None,
    }
}

pub(crate) fn begins(byte: u8, text: &[u8]) -> bool
    ensures { result ≡ begins byte text.now }
{
    match text {
        [first, ..] => *first == byte,
        [] => false,
    }
}

pub(crate) fn is_blank(text: &[u8]) -> bool
    ensures { result ≡ ends (after_blanks text.now) }
{
    after_blanks(text).is_empty()
}
