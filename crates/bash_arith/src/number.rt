ghost use Rattle.std.specs.Prelude.{◌≡◌, ◌^◌, ◌%◌, ◌<◌, int_rem};
ghost use Rattle.std.specs.Int.{cast_unsigned, w64, int_wrapping_div};
ghost use Rattle.bash_arith.specs.Numbers as n;

use crate::error::ArithErr;
use arith_syntax::{Increment, Operator, Sign};

/// What an operator makes of the numbers on its sides.
///
/// # Errors
/// `DivZero` exactly where 0 is to divide.
pub(crate) fn operate(operator: Operator, left: i64, right: i64) -> Result<i64, ArithErr>
    ensures { result ≡ n.operated operator left right }
{
    match operator {
        Operator::BitOr => Ok(left | right),
        Operator::BitXor => Ok(left ^ right),
        Operator::BitAnd => Ok(left & right),
        Operator::Equal => Ok(truth(left == right)),
        Operator::NotEqual => Ok(truth(left != right)),
        Operator::Less => Ok(truth(left < right)),
        Operator::LessOrEqual => Ok(truth(left <= right)),
        Operator::Greater => Ok(truth(left > right)),
        Operator::GreaterOrEqual => Ok(truth(left >= right)),
        Operator::ShiftLeft => Ok(left.wrapping_shl(shift(right))),
        Operator::ShiftRight => Ok(left.wrapping_shr(shift(right))),
        Operator::Add => Ok(left.wrapping_add(right)),
        Operator::Subtract => Ok(left.wrapping_sub(right)),
        Operator::Multiply => Ok(left.wrapping_mul(right)),
        Operator::Divide => divide(left, right),
        Operator::Remainder => remainder(left, right),
    }
}

/// 1 for true, and 0 for false.
pub(crate) fn truth(is_so: bool) -> i64
    ensures { result ≡ n.truth is_so }
{
    if is_so { 1 } else { 0 }
}

pub(crate) fn is_zero(number: i64) -> bool
    ensures { result ≡ n.is_zero number }
{
    number == 0
}

// By how many bits a shift goes.
fn shift(count: i64) -> u32
    ensures value { result ≡ n.shift count }
    ensures within { result < 64 }
{
    (count.cast_unsigned() % 64) as u32
}

fn divide(left: i64, right: i64) -> Result<i64, ArithErr>
    ensures { result ≡ n.unless_zero right (int_wrapping_div w64 left right) }
{
    if is_zero(right) {
        return Err(ArithErr::DivZero);
    }
    Ok(left.wrapping_div(right))
}

fn remainder(left: i64, right: i64) -> Result<i64, ArithErr>
    ensures { result ≡ n.unless_zero right (int_rem left right) }
{
    if is_zero(right) {
        return Err(ArithErr::DivZero);
    }
    Ok(left.wrapping_rem(right))
}

/// What a unary operator makes of a number.
pub(crate) fn sign(sign: Sign, number: i64) -> i64
    ensures { result ≡ n.signed sign number }
{
    match sign {
        Sign::Not => truth(is_zero(number)),
        Sign::Complement => !number,
        Sign::Plus => number,
        Sign::Minus => number.wrapping_neg(),
    }
}

/// The number after an increment or a decrement.
pub(crate) fn incremented(increment: Increment, number: i64) -> i64
    ensures { result ≡ n.incremented increment number }
{
    match increment {
        Increment::Up => number.wrapping_add(1),
        Increment::Down => number.wrapping_sub(1),
    }
}

/// A power.
///
/// # Errors
/// `NegativeExponent` exactly where the exponent is below 0.
pub(crate) fn raise(base: i64, exponent: i64) -> Result<i64, ArithErr>
    ensures { result ≡ n.raised base exponent }
{
    if exponent < 0 {
        return Err(ArithErr::NegativeExponent);
    }
    Ok(power(base.cast_unsigned(), exponent.cast_unsigned()).cast_signed())
}

// A power, modulo 2^64.
fn power(base: u64, exponent: u64) -> u64
    ensures { result ≡ (base ^ exponent) % 2 ^ 64 }
{
    let mut power: u64 = 1;
    let mut square = base;
    let mut left = exponent;
    while 0 < left {
        if left % 2 == 1 {
            power = power.wrapping_mul(square);
        }
        square = square.wrapping_mul(square);
        left /= 2;
    }
    power
}
