ghost use Rattle.std.specs.Prelude.{◌<◌, ◌≤◌};
ghost use Rattle.arith_syntax.specs.Reading as spec;
ghost use Rattle.arith_syntax.specs.Putting.{Reads, ReadsRight, inner, side};

use crate::error::ReadErr;
use crate::instruction::Instruction;
use crate::operator::BinaryOperator;
use crate::past::binary_operator_at;
use crate::put::{push, push_skippable};
use crate::reader::assignments::assignment;
use crate::reader::unary_operators::power;
use crate::reader::{ExpressionRead, value};
use std::alloc::Global;

// Operands joined by operators of at most this level of precedence; by none at 0.
#[cycle(reader)]
pub(crate) fn binary<'t>(
    alloc: Global,
    level: u8,
    text: &'t [u8],
    nesting_left: u8,
    code: &mut Vec<Instruction<'t>>,
) -> Result<ExpressionRead<'t>, ReadErr>
    requires { level ≤ 10 }
    ensures { Reads nesting_left (spec.binary (inner nesting_left) level text.now) code.old.items result code.new.items }
{
    if level == 0 {
        power(alloc, text, nesting_left, code)
    } else {
        joined(alloc, level, text, nesting_left, code)
    }
}

// Operands of a level of precedence, joined from the left. Each operator takes a byte, so the number of bytes is enough
// turns.
#[cycle(reader)]
pub(crate) fn joined<'t>(
    alloc: Global,
    level: u8,
    text: &'t [u8],
    nesting_left: u8,
    code: &mut Vec<Instruction<'t>>,
) -> Result<ExpressionRead<'t>, ReadErr>
    requires low { 0 < level }
    requires high { level ≤ 11 }
    ensures { Reads nesting_left (spec.joined (side (inner nesting_left) level) level text.now) code.old.items result code.new.items }
{
    let mut left = operand_of(alloc, level, text, nesting_left, code)?;
    for _turn in 0..left.rest.len() {
        let Some((operator, after)) = binary_operator_at(level, left.rest) else {
            return Ok(left);
        };
        left = right_side(alloc, operator, level, after, nesting_left, code)?;
    }
    Ok(left)
}

// What the operators of a level of precedence stand between.
#[cycle(reader)]
fn operand_of<'t>(
    alloc: Global,
    level: u8,
    text: &'t [u8],
    nesting_left: u8,
    code: &mut Vec<Instruction<'t>>,
) -> Result<ExpressionRead<'t>, ReadErr>
    requires low { 0 < level }
    requires high { level ≤ 11 }
    ensures { Reads nesting_left (side (inner nesting_left) level text.now) code.old.items result code.new.items }
{
    if level == 11 {
        assignment(alloc, text, nesting_left, code)
    } else {
        binary(alloc, level - 1, text, nesting_left, code)
    }
}

// The right side of an operator. What `&&` and `||` may leave out is counted first.
#[cycle(reader)]
fn right_side<'t>(
    alloc: Global,
    operator: BinaryOperator,
    level: u8,
    text: &'t [u8],
    nesting_left: u8,
    code: &mut Vec<Instruction<'t>>,
) -> Result<ExpressionRead<'t>, ReadErr>
    requires low { 0 < level }
    requires high { level ≤ 11 }
    ensures { ReadsRight nesting_left operator (side (inner nesting_left) level text.now) code.old.items result code.new.items }
{
    match operator {
        BinaryOperator::Both(both) => {
            let right = operand_of(alloc, level, text, nesting_left, code)?;
            push(Instruction::Operate(both), code)?;
            Ok(value(right.rest))
        }
        BinaryOperator::Comma => {
            push(Instruction::Discard, code)?;
            let right = operand_of(alloc, level, text, nesting_left, code)?;
            Ok(value(right.rest))
        }
        BinaryOperator::Or | BinaryOperator::And => {
            let mut side = Vec::new(alloc);
            let right = operand_of(alloc, level, text, nesting_left, &mut side)?;
            push_skippable(operator, side, code)?;
            Ok(value(right.rest))
        }
    }
}
