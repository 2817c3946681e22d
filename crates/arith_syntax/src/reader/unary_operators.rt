ghost use Rattle.arith_syntax.specs.Reading as spec;
ghost use Rattle.arith_syntax.specs.Putting.{Reads, inner};
ghost use Rattle.arith_syntax.specs.Symbols.{first_of, signs};

use crate::error::ReadErr;
use crate::instruction::Instruction;
use crate::name::after_blanks;
use crate::past::past_power;
use crate::put::push;
use crate::reader::nesting::deeper;
use crate::reader::primaries::primary;
use crate::reader::{ExpressionRead, value};
use crate::rule::Rule;
use crate::symbol::{pre_increment, sign_at};
use std::alloc::Global;

#[cycle(reader)]
pub(crate) fn power<'t>(
    alloc: Global,
    text: &'t [u8],
    nesting_left: u8,
    code: &mut Vec<Instruction<'t>>,
) -> Result<ExpressionRead<'t>, ReadErr>
    ensures { Reads nesting_left (spec.power (inner nesting_left) text.now) code.old.items result code.new.items }
{
    let base = operand(alloc, text, nesting_left, code)?;
    let Some(after) = past_power(base.rest) else {
        return Ok(base);
    };
    let exponent = deeper(alloc, Rule::Power, after, nesting_left, code)?;
    push(Instruction::Raise, code)?;
    Ok(value(exponent.rest))
}

// A primary, after any unary operators.
#[cycle(reader)]
pub(crate) fn operand<'t>(
    alloc: Global,
    text: &'t [u8],
    nesting_left: u8,
    code: &mut Vec<Instruction<'t>>,
) -> Result<ExpressionRead<'t>, ReadErr>
    ensures { Reads nesting_left (spec.operand (inner nesting_left) text.now) code.old.items result code.new.items }
{
    if let Some((increment, after)) = pre_increment(text) {
        return deeper(
            alloc,
            Rule::PreIncrement(increment),
            after,
            nesting_left,
            code,
        );
    }
    signed(alloc, after_blanks(text), nesting_left, code)
}

#[cycle(reader)]
fn signed<'t>(
    alloc: Global,
    text: &'t [u8],
    nesting_left: u8,
    code: &mut Vec<Instruction<'t>>,
) -> Result<ExpressionRead<'t>, ReadErr>
    ensures { Reads nesting_left (spec.signed (inner nesting_left) text.now (first_of signs text.now)) code.old.items result code.new.items }
{
    let Some((sign, after)) = sign_at(text) else {
        return primary(alloc, text, nesting_left, code);
    };
    let read = deeper(alloc, Rule::Operand, after, nesting_left, code)?;
    push(Instruction::Sign(sign), code)?;
    Ok(value(read.rest))
}
