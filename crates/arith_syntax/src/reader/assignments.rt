ghost use Rattle.arith_syntax.specs.Reading as spec;
ghost use Rattle.arith_syntax.specs.Putting.{Reads, inner};

use crate::error::{ReadErr, Refusal};
use crate::instruction::Instruction;
use crate::past::{past_assign, past_colon, past_question};
use crate::put::{push_chosen, push_load, push_store, take_variable};
use crate::reader::binary_operators::binary;
use crate::reader::nesting::deeper;
use crate::reader::{ExpressionRead, value};
use crate::rule::Rule;
use std::alloc::Global;

#[cycle(reader)]
pub(crate) fn assignment<'t>(
    alloc: Global,
    text: &'t [u8],
    nesting_left: u8,
    code: &mut Vec<Instruction<'t>>,
) -> Result<ExpressionRead<'t>, ReadErr>
    ensures { Reads nesting_left (spec.assignment (inner nesting_left) text.now) code.old.items result code.new.items }
{
    let target = conditional(alloc, text, nesting_left, code)?;
    let Some((by, after)) = past_assign(target.rest) else {
        return Ok(target);
    };
    let Some(variable) = take_variable(target.is_variable, code) else {
        return Err(ReadErr::Refused(Refusal::Syntax));
    };
    push_load(by, &variable, code)?;
    let right = deeper(alloc, Rule::Assignment, after, nesting_left, code)?;
    push_store(by, variable, code)?;
    Ok(value(right.rest))
}

#[cycle(reader)]
pub(crate) fn conditional<'t>(
    alloc: Global,
    text: &'t [u8],
    nesting_left: u8,
    code: &mut Vec<Instruction<'t>>,
) -> Result<ExpressionRead<'t>, ReadErr>
    ensures { Reads nesting_left (spec.conditional (inner nesting_left) text.now) code.old.items result code.new.items }
{
    let condition = binary(alloc, 10, text, nesting_left, code)?;
    let Some(after) = past_question(condition.rest) else {
        return Ok(condition);
    };
    let mut middle = Vec::new(alloc);
    let read = deeper(alloc, Rule::Whole, after, nesting_left, &mut middle)?;
    let Some(after) = past_colon(read.rest) else {
        return Err(ReadErr::Refused(Refusal::Syntax));
    };
    let mut last = Vec::new(alloc);
    let read = deeper(alloc, Rule::Conditional, after, nesting_left, &mut last)?;
    push_chosen(middle, last, code)?;
    Ok(value(read.rest))
}
