ghost use Rattle.std.specs.Prelude.{ℕ};
ghost use Rattle.arith_syntax.specs.Reading as spec;
ghost use Rattle.arith_syntax.specs.Putting.{Reads, inner};

use crate::constant::constant_at;
use crate::error::{ReadErr, Refusal};
use crate::instruction::Instruction;
use crate::name::{after_blanks, begins_name};
use crate::past::past_byte;
use crate::put::push;
use crate::reader::nesting::deeper;
use crate::reader::variables::variable_value;
use crate::reader::{ExpressionRead, value};
use crate::rule::Rule;
use byte_class::is_digit;
use std::alloc::Global;

// A text in parentheses, a variable or a constant.
#[cycle(reader)]
pub(crate) fn primary<'t>(
    alloc: Global,
    text: &'t [u8],
    nesting_left: u8,
    code: &mut Vec<Instruction<'t>>,
) -> Result<ExpressionRead<'t>, ReadErr>
    ensures { Reads nesting_left (spec.primary (inner nesting_left) text.now) code.old.items result code.new.items }
{
    let [first, after @ ..] = text else {
        return Err(ReadErr::Refused(Refusal::Syntax));
    };
    if *first == b'(' {
        parenthesized(alloc, after, nesting_left, code)
    } else if begins_name(text) {
        variable_value(alloc, text, nesting_left, code)
    } else if is_digit(*first) {
        constant(text, code)
    } else {
        Err(ReadErr::Refused(Refusal::Syntax))
    }
}

// What is between parentheses, after the first of them.
#[cycle(reader)]
fn parenthesized<'t>(
    alloc: Global,
    text: &'t [u8],
    nesting_left: u8,
    code: &mut Vec<Instruction<'t>>,
) -> Result<ExpressionRead<'t>, ReadErr>
    ensures { Reads nesting_left (spec.parenthesized (inner nesting_left) text.now) code.old.items result code.new.items }
{
    let read = deeper(alloc, Rule::Whole, text, nesting_left, code)?;
    let Some(after) = past_byte(b')', after_blanks(read.rest)) else {
        return Err(ReadErr::Refused(Refusal::Syntax));
    };
    Ok(ExpressionRead {
        rest: after,
        is_variable: read.is_variable,
    })
}

// A constant goes as far as bytes of constants stand.
fn constant<'t>(
    text: &'t [u8],
    code: &mut Vec<Instruction<'t>>,
) -> Result<ExpressionRead<'t>, ReadErr>
    ensures { (n : ℕ) → Reads n (spec.constant text.now) code.old.items result code.new.items }
{
    let (number, rest) = constant_at(text);
    let Some(number) = number else {
        return Err(ReadErr::Refused(Refusal::Syntax));
    };
    push(Instruction::Push(number), code)?;
    Ok(value(rest))
}
