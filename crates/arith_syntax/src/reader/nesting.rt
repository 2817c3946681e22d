ghost use Rattle.arith_syntax.specs.Reading as spec;
ghost use Rattle.arith_syntax.specs.Putting.{Reads, inner};

use crate::error::{ReadErr, Refusal};
use crate::instruction::Instruction;
use crate::reader::assignments::{assignment, conditional};
use crate::reader::expressions::{subscript, whole};
use crate::reader::unary_operators::{operand, power};
use crate::reader::variables::pre_incremented;
use crate::reader::{ExpressionRead, value};
use crate::rule::Rule;
use std::alloc::Global;

// What is one nesting deeper.
#[cycle(reader)]
pub(crate) fn deeper<'t>(
    alloc: Global,
    rule: Rule,
    text: &'t [u8],
    nesting_left: u8,
    code: &mut Vec<Instruction<'t>>,
) -> Result<ExpressionRead<'t>, ReadErr>
    ensures { Reads nesting_left (inner nesting_left rule text.now) code.old.items result code.new.items }
{
    if nesting_left == 0 {
        return Err(ReadErr::Refused(Refusal::Nesting));
    }
    let read = by_rule(alloc, rule, text, nesting_left - 1, code)?;
    Ok(value(read.rest))
}

#[cycle(reader)]
fn by_rule<'t>(
    alloc: Global,
    rule: Rule,
    text: &'t [u8],
    nesting_left: u8,
    code: &mut Vec<Instruction<'t>>,
) -> Result<ExpressionRead<'t>, ReadErr>
    ensures { Reads nesting_left (spec.by_rule (inner nesting_left) rule text.now) code.old.items result code.new.items }
{
    match rule {
        Rule::Whole => whole(alloc, text, nesting_left, code),
        Rule::Subscript => subscript(alloc, text, nesting_left, code),
        Rule::Assignment => assignment(alloc, text, nesting_left, code),
        Rule::Conditional => conditional(alloc, text, nesting_left, code),
        Rule::Power => power(alloc, text, nesting_left, code),
        Rule::Operand => operand(alloc, text, nesting_left, code),
        Rule::PreIncrement(increment) => pre_incremented(
            alloc,
            increment,
            text,
            nesting_left,
            code,
        ),
    }
}
