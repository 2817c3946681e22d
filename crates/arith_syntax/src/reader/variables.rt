ghost use Rattle.arith_syntax.specs.Reading as spec;
ghost use Rattle.arith_syntax.specs.Putting.{Reads, ReadsVariable, inner};

use crate::error::{ReadErr, Refusal};
use crate::instruction::{Instruction, VariableRef};
use crate::name::{Name, after_blanks, name_at};
use crate::operator::{Increment, Timing};
use crate::past::past_byte;
use crate::put::push;
use crate::reader::nesting::deeper;
use crate::reader::{ExpressionRead, VariableRead, value};
use crate::rule::Rule;
use crate::symbol::post_increment;
use std::alloc::Global;

// The value of a variable, incremented or decremented where `++` or `--` follows it.
#[cycle(reader)]
pub(crate) fn variable_value<'t>(
    alloc: Global,
    text: &'t [u8],
    nesting_left: u8,
    code: &mut Vec<Instruction<'t>>,
) -> Result<ExpressionRead<'t>, ReadErr>
    ensures { Reads nesting_left (spec.variable_value (inner nesting_left) text.now) code.old.items result code.new.items }
{
    let named = variable(alloc, text, nesting_left, code)?;
    match post_increment(named.rest) {
        Some((increment, after)) => {
            push(
                Instruction::Increment(Timing::Post, increment, named.variable),
                code,
            )?;
            Ok(value(after))
        }
        None => {
            push(Instruction::Fetch(named.variable), code)?;
            Ok(ExpressionRead {
                rest: named.rest,
                is_variable: true,
            })
        }
    }
}

// A variable after `++` or `--`. One that follows it binds more tightly, and leaves no variable for the first.
#[cycle(reader)]
pub(crate) fn pre_incremented<'t>(
    alloc: Global,
    increment: Increment,
    text: &'t [u8],
    nesting_left: u8,
    code: &mut Vec<Instruction<'t>>,
) -> Result<ExpressionRead<'t>, ReadErr>
    ensures { Reads nesting_left (spec.pre_incremented (inner nesting_left) increment text.now) code.old.items result code.new.items }
{
    let named = variable(alloc, text, nesting_left, code)?;
    match post_increment(named.rest) {
        Some(_) => Err(ReadErr::Refused(Refusal::Syntax)),
        None => {
            push(
                Instruction::Increment(Timing::Pre, increment, named.variable),
                code,
            )?;
            Ok(value(named.rest))
        }
    }
}

// A name, with its subscript where a `[` follows right after it.
#[cycle(reader)]
fn variable<'t>(
    alloc: Global,
    text: &'t [u8],
    nesting_left: u8,
    code: &mut Vec<Instruction<'t>>,
) -> Result<VariableRead<'t>, ReadErr>
    ensures { ReadsVariable nesting_left (spec.variable (inner nesting_left) text.now) code.old.items result code.new.items }
{
    let Some((name, after)) = name_at(text) else {
        return Err(ReadErr::Refused(Refusal::Syntax));
    };
    let name = Name::of(name);
    let Some(inside) = past_byte(b'[', after) else {
        return Ok(VariableRead {
            variable: VariableRef {
                name,
                has_subscript: false,
                nesting_left,
            },
            rest: after,
        });
    };
    let subscript = deeper(alloc, Rule::Subscript, inside, nesting_left, code)?;
    let Some(after) = past_byte(b']', after_blanks(subscript.rest)) else {
        return Err(ReadErr::Refused(Refusal::Syntax));
    };
    Ok(VariableRead {
        variable: VariableRef {
            name,
            has_subscript: true,
            nesting_left,
        },
        rest: after,
    })
}
