ghost use Rattle.arith_syntax.specs.Reading as spec;
ghost use Rattle.arith_syntax.specs.Putting.{Reads, inner};

use crate::error::ReadErr;
use crate::instruction::Instruction;
use crate::name::after_blanks;
use crate::past::begins;
use crate::put::push;
use crate::reader::binary_operators::joined;
use crate::reader::{ExpressionRead, value};
use std::alloc::Global;

// Assignments with commas between them.
#[cycle(reader)]
pub(crate) fn whole<'t>(
    alloc: Global,
    text: &'t [u8],
    nesting_left: u8,
    code: &mut Vec<Instruction<'t>>,
) -> Result<ExpressionRead<'t>, ReadErr>
    ensures { Reads nesting_left (spec.whole (inner nesting_left) text.now) code.old.items result code.new.items }
{
    joined(alloc, 11, text, nesting_left, code)
}

// A subscript, which may be empty.
#[cycle(reader)]
pub(crate) fn subscript<'t>(
    alloc: Global,
    text: &'t [u8],
    nesting_left: u8,
    code: &mut Vec<Instruction<'t>>,
) -> Result<ExpressionRead<'t>, ReadErr>
    ensures { Reads nesting_left (spec.subscript (inner nesting_left) text.now) code.old.items result code.new.items }
{
    if begins(b']', after_blanks(text)) {
        push(Instruction::Push(0), code)?;
        return Ok(value(text));
    }
    whole(alloc, text, nesting_left, code)
}
