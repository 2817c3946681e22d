ghost use Rattle.std.specs.Prelude.{◌≡◌, Ok, Err, false, IfOk};
ghost use Rattle.arith_syntax.specs.declared.error.Refusal.{Refusal};
ghost use Rattle.arith_syntax.specs.Code.{program};

mod assignments;
mod binary_operators;
mod expressions;
mod nesting;
mod primaries;
mod unary_operators;
mod variables;

use crate::error::{ReadErr, Refusal};
use crate::instruction::{Instruction, VariableRef};
use crate::past::is_blank;
use crate::put::push;
use crate::reader::expressions::whole;
use std::alloc::Global;

/// What follows an expression, and whether the expression is a variable alone, whose last instruction is then the one
/// that fetches it.
#[derive(Clone, Copy)]
pub(crate) struct ExpressionRead<'t> {
    pub(crate) rest: &'t [u8],
    pub(crate) is_variable: bool,
}

/// A variable, and what follows it.
#[derive(Drop)]
pub(crate) struct VariableRead<'t> {
    pub(crate) variable: VariableRef<'t>,
    pub(crate) rest: &'t [u8],
}

/// The instructions for an expression without double quotes, in which at most `nesting_left` nestings are open at once
/// (Bash Reference Manual, "Shell Arithmetic"). A text of blanks is 0. The names of variables are borrowed from the
/// text.
///
/// # Errors
/// `Refused` with the first refusal from the left, `Memory` where there is no room for the instructions.
pub fn read<'t>(
    alloc: Global,
    text: &'t [u8],
    nesting_left: u8,
) -> Result<Vec<Instruction<'t>>, ReadErr>
    ensures ok { IfOk result (λ code. program nesting_left text.now ≡ Ok code.items) }
    ensures refused { (refusal : Refusal) → result ≡ Err (ReadErr.Refused refusal) → program nesting_left text.now ≡ Err refusal }
{
    let mut code = Vec::new(alloc);
    if is_blank(text) {
        push(Instruction::Push(0), &mut code)?;
        return Ok(code);
    }
    let read = whole(alloc, text, nesting_left, &mut code)?;
    if is_blank(read.rest) {
        Ok(code)
    } else {
        Err(ReadErr::Refused(Refusal::Syntax))
    }
}

/// An expression that is more than a variable.
pub(crate) fn value(rest: &[u8]) -> ExpressionRead<'_>
    ensures rest { result.rest.now ≡ rest.now }
    ensures kind { result.is_variable ≡ false }
{
    ExpressionRead {
        rest,
        is_variable: false,
    }
}
