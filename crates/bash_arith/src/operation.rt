ghost use Rattle.std.specs.Prelude.{◌≡◌, ℕ, Ok};
ghost use Rattle.arith_syntax.specs.declared.instruction.Instruction.TheVariants as i;
ghost use Rattle.bash_arith.specs.Machine as m;
ghost use Rattle.bash_arith.specs.Outcome.{State};

use crate::error::ArithErr;
use crate::number::{is_zero, operate, raise, sign, truth};
use crate::stack::Stack;
use arith_syntax::{Operator, Sign};

// Each of these makes what an instruction says of the stack, and answers how many of the next instructions are left
// out.

pub(crate) fn put(stack: &mut Stack, number: i64) -> Result<usize, ArithErr>
    ensures { (n : ℕ) (s : State) → m.Computes result (m.executed n (i.Push number) stack.old s) stack.new s }
{
    stack.push(number)?;
    Ok(0)
}

pub(crate) fn put_signed(stack: &mut Stack, prefix: Sign) -> Result<usize, ArithErr>
    ensures { (n : ℕ) (s : State) → m.Computes result (m.executed n (i.Sign prefix) stack.old s) stack.new s }
{
    let number = stack.pop();
    stack.push(sign(prefix, number))?;
    Ok(0)
}

pub(crate) fn put_operated(stack: &mut Stack, operator: Operator) -> Result<usize, ArithErr>
    ensures { (n : ℕ) (s : State) → m.Computes result (m.executed n (i.Operate operator) stack.old s) stack.new s }
{
    let right = stack.pop();
    let left = stack.pop();
    let number = operate(operator, left, right)?;
    stack.push(number)?;
    Ok(0)
}

pub(crate) fn put_raised(stack: &mut Stack) -> Result<usize, ArithErr>
    ensures { (n : ℕ) (s : State) → m.Computes result (m.executed n i.Raise stack.old s) stack.new s }
{
    let exponent = stack.pop();
    let base = stack.pop();
    let number = raise(base, exponent)?;
    stack.push(number)?;
    Ok(0)
}

pub(crate) fn put_truth(stack: &mut Stack) -> Result<usize, ArithErr>
    ensures { (n : ℕ) (s : State) → m.Computes result (m.executed n i.Truth stack.old s) stack.new s }
{
    let number = stack.pop();
    stack.push(truth(!is_zero(number)))?;
    Ok(0)
}

pub(crate) fn discard(stack: &mut Stack) -> usize
    ensures { (n : ℕ) (s : State) → m.Computes (Ok result) (m.executed n i.Discard stack.old s) stack.new s }
{
    stack.pop();
    0
}

// Where the number that it takes is not 0, puts 1 and leaves out so many instructions.
pub(crate) fn or_else(stack: &mut Stack, count: usize) -> Result<usize, ArithErr>
    ensures { (n : ℕ) (s : State) → m.Computes result (m.executed n (i.OrElse count) stack.old s) stack.new s }
{
    let number = stack.pop();
    if is_zero(number) {
        return Ok(0);
    }
    stack.push(1)?;
    Ok(count)
}

// Where the number that it takes is 0, puts 0 and leaves out so many instructions.
pub(crate) fn and_then(stack: &mut Stack, count: usize) -> Result<usize, ArithErr>
    ensures { (n : ℕ) (s : State) → m.Computes result (m.executed n (i.AndThen count) stack.old s) stack.new s }
{
    let number = stack.pop();
    if !is_zero(number) {
        return Ok(0);
    }
    stack.push(0)?;
    Ok(count)
}

// Where the number that it takes is 0, leaves out so many instructions.
pub(crate) fn unless(stack: &mut Stack, count: usize) -> usize
    ensures { (n : ℕ) (s : State) → m.Computes (Ok result) (m.executed n (i.Unless count) stack.old s) stack.new s }
{
    let number = stack.pop();
    if is_zero(number) { count } else { 0 }
}
