ghost use Rattle.std.specs.Prelude.{◌≡◌, ◌≢◌, ◌⊎◌, List, ◌++◌, [], ◌∷◌, true, None, OnOk, IfSome};
ghost use Rattle.arith_syntax.specs.declared.instruction.Instruction.{Instruction};
ghost use Rattle.arith_syntax.specs.declared.instruction.VariableRef.{VariableRef};
ghost use Rattle.arith_syntax.specs.Putting.{chosen, continued, loading, storing};

use crate::instruction::{Instruction, VariableRef};
use crate::operator::{BinaryOperator, Operator};
use eb_bytes::Memory;
use std::alloc::Global;

pub(crate) fn push<'t>(
    instruction: Instruction<'t>,
    code: &mut Vec<Instruction<'t>>,
) -> Result<(), Memory>
    ensures { OnOk result (code.new.items ≡ code.old.items ++ instruction.entry ∷ []) }
{
    code.push(instruction)?;
    Ok(())
}

// The variable whose value was fetched last, taken away from the instructions.
pub(crate) fn take_variable<'t>(
    is_variable: bool,
    code: &mut Vec<Instruction<'t>>,
) -> Option<VariableRef<'t>>
    ensures taken { IfSome result (λ variable. (is_variable ≡ true) × (code.old.items ≡ code.new.items ++ Instruction.Fetch variable ∷ [])) }
    ensures none { result ≡ None → is_variable ≡ true → (front : List Instruction) (variable : VariableRef) → code.old.items ≢ front ++ Instruction.Fetch variable ∷ [] }
{
    match code.pop() {
        Some(Instruction::Fetch(variable)) if is_variable => Some(variable),
        _ => None,
    }
}

// Puts what an assignment does before its right side.
pub(crate) fn push_load<'t>(
    by: Option<Operator>,
    variable: &VariableRef<'t>,
    code: &mut Vec<Instruction<'t>>,
) -> Result<(), Memory>
    ensures { OnOk result (code.new.items ≡ code.old.items ++ loading by variable.now) }
{
    if by.is_some() {
        push(Instruction::Load(variable.copy()), code)?;
    }
    Ok(())
}

// Puts what an assignment does after its right side.
pub(crate) fn push_store<'t>(
    by: Option<Operator>,
    variable: VariableRef<'t>,
    code: &mut Vec<Instruction<'t>>,
) -> Result<(), Memory>
    ensures { OnOk result (code.new.items ≡ code.old.items ++ storing by variable.entry) }
{
    if let Some(operator) = by {
        push(Instruction::Operate(operator), code)?;
    }
    push(Instruction::Store(variable), code)
}

// Puts the right side of `&&` or `||`, which is left out where the left one decides.
pub(crate) fn push_skippable<'t>(
    operator: BinaryOperator,
    mut side: Vec<Instruction<'t>>,
    code: &mut Vec<Instruction<'t>>,
) -> Result<(), Memory>
    requires { (operator ≡ BinaryOperator.Or) ⊎ (operator ≡ BinaryOperator.And) }
    ensures { OnOk result (code.new.items ≡ code.old.items ++ continued operator side.entry.items) }
{
    let count = side.len() + 1;
    let decision = match operator {
        BinaryOperator::Or => Instruction::OrElse(count),
        _ => Instruction::AndThen(count),
    };
    push(decision, code)?;
    code.append(&mut side)?;
    push(Instruction::Truth, code)
}

// Puts the two last parts of `?:`, of which one is left out.
pub(crate) fn push_chosen<'t>(
    mut middle: Vec<Instruction<'t>>,
    mut last: Vec<Instruction<'t>>,
    code: &mut Vec<Instruction<'t>>,
) -> Result<(), Memory>
    ensures { OnOk result (code.new.items ≡ code.old.items ++ chosen middle.entry.items last.entry.items) }
{
    push(Instruction::Unless(middle.len() + 1), code)?;
    code.append(&mut middle)?;
    push(Instruction::Skip(last.len()), code)?;
    code.append(&mut last)?;
    Ok(())
}
