ghost use Rattle.std.specs.Prelude.{◌≡◌, ◌≢◌, ◌+◌, ◌≤◌, Err, IfOk};
ghost use Rattle.shell_vars.specs.Store.{kinds};
ghost use Rattle.shell_state.specs.Outcome.{Tells};
ghost use Rattle.shell_state.specs.Spending.{left};
ghost use Rattle.shell_state.specs.State.{State};
ghost use Rattle.bash_cond.specs.Arithmetic.{evaluates, IsArithmeticFault};

use bash_arith::{ArithErr, eval};
use eb_bytes::{Budget, Bytes, Memory, Steps};
use shell_state::{Fault, Stop};
use shell_vars::Vars;
use std::alloc::Global;
use std::sync::ledger::Ledger;

fn arithmetic_fault(alloc: Global, text: &[u8], error: ArithErr) -> Result<Stop, Memory>
    ensures { IfOk result (λ stop. IsArithmeticFault stop text.now error) }
{
    let fault = match error {
        ArithErr::Syntax => Fault::ArithSyntax(Bytes::from_slice(alloc, text)?),
        ArithErr::DivZero => Fault::ArithDivZero(Bytes::from_slice(alloc, text)?),
        ArithErr::NegativeExponent => Fault::ArithNegative(Bytes::from_slice(alloc, text)?),
        ArithErr::Nesting => Fault::ArithNesting(Bytes::from_slice(alloc, text)?),
        ArithErr::Unsupported(name) => Fault::Unsupported(name),
        ArithErr::Var(name, refused) => return Ok(Stop::of_variable(
            alloc,
            name.as_slice(),
            refused,
        )),
        ArithErr::Spent => Fault::StepsSpent,
        ArithErr::Memory => return Err(Memory),
    };
    Ok(Stop::Fault(fault))
}

// What an error of the evaluation of a text is to a script.
fn arithmetic_stop(alloc: Global, text: &[u8], error: ArithErr) -> Stop
    ensures { IsArithmeticFault result text.now error }
{
    match arithmetic_fault(alloc, text, error) {
        Ok(stop) => stop,
        Err(Memory) => Stop::Memory,
    }
}

/// The value of an arithmetic text, as a part of a run.
///
/// # Errors
/// The fault of the text, which it shows whole; `Memory`.
#[tactic(auto, using(crate::proofs::Evaluated::ended, crate::proofs::Evaluated::stopped))]
pub fn value_of<L: Ledger>(
    alloc: Global,
    text: &[u8],
    vars: &mut Vars,
    budget: &mut Budget,
    steps: &mut Steps<L>,
) -> Result<i64, Stop>
    ensures means { (at : State) → at.store ≡ vars.old.present → at.left ≡ left budget.old →
        Tells result (evaluates text.now at) (record at { store = vars.new.present; left = left budget.new }) }
    ensures no_file { result ≢ Err Stop.Failed }
    ensures saved { vars.new.saved ≡ vars.old.saved }
    ensures kinds { kinds vars.new.present ≡ kinds vars.old.present }
    ensures limit { budget.new.limit ≡ budget.old.limit }
    ensures used { budget.old.used ≤ budget.new.used }
    ensures ticks { steps.new + budget.old.used ≡ steps.old + budget.new.used }
{
    match eval(alloc, text, vars, budget, steps) {
        Ok(number) => Ok(number),
        Err(error) => Err(arithmetic_stop(alloc, text, error)),
    }
}
