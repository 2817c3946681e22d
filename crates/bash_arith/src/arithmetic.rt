ghost use Rattle.std.specs.Prelude.{◌≡◌, ◌≢◌, ◌+◌, ◌≤◌, Err};
ghost use Rattle.eb_bytes.specs.Text.{Text};
ghost use Rattle.shell_vars.specs.Store.{kinds};
ghost use Rattle.bash_arith.specs.Outcome.{Tells, left, left_of, state};
ghost use Rattle.bash_arith.specs.Value.{arithmetic};

use crate::error::ArithErr;
use crate::machine::Machine;
use eb_bytes::{Budget, Steps};
use shell_vars::{VarErr, Vars};
use std::alloc::Global;
use std::sync::ledger::Ledger;

/// The value of an arithmetic expression, in numbers of 64 bits that wrap (Bash Reference Manual, "Shell Arithmetic").
///
/// The whole text is read before anything of it is evaluated. A name, or a name with a subscript, means its text,
/// evaluated as an expression of its own; each such evaluation uses one step of the budget, and takes it on `steps`
/// too. Nothing else uses steps. Assignments change `vars`.
///
/// # Errors
/// The first fault: those of reading the text come before all others, from left to right. The assignments made before
/// it stand. `Memory` may come at any moment of the evaluation; `vars` and `budget` are then as they are at that moment.
pub fn eval<L: Ledger>(
    alloc: Global,
    text: &[u8],
    vars: &mut Vars,
    budget: &mut Budget,
    steps: &mut Steps<L>,
) -> Result<i64, ArithErr>
    ensures means { Tells result (arithmetic text.now (state vars.old budget.old)) (state vars.new budget.new) }
    ensures spent { result ≡ Err ArithErr.Memory → left_of (arithmetic text.now (state vars.old budget.old)) ≤ left budget.new }
    ensures no_memory { (name : Text) → result ≢ Err (ArithErr.Var name VarErr.Memory) }

    ensures saved { vars.new.saved ≡ vars.old.saved }
    ensures kinds { kinds vars.new.present ≡ kinds vars.old.present }

    ensures limit { budget.new.limit ≡ budget.old.limit }
    ensures used { budget.old.used ≤ budget.new.used }
    ensures ticks { steps.new + budget.old.used ≡ steps.old + budget.new.used }
{
    let mut machine = Machine {
        alloc,
        vars,
        budget,
        steps,
    };
    machine.evaluate_whole(text)
}
