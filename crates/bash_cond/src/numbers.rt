ghost use Rattle.std.specs.Prelude.{◌≡◌, ◌≢◌, ◌+◌, ◌≤◌, Err};
ghost use Rattle.shell_vars.specs.Store.{kinds};
ghost use Rattle.shell_state.specs.Outcome.{Tells};
ghost use Rattle.shell_state.specs.Spending.{left};
ghost use Rattle.shell_state.specs.State.{State};
ghost use Rattle.bash_cond.specs.Numbers.{numbers_stand};

use crate::operator::Relation;
use crate::value::value_of;
use eb_bytes::{Budget, Steps};
use shell_state::Stop;
use shell_vars::Vars;
use std::alloc::Global;
use std::sync::ledger::Ledger;

/// An operator on numbers with its operands, which are expanded.
#[derive(Clone, Copy)]
pub struct Numbers<'a> {
    /// The text of the left operand.
    pub left: &'a [u8],
    /// How the values are to stand to each other.
    pub relation: Relation,
    /// The text of the right operand.
    pub right: &'a [u8],
}

/// The answer of an operator of `[[ .. ]]` on numbers: whether the values of both texts as arithmetic stand so to each
/// other. The left one is evaluated first, and what they assign stays in `vars`. Each variable that is evaluated costs a
/// step of the budget, which is taken on `steps` too.
///
/// # Errors
/// The first fault of arithmetic, which shows that whole operand: `ArithSyntax`, `ArithDivZero`, `ArithNegative`,
/// `ArithNesting`; `Unsupported` where a variable is read whose value a shell makes up; those of assigning to a variable;
/// `StepsSpent`; and `Memory`. Assignments made before stand.
#[tactic(auto, using(crate::proofs::Evaluated::both_kept))]
pub fn compare_numbers<L: Ledger>(
    alloc: Global,
    numbers: &Numbers<'_>,
    vars: &mut Vars,
    budget: &mut Budget,
    steps: &mut Steps<L>,
) -> Result<bool, Stop>
    ensures means { (at : State) → at.store ≡ vars.old.present → at.left ≡ left budget.old →
        Tells result (numbers_stand numbers.now.relation numbers.now.left.now numbers.now.right.now at)
        (record at { store = vars.new.present; left = left budget.new }) }
    ensures no_file { result ≢ Err Stop.Failed }
    ensures saved { vars.new.saved ≡ vars.old.saved }
    ensures kinds { kinds vars.new.present ≡ kinds vars.old.present }
    ensures limit { budget.new.limit ≡ budget.old.limit }
    ensures used { budget.old.used ≤ budget.new.used }
    ensures ticks { steps.new + budget.old.used ≡ steps.old + budget.new.used }
{
    match value_of(alloc, numbers.left, vars, budget, steps) {
        Ok(left) => {
            let right = value_of(alloc, numbers.right, vars, budget, steps)?;
            Ok(numbers.relation.holds(left, right))
        }
        Err(stopped) => Err(stopped),
    }
}
