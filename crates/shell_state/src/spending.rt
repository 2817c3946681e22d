ghost use Rattle.std.specs.Prelude.{◌≡◌, ◌+◌, ◌≤◌, IsOkUnless};
ghost use Rattle.shell_state.specs.declared.fault.Fault.TheVariants as fault;
ghost use Rattle.shell_state.specs.Spending.{text_cost as cost_of, Spends};

use crate::fault::Fault;
use crate::stop::Stop;
use eb_bytes::{Budget, Spent, Steps};
use std::sync::ledger::Ledger;

/// Spends this many steps of the budget, and takes them on `steps` too.
///
/// # Errors
/// `StepsSpent` where so many are not left; all are spent then.
#[tactic(auto, using(crate::proofs::Spent::was_left, crate::proofs::Spent::was_not_left))]
pub fn spend<L: Ledger>(count: u64, budget: &mut Budget, steps: &mut Steps<L>) -> Result<(), Stop>
    ensures means { Spends result count budget.old budget.new }
    ensures only_spent { IsOkUnless result (Stop.Fault fault.StepsSpent) }
    ensures limit { budget.new.limit ≡ budget.old.limit }
    ensures used { budget.old.used ≤ budget.new.used }
    ensures ticks { steps.new + budget.old.used ≡ steps.old + budget.new.used }
{
    // What is used is never above the limit, as this call says.
    let _used = budget.used();
    match budget.spend(count, steps) {
        Ok(()) => Ok(()),
        Err(Spent) => Err(Stop::Fault(Fault::StepsSpent)),
    }
}

/// What one text costs, once it is expanded or before it is printed: its bytes and 1, divided by 64 without the rest.
pub fn text_cost(text: &[u8]) -> u64
    ensures { result ≡ cost_of text.now }
{
    (text.len() as u64).saturating_add(1) / 64
}
