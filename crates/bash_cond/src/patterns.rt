ghost use Rattle.std.specs.Prelude.{◌≡◌, ◌≢◌, ◌+◌, ◌*◌, ◌≤◌, Err, IsOkUnless};
ghost use Rattle.bash_patterns.specs.Reading.{pattern_of};
ghost use Rattle.bash_cond.specs.Patterns.{matched, Compiles};
ghost use Rattle.shell_state.specs.Outcome.{Tells};
ghost use Rattle.shell_state.specs.Spending.{left, Spends};
ghost use Rattle.shell_state.specs.State.{State};
ghost use Rattle.shell_state.specs.declared.fault.Fault.TheVariants as fault;

use bash_patterns::{PatErr, Pattern};
use eb_bytes::{Budget, Steps};
use shell_marks::Marked;
use shell_state::{Fault, Stop, spend};
use std::alloc::Global;
use std::sync::ledger::Ledger;

/// A text and a pattern.
#[derive(Clone, Copy)]
pub struct Match<'a> {
    /// The text, all of which is to match.
    pub text: &'a [u8],
    /// The pattern, by its marks.
    pub pattern: &'a Marked,
    /// Whether extended groups are read in it.
    pub extended: bool,
}

fn compiled(alloc: Global, pattern: &Marked, extended: bool) -> Result<Pattern, Stop>
    ensures { Compiles result (pattern_of extended pattern.now) }
{
    match Pattern::compile(alloc, pattern, extended) {
        Ok(pattern) => Ok(pattern),
        Err(PatErr::TooDeep) => Err(Stop::Fault(Fault::PatternDeep)),
        Err(PatErr::Memory) => Err(Stop::Memory),
    }
}

// Spends steps so many times.
fn spend_times<L: Ledger>(
    times: usize,
    each: u64,
    budget: &mut Budget,
    steps: &mut Steps<L>,
) -> Result<(), Stop>
    ensures means { Spends result (times * each) budget.old budget.new }
    ensures only_spent { IsOkUnless result (Stop.Fault fault.StepsSpent) }
    ensures limit { budget.new.limit ≡ budget.old.limit }
    ensures used { budget.old.used ≤ budget.new.used }
    ensures ticks { steps.new + budget.old.used ≡ steps.old + budget.new.used }
{
    for _turn in 0..times {
        match spend(each, budget, steps) {
            Ok(()) => {}
            Err(stopped) => return Err(stopped),
        }
    }
    Ok(())
}

/// Whether a pattern matches a whole text (Bash Reference Manual, "Pattern Matching"). Each 64 bytes of the text cost a
/// step, and one more for each 16 marks of the pattern; they are spent before the match.
///
/// # Errors
/// `PatternDeep` where more than 64 groups are nested, before anything is spent; `StepsSpent` where so many steps are not
/// left; and `Memory`.
#[tactic(auto, using(crate::proofs::Matched::after_spending))]
pub fn matches<L: Ledger>(
    alloc: Global,
    what: &Match<'_>,
    budget: &mut Budget,
    steps: &mut Steps<L>,
) -> Result<bool, Stop>
    ensures means { (at : State) → at.left ≡ left budget.old →
        Tells result (matched what.now.extended what.now.pattern.now what.now.text.now at) (record at { left = left budget.new }) }
    ensures no_file { result ≢ Err Stop.Failed }
    ensures limit { budget.new.limit ≡ budget.old.limit }
    ensures used { budget.old.used ≤ budget.new.used }
    ensures ticks { steps.new + budget.old.used ≡ steps.old + budget.new.used }
{
    let pattern = compiled(alloc, what.pattern, what.extended)?;
    let marks = what.pattern.as_slice().len();
    spend_times(what.text.len() / 64, marks as u64 / 16 + 1, budget, steps)?;
    Ok(pattern.matches(what.text)?)
}
