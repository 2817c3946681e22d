ghost use Rattle.std.specs.Prelude.{◌≡◌, ◌≢◌, ◌+◌, ◌≤◌, Err};
ghost use Rattle.shell_state.specs.Spending.{left};
ghost use Rattle.shell_state.specs.State.{State};
ghost use Rattle.word_meaning.specs.Operators.{changes_case, strips};
ghost use Rattle.expand_values.specs.Seen.{found_of};
ghost use Rattle.expand_operators.specs.Changes.{TellsFound, replaces_by};

use crate::change::{Change, Replacing};
use crate::changed::compile;
use crate::each::change_found;
use eb_bytes::{Budget, Steps};
use eb_syntax::{CaseOp, ReplaceOp, StripOp};
use expand_values::Found;
use shell_marks::Marked;
use shell_state::Stop;
use std::alloc::Global;
use std::sync::ledger::Ledger;

/// A pattern, by its marks.
#[derive(Clone, Copy)]
pub struct Written<'a> {
    /// Its marks.
    pub marks: &'a Marked,
    /// Whether extended groups are read in it.
    pub extended: bool,
}

/// `#`, `##`, `%` and `%%`: what is found, without what a pattern matches at its start or at its end.
///
/// # Errors
/// `PatternDeep` where more than 64 groups are nested, before anything is spent; `StepsSpent` where the steps that a match
/// costs are not left; `Memory`.
#[tactic(auto, using(crate::proofs::Compiled::stripped_so, crate::proofs::Compiled::not_stripped))]
pub fn strip_found<L: Ledger>(
    alloc: Global,
    op: StripOp,
    pattern: &Written<'_>,
    found: &Found,
    budget: &mut Budget,
    steps: &mut Steps<L>,
) -> Result<Found, Stop>
    ensures means { (at : State) → at.opts.extglob ≡ pattern.now.extended → at.left ≡ left budget.old →
        TellsFound result (strips op pattern.now.marks.now (found_of found.now) at) (record at { left = left budget.new }) }
    ensures no_file { result ≢ Err Stop.Failed }
    ensures limit { budget.new.limit ≡ budget.old.limit }
    ensures used { budget.old.used ≤ budget.new.used }
    ensures ticks { steps.new + budget.old.used ≡ steps.old + budget.new.used }
{
    let form = match compile(alloc, pattern.marks, pattern.extended) {
        Ok(form) => form,
        Err(stopped) => return Err(stopped),
    };
    let change = Change::Strip(op, &form, pattern.marks.as_slice().len());
    change_found(alloc, &change, found, budget, steps)
}

/// `^`, `^^`, `,` and `,,`: what is found, with the letters that a pattern matches in the other case.
///
/// # Errors
/// `PatternDeep` where more than 64 groups are nested; `Memory`.
#[tactic(auto, using(crate::proofs::Compiled::cased_so, crate::proofs::Compiled::not_cased))]
pub fn change_case_found<L: Ledger>(
    alloc: Global,
    op: CaseOp,
    pattern: &Written<'_>,
    found: &Found,
    budget: &mut Budget,
    steps: &mut Steps<L>,
) -> Result<Found, Stop>
    ensures means { (at : State) → at.opts.extglob ≡ pattern.now.extended → at.left ≡ left budget.old →
        TellsFound result (changes_case op pattern.now.marks.now (found_of found.now) at) (record at { left = left budget.new }) }
    ensures no_file { result ≢ Err Stop.Failed }
    ensures limit { budget.new.limit ≡ budget.old.limit }
    ensures used { budget.old.used ≤ budget.new.used }
    ensures ticks { steps.new + budget.old.used ≡ steps.old + budget.new.used }
{
    let form = match compile(alloc, pattern.marks, pattern.extended) {
        Ok(form) => form,
        Err(stopped) => return Err(stopped),
    };
    change_found(alloc, &Change::Case(op, &form), found, budget, steps)
}

/// `/`, `//`, `/#` and `/%`: what is found, with other bytes for what a pattern matches.
///
/// # Errors
/// `PatternDeep` where more than 64 groups are nested, before anything is spent; `StepsSpent` where the steps that a
/// replacement costs are not left; `ValueSize` where a text would have more than 1,048,576 bytes; `Memory`.
#[tactic(auto, using(crate::proofs::Compiled::replaced_so, crate::proofs::Compiled::not_replaced))]
pub fn replace_found<L: Ledger>(
    alloc: Global,
    op: ReplaceOp,
    pattern: &Written<'_>,
    by: &[u8],
    found: &Found,
    budget: &mut Budget,
    steps: &mut Steps<L>,
) -> Result<Found, Stop>
    ensures means { (at : State) → at.left ≡ left budget.old →
        TellsFound result (replaces_by op pattern.now.marks.now pattern.now.extended by.now (found_of found.now) at)
        (record at { left = left budget.new }) }
    ensures no_file { result ≢ Err Stop.Failed }
    ensures limit { budget.new.limit ≡ budget.old.limit }
    ensures used { budget.old.used ≤ budget.new.used }
    ensures ticks { steps.new + budget.old.used ≡ steps.old + budget.new.used }
{
    let form = match compile(alloc, pattern.marks, pattern.extended) {
        Ok(form) => form,
        Err(stopped) => return Err(stopped),
    };
    let bytes = pattern.marks.unquoted(alloc)?;
    let replacing = Replacing {
        op,
        pattern: &form,
        is_empty: bytes.is_empty(),
        marks: pattern.marks.as_slice().len(),
        by,
    };
    change_found(alloc, &Change::Replace(replacing), found, budget, steps)
}
