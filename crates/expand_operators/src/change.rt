ghost use Rattle.std.specs.Prelude.{◌≡◌, ◌≢◌, ◌+◌, ◌*◌, ◌/◌, ◌≤◌, ◌^◌, Err, IfSome, IfNone, IsOkUnless};
ghost use Rattle.std.specs.Option.{option_copied, option_map};
ghost use Rattle.bash_params.specs.Cost.{match_cost, replace_cost};
ghost use Rattle.bash_params.specs.Replacement.{replaced};
ghost use Rattle.bash_patterns.specs.Pattern.{meaning};
ghost use Rattle.shell_state.specs.Outcome.{Tells};
ghost use Rattle.shell_state.specs.Spending.{left, Spends};
ghost use Rattle.shell_state.specs.State.{State};
ghost use Rattle.shell_state.specs.declared.fault.Fault.TheVariants as fault;
ghost use Rattle.word_meaning.specs.Operators.{case_of as case_in, fitting, replace_of as replace_in, strip_of as strip_in};
ghost use Rattle.expand_operators.specs.Changes.{changes_text, IsTooLong, Makes, unless};

use bash_params::{ParamErr, change_case, strip};
use bash_patterns::Pattern;
use eb_bytes::{Budget, Bytes, Steps};
use eb_syntax::{CaseOp, ReplaceOp, StripOp};
use shell_state::{Fault, Stop, spend};
use std::alloc::Global;
use std::sync::ledger::Ledger;

/// Other bytes for what a pattern matches.
#[derive(Clone, Copy)]
pub(crate) struct Replacing<'a> {
    /// Which matches are replaced.
    pub(crate) op: ReplaceOp,
    /// The pattern.
    pub(crate) pattern: &'a Pattern,
    /// Whether it is empty, which is none.
    pub(crate) is_empty: bool,
    /// How many marks it has.
    pub(crate) marks: usize,
    /// The other bytes.
    pub(crate) by: &'a [u8],
}

/// What an operator makes of a text.
#[derive(Clone, Copy)]
pub(crate) enum Change<'a> {
    /// It goes without what the pattern, which has so many marks, matches.
    Strip(StripOp, &'a Pattern, usize),
    /// Other bytes stand for what a pattern matches.
    Replace(Replacing<'a>),
    /// Letters that the pattern matches change their case.
    Case(CaseOp, &'a Pattern),
}

// Which part a strip takes away.
fn strip_of(op: StripOp) -> bash_params::Strip
    ensures { result ≡ strip_in op }
{
    match op {
        StripOp::LongestPrefix => bash_params::Strip::LongPrefix,
        StripOp::ShortestPrefix => bash_params::Strip::ShortPrefix,
        StripOp::LongestSuffix => bash_params::Strip::LongSuffix,
        StripOp::ShortestSuffix => bash_params::Strip::ShortSuffix,
    }
}

// Which matches a replacement takes.
fn replace_of(op: ReplaceOp) -> bash_params::Replace
    ensures { result ≡ replace_in op }
{
    match op {
        ReplaceOp::All => bash_params::Replace::All,
        ReplaceOp::Prefix => bash_params::Replace::AtStart,
        ReplaceOp::Suffix => bash_params::Replace::AtEnd,
        ReplaceOp::First => bash_params::Replace::First,
    }
}

// Which letters a case operator changes.
fn case_of(op: CaseOp) -> bash_params::CaseOp
    ensures { result ≡ case_in op }
{
    match op {
        CaseOp::UpperAll => bash_params::CaseOp::UpAll,
        CaseOp::UpperFirst => bash_params::CaseOp::UpFirst,
        CaseOp::LowerAll => bash_params::CaseOp::DownAll,
        CaseOp::LowerFirst => bash_params::CaseOp::DownFirst,
    }
}

// Spends steps so many times.
fn spend_times<L: Ledger>(
    times: usize,
    each: u64,
    budget: &mut Budget,
    steps: &mut Steps<L>,
) -> Result<(), Stop>
    ensures means { Spends result (times * each) budget.old budget.new }
    ensures only_spent { IsOkUnless result (Stop.Fault fault.StepsSpent) }
    ensures limit { budget.new.limit ≡ budget.old.limit }
    ensures used { budget.old.used ≤ budget.new.used }
    ensures ticks { steps.new + budget.old.used ≡ steps.old + budget.new.used }
{
    for _turn in 0..times {
        match spend(each, budget, steps) {
            Ok(()) => {}
            Err(stopped) => return Err(stopped),
        }
    }
    Ok(())
}

// Spends what a match costs.
fn pay_match<L: Ledger>(
    bytes: usize,
    marks: usize,
    budget: &mut Budget,
    steps: &mut Steps<L>,
) -> Result<(), Stop>
    ensures means { Spends result (match_cost bytes marks) budget.old budget.new }
    ensures only_spent { IsOkUnless result (Stop.Fault fault.StepsSpent) }
    ensures limit { budget.new.limit ≡ budget.old.limit }
    ensures used { budget.old.used ≤ budget.new.used }
    ensures ticks { steps.new + budget.old.used ≡ steps.old + budget.new.used }
{
    spend_times(bytes / 64, marks as u64 / 16 + 1, budget, steps)
}

// Spends what a replacement costs: a match for each 64 bytes.
fn pay_replacement<L: Ledger>(
    bytes: usize,
    marks: usize,
    budget: &mut Budget,
    steps: &mut Steps<L>,
) -> Result<(), Stop>
    ensures means { Spends result (replace_cost bytes marks) budget.old budget.new }
    ensures only_spent { IsOkUnless result (Stop.Fault fault.StepsSpent) }
    ensures limit { budget.new.limit ≡ budget.old.limit }
    ensures used { budget.old.used ≤ budget.new.used }
    ensures ticks { steps.new + budget.old.used ≡ steps.old + budget.new.used }
{
    let times = bytes / 64;
    for _turn in 0..times {
        match pay_match(bytes, marks, budget, steps) {
            Ok(()) => {}
            Err(stopped) => return Err(stopped),
        }
    }
    Ok(())
}

// What an error of a replacement is to a script.
fn stop_of(error: ParamErr) -> Stop
    ensures { IsTooLong result error }
{
    match error {
        ParamErr::ValueSize => Stop::Fault(Fault::ValueSize),
        ParamErr::BadSubstitution | ParamErr::Memory => Stop::Memory,
    }
}

// What a pattern is to a replacement: nothing, where it is empty.
fn unless_empty<'a>(pattern: &'a Pattern, is_empty: bool) -> Option<&'a Pattern>
    ensures { option_map meaning (option_copied result) ≡ unless is_empty (meaning pattern.now) }
{
    if is_empty { None } else { Some(pattern) }
}

// A text with other bytes for what a pattern matches.
#[tactic(auto, using(crate::proofs::Paid::fits_there, crate::proofs::Paid::fits_not))]
fn replace_text(alloc: Global, change: &Replacing<'_>, text: &[u8]) -> Result<Bytes, Stop>
    ensures { Makes result (fitting (replaced (replace_in change.now.op) (unless change.now.is_empty (meaning change.now.pattern.now)) change.now.by.now text.now)) }
{
    let op = replace_of(change.op);
    let pattern = unless_empty(change.pattern, change.is_empty);
    match bash_params::replace(alloc, op, text, pattern, change.by) {
        Ok(text) => Ok(text),
        Err(error) => Err(stop_of(error)),
    }
}

/// What an operator makes of a text: its cost, then the text.
#[tactic(auto, using(crate::proofs::Paid::after_paying, crate::proofs::Paid::not_paid))]
pub(crate) fn change_text<L: Ledger>(
    alloc: Global,
    change: &Change<'_>,
    text: &[u8],
    budget: &mut Budget,
    steps: &mut Steps<L>,
) -> Result<Bytes, Stop>
    ensures means { (at : State) → at.left ≡ left budget.old →
        Tells result (changes_text change.now text.now at) (record at { left = left budget.new }) }
    ensures no_file { result ≢ Err Stop.Failed }
    ensures limit { budget.new.limit ≡ budget.old.limit }
    ensures used { budget.old.used ≤ budget.new.used }
    ensures ticks { steps.new + budget.old.used ≡ steps.old + budget.new.used }
{
    match change {
        Change::Strip(op, pattern, marks) => match pay_match(text.len(), *marks, budget, steps) {
            Ok(()) => Ok(strip(alloc, strip_of(*op), text, pattern)?),
            Err(stopped) => Err(stopped),
        },
        Change::Replace(replacing) => match pay_replacement(
            text.len(),
            replacing.marks,
            budget,
            steps,
        ) {
            Ok(()) => replace_text(alloc, replacing, text),
            Err(stopped) => Err(stopped),
        },
        Change::Case(op, pattern) => Ok(change_case(alloc, case_of(*op), text, pattern)?),
    }
}
