ghost use Rattle.std.specs.Prelude.{◌≡◌, ◌≢◌, ◌+◌, ◌≤◌, [], ◌∷◌, List, Ok, Err};
ghost use Rattle.eb_bytes.specs.Text.{Text};
ghost use Rattle.shell_state.specs.Outcome.{Tells};
ghost use Rattle.shell_state.specs.Spending.{left};
ghost use Rattle.shell_state.specs.State.{State};
ghost use Rattle.word_meaning.specs.Limits.{all_fields as all_fields_of, one_text as one_text_of};
ghost use Rattle.expand_lists.specs.Fit.{LeadsTo};

use eb_bytes::{Budget, Bytes, Steps};
use shell_state::{Fault, Stop, spend, text_cost};
use sqlite_items::Items;
use std::sync::ledger::Ledger;

// How many bytes a text or a field may have.
const MOST_BYTES: usize = 1_048_576;

// How many all fields may have, each with one byte more.
const MOST_IN_ALL: u64 = 33_554_432;

/// One text, once it is expanded: its limit, then its cost.
///
/// # Errors
/// `ValueSize` where it has more than 1,048,576 bytes; `StepsSpent` where so many steps are not left.
#[tactic(auto, using(crate::proofs::Paid::text_paid, crate::proofs::Paid::text_not_paid, crate::proofs::Paid::text_too_long))]
pub fn one_text<L: Ledger>(
    text: Bytes,
    budget: &mut Budget,
    steps: &mut Steps<L>,
) -> Result<Bytes, Stop>
    ensures means { (at : State) → at.left ≡ left budget.old →
        Tells result (one_text_of text at) (record at { left = left budget.new }) }
    ensures no_file { result ≢ Err Stop.Failed }
    ensures limit { budget.new.limit ≡ budget.old.limit }
    ensures used { budget.old.used ≤ budget.new.used }
    ensures ticks { steps.new + budget.old.used ≡ steps.old + budget.new.used }
{
    if text.len() > MOST_BYTES {
        return Err(Stop::Fault(Fault::ValueSize));
    }
    match spend(text_cost(text.as_slice()), budget, steps) {
        Ok(()) => Ok(text),
        Err(stopped) => Err(stopped),
    }
}

// The size of the fields so far with one field more, where the limits are met.
#[tactic(auto, using(crate::proofs::Fitted::next_fits, crate::proofs::Fitted::too_long, crate::proofs::Fitted::too_many))]
fn with_field(size: u64, field: &[u8]) -> Result<u64, Stop>
    ensures { (left all : List Text) → LeadsTo (Ok size) (field.now ∷ left) all → LeadsTo result left all }
{
    if field.len() > MOST_BYTES {
        return Err(Stop::Fault(Fault::ValueSize));
    }
    let more = size.saturating_add(field.len() as u64 + 1);
    if more > MOST_IN_ALL {
        return Err(Stop::Fault(Fault::TotalSize));
    }
    Ok(more)
}

// The same where a limit may be passed already.
#[tactic(auto, using(crate::proofs::Fitted::still))]
fn behind(size: Result<u64, Stop>, field: &[u8]) -> Result<u64, Stop>
    ensures { (left all : List Text) → LeadsTo size (field.now ∷ left) all → LeadsTo result left all }
{
    match size {
        Ok(size) => with_field(size, field),
        Err(stopped) => Err(stopped),
    }
}

// The size of all fields, where the limits are met, one field after another.
fn size(fields: &[Bytes]) -> Result<u64, Stop>
    ensures { LeadsTo result [] fields.now }
{
    let mut size = Ok(0u64);
    for field in fields {
        size = behind(size, field.as_slice());
    }
    size
}

/// The fields of a list: all limits, one field after another, then the cost.
///
/// # Errors
/// `ValueSize` where a field has more than 1,048,576 bytes, and `TotalSize` where this one and those before it, each with
/// one byte more, have more than 33,554,432; then `StepsSpent` where so many steps are not left.
#[tactic(auto, using(crate::proofs::Paid::list_paid, crate::proofs::Paid::list_not_paid, crate::proofs::Paid::list_unfit))]
pub fn all_fields<L: Ledger>(
    fields: Items<Bytes>,
    budget: &mut Budget,
    steps: &mut Steps<L>,
) -> Result<Items<Bytes>, Stop>
    ensures means { (at : State) → at.left ≡ left budget.old →
        Tells result (all_fields_of fields at) (record at { left = left budget.new }) }
    ensures no_file { result ≢ Err Stop.Failed }
    ensures limit { budget.new.limit ≡ budget.old.limit }
    ensures used { budget.old.used ≤ budget.new.used }
    ensures ticks { steps.new + budget.old.used ≡ steps.old + budget.new.used }
{
    let size = match size(fields.as_slice()) {
        Ok(size) => size,
        Err(stopped) => return Err(stopped),
    };
    match spend(size / 64, budget, steps) {
        Ok(()) => Ok(fields),
        Err(stopped) => Err(stopped),
    }
}
