ghost use Rattle.std.specs.Prelude.{◌≡◌, ◌≢◌, ◌+◌, ◌≤◌, Err};
ghost use Rattle.shell_state.specs.Outcome.{Tells};
ghost use Rattle.shell_state.specs.Spending.{left};
ghost use Rattle.shell_state.specs.State.{State};
ghost use Rattle.word_meaning.specs.Operators.{each_text, each_value};
ghost use Rattle.expand_values.specs.Seen.{found_of};
ghost use Rattle.expand_operators.specs.Changes.{changes_text, TellsFound};

use crate::change::{Change, change_text};
use crate::shown::texts;
use eb_bytes::{Budget, Bytes, Steps};
use expand_values::{Found, Source};
use shell_state::Stop;
use sqlite_items::Items as List;
use std::alloc::Global;
use std::sync::ledger::Ledger;

// What an operator makes of texts, one after another.
#[tactic(auto, using(crate::proofs::InRow::begins, crate::proofs::InRow::makes_more, crate::proofs::InRow::all_made, crate::proofs::InRow::stopped, crate::proofs::InRow::no_room))]
fn change_each<L: Ledger>(
    alloc: Global,
    change: &Change<'_>,
    texts: &[Bytes],
    budget: &mut Budget,
    steps: &mut Steps<L>,
) -> Result<List<Bytes>, Stop>
    ensures means { (at : State) → at.left ≡ left budget.old →
        Tells result (each_text (changes_text change.now) texts.now at) (record at { left = left budget.new }) }
    ensures no_file { result ≢ Err Stop.Failed }
    ensures limit { budget.new.limit ≡ budget.old.limit }
    ensures used { budget.old.used ≤ budget.new.used }
    ensures ticks { steps.new + budget.old.used ≡ steps.old + budget.new.used }
{
    let mut changed = List::new(alloc);
    for text in texts {
        match change_text(alloc, change, text.as_slice(), budget, steps) {
            Ok(text) => match changed.push(text) {
                Ok(()) => {}
                Err(_) => return Err(Stop::Memory),
            },
            Err(stopped) => return Err(stopped),
        }
    }
    Ok(changed)
}

/// What an operator makes of what is found: of its text, or of each element of a list; of an unset value it makes nothing.
#[tactic(auto, using(crate::proofs::InRow::text_stopped, crate::proofs::InRow::list_stopped, crate::proofs::Lasting::each_lasts))]
pub(crate) fn change_found<L: Ledger>(
    alloc: Global,
    change: &Change<'_>,
    found: &Found,
    budget: &mut Budget,
    steps: &mut Steps<L>,
) -> Result<Found, Stop>
    ensures means { (at : State) → at.left ≡ left budget.old →
        TellsFound result (each_value (changes_text change.now) (found_of found.now) at) (record at { left = left budget.new }) }
    ensures no_file { result ≢ Err Stop.Failed }
    ensures limit { budget.new.limit ≡ budget.old.limit }
    ensures used { budget.old.used ≤ budget.new.used }
    ensures ticks { steps.new + budget.old.used ≡ steps.old + budget.new.used }
{
    match found {
        Found::One(None, _) => Ok(Found::One(None, None)),
        Found::One(Some(text), _) => match change_text(
            alloc,
            change,
            text.as_slice(),
            budget,
            steps,
        ) {
            Ok(text) => Ok(Found::One(Some(text), None)),
            Err(stopped) => Err(stopped),
        },
        Found::Many(star, source) => {
            let texts = texts(alloc, source)?;
            match change_each(alloc, change, texts.as_slice(), budget, steps) {
                Ok(texts) => Ok(Found::Many(*star, Source::Arguments(texts))),
                Err(stopped) => Err(stopped),
            }
        }
    }
}
