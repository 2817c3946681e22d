ghost use Rattle.std.specs.Prelude.{◌≡◌, ◌+◌, ◌-◌, ◌<◌, ◌≤◌, ◌^◌, map, length, sum_by, IfOk, OnOk, Some};
ghost use Rattle.std.specs.List.{AllByRecursion};
ghost use Rattle.std.specs.Option.{option_copied};
ghost use Rattle.eb_bytes.specs.Text.{lines};
ghost use Rattle.egencache.specs.Assignments.{Assigned, assignments_of, text_of as text_of_variable};
ghost use Rattle.egencache.specs.Meaning.{HasZeroFreeValue, agreed_outcome, assignment_steps, final_value as final_value_of, final_values as final_values_of, found_eapi, has_implicit_rdepend as has_implicit_rdepend_in, outcome_of, rdepend_of, reading_steps, run_steps, sourced, sourced_in};
ghost use Rattle.eapi_tables.specs.TextEapi.{text_eapi};
ghost use Rattle.md5_cache.specs.Entry.{named_eapi};
ghost use Rattle.egencache.specs.Seen.{assigned};

use crate::assignments::{Assignment, PlainErr, read_assignments, variable};
use crate::fault::Fault;
use eapi_tables::{Eapi, Key, eapi_line};
use eb_bytes::{Bytes, Memory, Steps};
use eb_digest::digest_of;
use md5_cache::{Entry, EntryErr};
use std::alloc::Global;
use std::sync::ledger::Ledger;

/// What an ebuild gives: its entry, or why it has none.
#[derive(Drop)]
pub enum Outcome {
    Entry(Entry),
    Fault(Fault),
}

// The variable's text, empty where it is unset.
fn text_of<'a>(assignments: &[Assignment<'a>], name: &[u8]) -> &'a [u8]
    ensures { result.now ≡ text_of_variable name.now (map assigned assignments.now) }
{
    match variable(assignments, name) {
        Some(value) => value,
        None => b"",
    }
}

// The variable EAPI after the run; an unset or empty one counts as `0`.
fn found_eapi<'a>(assignments: &[Assignment<'a>]) -> &'a [u8]
    ensures { result.now ≡ found_eapi (map assigned assignments.now) }
{
    match variable(assignments, b"EAPI") {
        None | Some([]) => b"0",
        Some(value) => value,
    }
}

// Whether an unset RDEPEND is DEPEND: in EAPI 0 to 3 (Package Manager Specification, "RDEPEND value").
fn has_implicit_rdepend(eapi: Eapi) -> bool
    ensures { result ≡ has_implicit_rdepend_in eapi }
{
    matches!(eapi, Eapi::E0 | Eapi::E1 | Eapi::E2 | Eapi::E3)
}

fn rdepend_of<'a>(eapi: Eapi, assignments: &[Assignment<'a>]) -> &'a [u8]
    ensures { result.now ≡ rdepend_of eapi (map assigned assignments.now) }
{
    match variable(assignments, b"RDEPEND") {
        Some(value) => value,
        None => {
            if has_implicit_rdepend(eapi) {
                text_of(assignments, b"DEPEND")
            } else {
                b""
            }
        }
    }
}

// The value of a key after the run.
fn final_value<'a>(eapi: Eapi, assignments: &[Assignment<'a>], key: Key) -> &'a [u8]
    ensures { result.now ≡ final_value_of eapi (map assigned assignments.now) key }
{
    match key {
        Key::Eapi => eapi.text(),
        Key::DefinedPhases => b"-",
        Key::Inherit => b"",
        Key::Rdepend => rdepend_of(eapi, assignments),
        _ => text_of(assignments, key.name()),
    }
}

fn final_values(
    alloc: Global,
    eapi: Eapi,
    assignments: &[Assignment<'_>],
) -> Result<Vec<(Key, Bytes)>, Memory>
    ensures { IfOk result (λ values. values.items ≡ final_values_of eapi (map assigned assignments.now)) }
{
    let mut values = Vec::new(alloc);
    for key in Key::ALL {
        let value = Bytes::from_slice(alloc, final_value(eapi, assignments, key))?;
        values.push((key, value))?;
    }
    Ok(values)
}

// Takes the steps of a run: of reading a text of so many bytes, and of each assignment.
fn take_steps<L: Ledger>(text: &[u8], assignments: &[Assignment<'_>], steps: &mut Steps<L>)
    ensures { steps.new ≡ steps.old + run_steps text.now (map assigned assignments.now) }
{
    steps.tick(1 + text.len() as u64 / 64);
    for assignment in assignments {
        steps.tick(1 + (assignment.value.len() as u64 + 1) / 64);
    }
}

// The outcome of a run whose variable EAPI is the one that the text names.
fn agreed_outcome(
    alloc: Global,
    text: &[u8],
    eapi: Eapi,
    assignments: &[Assignment<'_>],
) -> Result<Outcome, Memory>
    requires { AllByRecursion HasZeroFreeValue (map assigned assignments.now) }
    ensures { IfOk result (λ outcome. outcome ≡ agreed_outcome text.now eapi (map assigned assignments.now)) }
{
    let values = final_values(alloc, eapi, assignments)?;
    match Entry::new(alloc, values, Vec::new(alloc), digest_of(text)) {
        Ok(entry) => Ok(Outcome::Entry(entry)),
        Err(EntryErr::Incomplete) => Ok(Outcome::Fault(Fault::SlotMissing)),
        // Only a text that is read can be bad: `Entry::new` never answers `BadEntry`.
        Err(EntryErr::Memory | EntryErr::BadEntry) => Err(Memory),
    }
}

// The outcome of a run that ended with these assignments.
fn outcome_of(
    alloc: Global,
    text: &[u8],
    eapi: Eapi,
    assignments: &[Assignment<'_>],
) -> Result<Outcome, Memory>
    requires { AllByRecursion HasZeroFreeValue (map assigned assignments.now) }
    ensures { IfOk result (λ outcome. outcome ≡ outcome_of text.now eapi (map assigned assignments.now)) }
{
    let found = found_eapi(assignments);
    if found == eapi.text() {
        agreed_outcome(alloc, text, eapi, assignments)
    } else {
        let parsed = Bytes::from_slice(alloc, eapi.text())?;
        let found = Bytes::from_slice(alloc, found)?;
        Ok(Outcome::Fault(Fault::EapiMismatch(parsed, found)))
    }
}

// What an ebuild of this text gives, which names this EAPI.
fn source_in<L: Ledger>(
    alloc: Global,
    text: &[u8],
    eapi: Eapi,
    steps: &mut Steps<L>,
) -> Result<Outcome, Memory>
    requires { length text.now < 2 ^ 32 - 1 }
    ensures outcome { IfOk result (λ outcome. outcome ≡ (sourced_in (Some eapi) text.now).outcome) }
    ensures steps { OnOk result (steps.new ≡ steps.old + (sourced_in (Some eapi) text.now).steps) }
    ensures at_least { steps.old ≤ steps.new }
    ensures at_most { steps.new ≤ steps.old + (sourced_in (Some eapi) text.now).steps }
{
    let assignments = match read_assignments(alloc, text) {
        Ok(assignments) => assignments,
        Err(PlainErr::NotPlain(line)) => return Ok(Outcome::Fault(Fault::FormNotYet(line))),
        Err(PlainErr::Memory) => return Err(Memory),
    };
    take_steps(text, assignments.as_slice(), steps);
    outcome_of(alloc, text, eapi, assignments.as_slice())
}

// The EAPI that the text names, if it is a known one.
fn eapi_of(text: &[u8]) -> Option<Eapi>
    ensures { result ≡ named_eapi (text_eapi text.now) }
{
    Eapi::read(eapi_line(text)).ok()
}

/// What an ebuild of this text gives. `steps` takes the steps of its run, and none where the text is not run: where
/// the EAPI that it names is not known, or a line cannot be read.
///
/// # Errors
/// `Memory` where memory runs out; some or all of the steps may have been taken then.
pub fn source_text<L: Ledger>(
    alloc: Global,
    text: &[u8],
    steps: &mut Steps<L>,
) -> Result<Outcome, Memory>
    requires { length text.now < 2 ^ 32 - 1 }
    ensures outcome { IfOk result (λ outcome. outcome ≡ (sourced text.now).outcome) }
    ensures steps { OnOk result (steps.new ≡ steps.old + (sourced text.now).steps) }
    ensures at_least { steps.old ≤ steps.new }
    ensures at_most { steps.new ≤ steps.old + (sourced text.now).steps }
{
    match eapi_of(text) {
        Some(eapi) => source_in(alloc, text, eapi, steps),
        None => {
            let named = Bytes::from_slice(alloc, eapi_line(text))?;
            Ok(Outcome::Fault(Fault::EapiUnknown(named)))
        }
    }
}
