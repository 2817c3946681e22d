ghost use Rattle.std.specs.Prelude.{◌≡◌, ◌+◌, ◌<◌, ◌≤◌, length, IfOk, OnOk, Some};
ghost use Rattle.std.specs.FinMap as map;
ghost use Rattle.eb_files.specs.Causes.{HasCause};
ghost use Rattle.eb_files.specs.Files.{Files};
ghost use Rattle.egencache.specs.Placed.{requested};
ghost use Rattle.eb_bytes.specs.Text.{Text};
ghost use Rattle.egencache.specs.Report.{absent_text, fail_text, file_answer, outcome_status, outcome_text};
ghost use Rattle.egencache.specs.Answered.{IsReportStatus, TellsReport, is_unread};

use crate::fault::{Fault, append_fault};
use crate::request::Request;
use crate::source::{Outcome, source_text};
use crate::status::Status;
use eb_bytes::{Bytes, Memory, Steps};
use eb_files::{Tree, TreeErr};
use ebuild_names::bad_kind;
use md5_cache::write_entry;
use std::alloc::Global;
use std::sync::ledger::Ledger;

/// The most bytes that a file of an ebuild may have: 1 MiB.
const MAX_EBUILD: usize = 1_048_576;

/// What is put, and how the program ends where it could be put.
#[derive(Drop)]
pub struct Report {
    pub status: Status,
    pub text: Bytes,
}

/// Why there is no report.
#[derive(Clone, Copy)]
pub enum ReportErr {
    /// A file could not be read.
    FileFault,
    Memory,
}

impl From<Memory> for ReportErr {
    ghost use Rattle.std.specs.Prelude.{◌≡◌};
    ghost use Rattle.egencache.specs.declared.report.ReportErr.TheVariants as why;

    ghost from_gives = { λ _ error. error ≡ why.Memory };

    fn from(_error: Memory) -> ReportErr {
        ReportErr::Memory
    }
}

// The line that says why an ebuild has no entry.
fn fail_line(alloc: Global, at: &[u8], fault: &Fault) -> Result<Bytes, Memory>
    ensures { IfOk result (λ text. text ≡ fail_text at.now fault.now) }
{
    let mut text = Bytes::from_slice(alloc, b"fail ")?;
    text.extend(at)?;
    text.extend(b": ")?;
    append_fault(alloc, &mut text, fault)?;
    text.extend(b"\n")?;
    Ok(text)
}

// The line that says that there is no such ebuild.
fn absent_line(alloc: Global, at: &[u8]) -> Result<Bytes, Memory>
    ensures { IfOk result (λ text. text ≡ absent_text at.now) }
{
    let mut text = Bytes::from_slice(alloc, b"egencache: repository: no such ebuild ")?;
    text.extend(at)?;
    text.extend(b"\n")?;
    Ok(text)
}

fn fault_report(alloc: Global, at: &[u8], fault: &Fault) -> Result<Report, Memory>
    ensures status { IfOk result (λ report. report.status ≡ Status.SomeFailed) }
    ensures text { IfOk result (λ report. report.text ≡ fail_text at.now fault.now) }
{
    Ok(Report {
        status: Status::SomeFailed,
        text: fail_line(alloc, at, fault)?,
    })
}

fn outcome_report(alloc: Global, at: &[u8], outcome: &Outcome) -> Result<Report, Memory>
    ensures status { IfOk result (λ report. report.status ≡ outcome_status outcome.now) }
    ensures text { IfOk result (λ report. report.text ≡ outcome_text at.now outcome.now) }
{
    match outcome {
        Outcome::Entry(entry) => Ok(Report {
            status: Status::Done,
            text: write_entry(alloc, entry)?,
        }),
        Outcome::Fault(fault) => fault_report(alloc, at, fault),
    }
}

// The report on an ebuild of this text.
fn file_report<L: Ledger>(
    alloc: Global,
    request: &Request<'_>,
    text: &[u8],
    steps: &mut Steps<L>,
) -> Result<Report, Memory>
    requires { length text.now ≤ MAX_EBUILD }
    ensures status { IfOk result (λ report. report.status ≡ (file_answer (requested request.now) (Some text.now)).status) }
    ensures text { IfOk result (λ report. report.text ≡ (file_answer (requested request.now) (Some text.now)).text) }
    ensures steps { OnOk result (steps.new ≡ steps.old + (file_answer (requested request.now) (Some text.now)).steps) }
    ensures at_least { steps.old ≤ steps.new }
    ensures at_most { steps.new ≤ steps.old + (file_answer (requested request.now) (Some text.now)).steps }
{
    if let Some(kind) = bad_kind(&request.place) {
        return fault_report(alloc, request.at, &Fault::NameBad(kind));
    }
    let outcome = source_text(alloc, text, steps)?;
    outcome_report(alloc, request.at, &outcome)
}

// The report on an ebuild whose file is too large.
fn large_report(alloc: Global, request: &Request<'_>) -> Result<Report, Memory>
    ensures status { IfOk result (λ report. report.status ≡ Status.SomeFailed) }
    ensures told { IfOk result (λ report. (text : Text) → MAX_EBUILD < length text → report.text ≡ (file_answer (requested request.now) (Some text)).text) }
{
    let fault = match bad_kind(&request.place) {
        Some(kind) => Fault::NameBad(kind),
        None => Fault::FormNotYet(0),
    };
    fault_report(alloc, request.at, &fault)
}

/// The report on the ebuild that was asked for. `steps` takes the steps of its run.
///
/// # Errors
/// `FileFault` where its file could not be read; `Memory` where memory runs out. Some or all of the steps
/// may have been taken then.
pub fn print_report<T: Tree, L: Ledger>(
    alloc: Global,
    request: &Request<'_>,
    tree: &mut T,
    steps: &mut Steps<L>,
) -> Result<Report, ReportErr>
    ensures files { T.files tree.new ≡ T.files tree.old }
    ensures told { (f : Files) → T.files tree.old ≡ Some f → TellsReport result (file_answer (requested request.now) (map.get f request.now.path)) steps.old steps.new }
    ensures cause { HasCause (is_unread result) (T.faults tree.old) (T.faults tree.new) (T.may_fail tree.old) (T.may_fail tree.new) }
    ensures status { IfOk result (λ report. IsReportStatus report.status) }
{
    match tree.read(alloc, &request.path, MAX_EBUILD) {
        Ok(None) => Ok(Report {
            status: Status::RepoBad,
            text: absent_line(alloc, request.at)?,
        }),
        Ok(Some(text)) => Ok(file_report(alloc, request, text.as_slice(), steps)?),
        Err(TreeErr::TooLarge) => Ok(large_report(alloc, request)?),
        Err(TreeErr::Failed) => Err(ReportErr::FileFault),
        Err(TreeErr::Memory) => Err(ReportErr::Memory),
    }
}
