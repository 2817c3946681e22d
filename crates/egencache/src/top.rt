ghost use Rattle.std.specs.Prelude.{◌≡◌};
ghost use Rattle.eb_bytes.specs.Text.{Text};
ghost use Rattle.eb_files.specs.Causes.{HasCause, Rose};
ghost use Rattle.eb_files.specs.Files.{Files};
ghost use Rattle.egencache.specs.Answered.{Answers, EndsPut, EndsUsage, IsPutStatus, Puts, PutsAllOrNothing, SinkCause, is_file_fault, is_report_fault};
ghost use Rattle.egencache.specs.Report.{answer_to, file_fault_text, usage_text};
ghost use Rattle.egencache.specs.Request.{request_of};

use crate::report::{ReportErr, print_report};
use crate::request::read_request;
use crate::status::Status;
use eb_bytes::{Bytes, Steps};
use eb_files::{Sink, SinkErr, Tree};
use std::alloc::Global;
use std::sync::ledger::Ledger;

const USAGE: &[u8] = b"egencache: usage\n";

const FILE_FAULT: &[u8] = b"egencache: file fault\n";

// Puts a text, and ends with the status where that could be done.
fn put_text<S: Sink>(out: &mut S, text: &[u8], status: Status) -> Status
    requires { IsPutStatus status }
    ensures ends { EndsPut result status }
    ensures puts { (held : Text) → S.written out.old ≡ Some held → Puts result text.now held (S.written out.new) }
    ensures cause { HasCause (is_report_fault result) (S.faults out.old) (S.faults out.new) (S.may_fail out.old) (S.may_fail out.new) }
{
    match out.put(text) {
        Ok(()) => status,
        Err(SinkErr::Failed) => Status::ReportFault,
        Err(SinkErr::Memory) => Status::Memory,
    }
}

/// Runs the command that the arguments name: `print REPO CAT/PN/FILE` puts the cache entry of one ebuild, or says why
/// there is none.
///
/// No file changes. Where the tree's files and what the sink holds are known, all of the answer's text is put with the
/// statuses 0 to 3, some first bytes of it with 5 and 6, and some first bytes of the line of a file fault with 4.
/// `steps` counts the steps of the ebuild's run: all of them with the statuses 0 to 3 and 5, none with 4.
pub fn egencache<T: Tree, S: Sink, L: Ledger>(
    alloc: Global,
    words: &[Bytes],
    tree: &mut T,
    out: &mut S,
    steps: &mut Steps<L>,
) -> Status
    ensures files { T.files tree.new ≡ T.files tree.old }

    // 0 to 3 exactly as the arguments and the files say, with the steps of the run.
    ensures answers { (f : Files) → T.files tree.old ≡ Some f → Answers result (answer_to words.now f) steps.old steps.new }
    ensures puts { (f : Files) (held : Text) → T.files tree.old ≡ Some f → S.written out.old ≡ Some held → Puts result (answer_to words.now f).text held (S.written out.new) }

    // 2 exactly where the arguments are invalid, also where the tree's files are not known.
    ensures usage { request_of words.now ≡ None → EndsUsage result }
    ensures usage_puts { (held : Text) → request_of words.now ≡ None → S.written out.old ≡ Some held → Puts result usage_text held (S.written out.new) }
    ensures usage_steps { request_of words.now ≡ None → steps.new ≡ steps.old }
    ensures only_usage { result ≡ Status.Usage → request_of words.now ≡ None }

    // 4 exactly where the tree failed, 5 exactly where the sink failed and the tree did not, so each other status only
    // where neither did. Each failure is counted once.
    ensures tree_cause { HasCause (is_file_fault result) (T.faults tree.old) (T.faults tree.new) (T.may_fail tree.old) (T.may_fail tree.new) }
    ensures sink_cause { SinkCause result (S.faults out.old) (S.faults out.new) (S.may_fail out.old) (S.may_fail out.new) }

    // With 4, the whole line is put where the sink had no fault, or nothing where it ran out of memory.
    ensures fault_line { (held : Text) → result ≡ Status.FileFault → S.written out.old ≡ Some held → (Rose (S.faults out.old) (S.faults out.new) → ⊥) → PutsAllOrNothing file_fault_text held (S.written out.new) }
{
    let request = match read_request(alloc, words) {
        Ok(Some(request)) => request,
        Ok(None) => return put_text(out, USAGE, Status::Usage),
        Err(_) => return Status::Memory,
    };
    match print_report(alloc, &request, tree, steps) {
        Ok(report) => put_text(out, report.text.as_slice(), report.status),
        Err(ReportErr::Memory) => Status::Memory,
        Err(ReportErr::FileFault) => {
            // The status says so also where the line cannot be put.
            let _ = out.put(FILE_FAULT);
            Status::FileFault
        }
    }
}
