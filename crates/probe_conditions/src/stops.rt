use eb_bytes::Memory;
use probe_base::{Answer, Fault};
use shell_state::{Fault as ScriptFault, Stop, fault_text};

/// Puts why a call of the shell gives no answer: `fault` and its text.
pub fn put_stop(stop: &Stop, answer: &mut Answer) {
    match stop {
        Stop::Fault(fault) => put_fault(fault, answer),
        Stop::Failed => answer.word("failed"),
        Stop::Memory => answer.fail(Fault::Memory),
    }
}

fn put_fault(fault: &ScriptFault, answer: &mut Answer) {
    answer.word("fault");
    match fault_text(answer.alloc(), fault) {
        Ok(text) => answer.text(text.as_slice()),
        Err(Memory) => answer.fail(Fault::Memory),
    }
}

/// Puts `true` or `false`, or why there is no answer.
pub fn put_truth(truth: &Result<bool, Stop>, answer: &mut Answer) {
    match truth {
        Ok(true) => answer.word("true"),
        Ok(false) => answer.word("false"),
        Err(stop) => put_stop(stop, answer),
    }
}
