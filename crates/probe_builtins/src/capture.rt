use eb_bytes::{Bytes, Memory};
use probe_base::{Answer, Fault};
use probe_conditions::put_stop;
use shell_state::{Io, Stop, Target};
use std::alloc::Global;

/// Inputs and outputs of which the standard output is captured.
pub fn capturing(alloc: Global) -> Result<Io, Memory> {
    let mut io = Io::new(alloc);
    io.captures.begin()?;
    io.out = Target::Capture(0);
    Ok(io)
}

/// Puts `ok`, the status of a builtin and what it printed, or why it has none.
pub fn put_status(status: &Result<u8, Stop>, io: &mut Io, answer: &mut Answer) {
    match status {
        Ok(status) => {
            answer.word("ok");
            answer.number(u64::from(*status));
            put_captured(io.captures.finish(), answer);
        }
        Err(stop) => put_stop(stop, answer),
    }
}

fn put_captured(text: Option<Bytes>, answer: &mut Answer) {
    match text {
        Some(text) => answer.text(text.as_slice()),
        None => answer.fail(Fault::NoRequest),
    }
}
