//! What is opened and closed.

use crate::values::{read_args, read_count};
use bash_calls::{Args, Calls, Open};
use probe_base::{Answer, Fault, cut};
use probe_conditions::put_stop;
use std::alloc::Global;

/// Opens `KIND`, `KIND*N` of them, or a call with its arguments, `call=TEXT,..`. Puts the fault of the first that cannot be
/// opened; those after it are not opened.
pub fn open(field: &[u8], calls: &mut Calls, answer: &mut Answer) -> Result<(), Fault> {
    let (kind, count) = read_count(field)?;
    for _ in 0..count {
        let what = opening(answer.alloc(), kind)?;
        if let Err(stop) = calls.enter(answer.alloc(), what) {
            put_stop(&stop, answer);
            break;
        }
    }
    Ok(())
}

fn opening(alloc: Global, kind: &[u8]) -> Result<Open, Fault> {
    if let Some((b"call", args)) = cut(kind, b'=') {
        return Ok(Open::Call(read_args(alloc, args)?));
    }
    match kind {
        b"call" => Ok(Open::Call(Args::new(alloc))),
        b"eval" => Ok(Open::Eval),
        b"source" => Ok(Open::Source),
        b"sub" => Ok(Open::Sub),
        b"compound" => Ok(Open::Compound),
        b"redirs" => Ok(Open::Redirs),
        _ => Err(Fault::NoRequest),
    }
}

/// Closes the innermost one that is open, or puts `closed`.
pub fn close(calls: &mut Calls, answer: &mut Answer) {
    if calls.is_plain() {
        answer.word("closed");
    } else {
        calls.close();
    }
}
