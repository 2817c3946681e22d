//! Redirections, and where texts go and come from.

use bash_calls::Calls;
use eb_bytes::Bytes;
use probe_base::{Answer, Fault, cut, read_text};
use probe_conditions::put_stop;
use probe_redirs::redir_of;
use shell_state::{Stop, Target};

/// Makes a redirection, `TEXT=TARGET`: as it is written, and its target as that was expanded, which is the body of a
/// here-document. Puts the fault of one that is refused.
pub fn redirect(field: &[u8], calls: &mut Calls, answer: &mut Answer) -> Result<(), Fault> {
    let (written, target) = cut(field, b'=').ok_or(Fault::NoRequest)?;
    let written = read_text(answer.alloc(), written)?;
    let target = read_text(answer.alloc(), target)?;
    make(&written, &target, calls, answer)
}

fn make(
    written: &Bytes,
    target: &Bytes,
    calls: &mut Calls,
    answer: &mut Answer,
) -> Result<(), Fault> {
    let redir = redir_of(written.as_slice(), answer)?;
    if let Err(stop) = calls.redirect(answer.alloc(), &redir, target.as_slice()) {
        put_stop(&stop, answer);
    }
    Ok(())
}

/// Puts a text where an output goes.
pub fn put_text(target: Target, text: &[u8], calls: &mut Calls) -> Result<(), Stop> {
    calls.io.put(target, text)
}

/// Puts what is left of the input.
pub fn put_input(calls: &Calls, answer: &mut Answer) {
    let input = calls.io.input.as_slice();
    answer.text(input.get(calls.io.place..).unwrap_or(b""));
}
