use crate::openings::{close, open};
use crate::redirections::{put_input, put_text, redirect};
use crate::values::{put_args, read_args, read_number, shift};
use bash_calls::Calls;
use probe_base::{Answer, Fault, cut, read_text};
use probe_conditions::put_stop;
use shell_state::Target;

/// `calls CALL..`: what a history of calls answers, `-` where it answers nothing. The calls stand at the head of
/// `data/calls.rows`.
pub fn calls(fields: &[&[u8]], answer: &mut Answer) -> Result<(), Fault> {
    let mut calls = Calls::new(answer.alloc());
    for field in fields {
        step(field, &mut calls, answer)?;
    }
    if answer.is_empty() {
        answer.word("-");
    }
    Ok(())
}

fn step(field: &[u8], calls: &mut Calls, answer: &mut Answer) -> Result<(), Fault> {
    match cut(field, b':') {
        None => step_alone(field, calls, answer),
        Some((call, rest)) => step_with(call, rest, calls, answer),
    }
}

// A call of which nothing is given.
fn step_alone(call: &[u8], calls: &mut Calls, answer: &mut Answer) -> Result<(), Fault> {
    match call {
        b"close" => close(calls, answer),
        b"args" => put_args(calls.args(), answer),
        b"loops" => answer.number(calls.loops() as u64),
        b"plain" => answer.yes_or_no(calls.is_plain()),
        b"input" => put_input(calls, answer),
        b"capture" => calls.begin_capture()?,
        b"captured" => put_captured(calls, answer),
        _ => return Err(Fault::NoRequest),
    }
    Ok(())
}

fn step_with(
    call: &[u8],
    rest: &[u8],
    calls: &mut Calls,
    answer: &mut Answer,
) -> Result<(), Fault> {
    match call {
        b"open" => open(rest, calls, answer)?,
        b"set" => calls.set_args(read_args(answer.alloc(), rest)?),
        b"shift" => shift(read_number(rest)?, calls, answer),
        b"leave" => calls.set_loops(read_number(rest)?),
        b"redirect" => redirect(rest, calls, answer)?,
        b"out" => put(calls.io.out, rest, calls, answer)?,
        b"err" => put(calls.io.err, rest, calls, answer)?,
        _ => return Err(Fault::NoRequest),
    }
    Ok(())
}

// Puts a text where an output goes.
fn put(target: Target, field: &[u8], calls: &mut Calls, answer: &mut Answer) -> Result<(), Fault> {
    let text = read_text(answer.alloc(), field)?;
    if let Err(stop) = put_text(target, text.as_slice(), calls) {
        put_stop(&stop, answer);
    }
    Ok(())
}

fn put_captured(calls: &mut Calls, answer: &mut Answer) {
    match calls.finish_capture() {
        Some(text) => answer.text(text.as_slice()),
        None => answer.word("none"),
    }
}
