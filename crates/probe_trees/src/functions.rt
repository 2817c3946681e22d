use crate::trees::{command_of, put_command};
use eb_syntax::Command;
use probe_base::{Answer, Fault, cut, read_text};
use shared::Shared;
use shell_functions::Funcs;
use std::alloc::Global;

/// `funcs CALL..`: what a history of calls answers, `-` where it answers nothing. The calls stand at the head of
/// `data/functions.rows`.
pub fn funcs(fields: &[&[u8]], answer: &mut Answer) -> Result<(), Fault> {
    let mut funcs = Funcs::new(answer.alloc());
    for field in fields {
        step(field, &mut funcs, answer)?;
    }
    if answer.is_empty() {
        answer.word("-");
    }
    Ok(())
}

fn step(field: &[u8], funcs: &mut Funcs, answer: &mut Answer) -> Result<(), Fault> {
    let Some((call, rest)) = cut(field, b':') else {
        return subshell(field, funcs, answer);
    };
    match (call, cut(rest, b'=')) {
        (b"define", Some((name, text))) => define(answer.alloc(), name, text, funcs)?,
        (b"get", None) => put_body(funcs.get(rest), answer),
        (b"remove", None) => answer.yes_or_no(funcs.remove(rest)),
        _ => return Err(Fault::NoRequest),
    }
    Ok(())
}

fn subshell(call: &[u8], funcs: &mut Funcs, answer: &mut Answer) -> Result<(), Fault> {
    match call {
        b"{" => funcs.open_sub()?,
        b"}" if funcs.is_sub_open() => funcs.drop_sub(),
        b"}" => answer.word("closed"),
        b"open" => answer.yes_or_no(funcs.is_sub_open()),
        _ => return Err(Fault::NoRequest),
    }
    Ok(())
}

fn define(alloc: Global, name: &[u8], field: &[u8], funcs: &mut Funcs) -> Result<(), Fault> {
    let text = read_text(alloc, field)?;
    let body = command_of(alloc, text.as_slice())?;
    funcs.define(name, body)?;
    Ok(())
}

fn put_body(body: Option<&Shared<Command>>, answer: &mut Answer) {
    match body {
        Some(body) => put_command(body.get(), answer),
        None => answer.word("none"),
    }
}
