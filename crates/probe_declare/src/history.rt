ghost use Rattle.std.specs.Prelude.{◌≡◌, ◌<◌};

use crate::arguments::{count_options, declaration_of, read_arguments};
use bash_declare::{Declaration, declare};
use eb_bytes::{Budget, Bytes, Steps, read_decimal};
use eb_syntax::{Command, Simple};
use probe_base::{Answer, Fault, cut, parts, read_text, read_texts};
use probe_conditions::put_stop;
use shared::Shared;
use shell_functions::Funcs;
use shell_state::{Io, Stop, Target};
use shell_vars::{FrameKind, Value, Vars};
use sqlite_items::Items as List;
use std::alloc::Global;
use std::marker::Brand;
use std::sync::ledger::{Blank, Ledger};

// How many steps a history may take that does not say so.
const STEPS: u64 = 5_000_000;

// What the calls act on.
#[derive(Drop)]
struct Shell {
    vars: Vars,
    funcs: Funcs,
    io: Io,
    // Whether a declaration was at fault, which ends a run.
    has_ended: bool,
}

/// `declares [steps LIMIT] CALL..`: what a history of calls answers, up to the first that is at fault; then `steps` and how
/// many were used. The calls stand at the head of `data/declarations.rows`.
pub fn declares(fields: &[&[u8]], answer: &mut Answer) -> Result<(), Fault> {
    let (limit, calls) = match fields {
        [word, limit, calls @ ..] if *word == b"steps".as_slice() => {
            (read_decimal(limit).ok_or(Fault::NoRequest)?, calls)
        }
        calls => (STEPS, calls),
    };
    let alloc = answer.alloc();
    let mut shell = Shell {
        vars: Vars::new(alloc)?,
        funcs: Funcs::new(alloc),
        io: capturing(alloc)?,
        has_ended: false,
    };
    run::<Brand>(calls, limit, &mut shell, Blank::new(1), answer)
}

// Inputs and outputs of which the standard output is captured.
fn capturing(alloc: Global) -> Result<Io, Fault> {
    let mut io = Io::new(alloc);
    io.captures.begin()?;
    io.out = Target::Capture(0);
    Ok(io)
}

fn run<L: Ledger>(
    calls: &[&[u8]],
    limit: u64,
    shell: &mut Shell,
    blank: Blank,
    answer: &mut Answer,
) -> Result<(), Fault>
    requires name { blank.name ≡ L.name }
    requires parts { blank.parts ≡ L.parts }
    requires some { 0 < blank.parts }
{
    let mut budget = Budget::new(limit);
    let mut steps = Steps::<L>::new(blank);
    for call in calls {
        if !shell.has_ended {
            step(call, shell, &mut budget, &mut steps, answer)?;
        }
    }
    answer.word("steps");
    answer.number(budget.used());
    Ok(())
}

fn step<L: Ledger>(
    call: &[u8],
    shell: &mut Shell,
    budget: &mut Budget,
    steps: &mut Steps<L>,
    answer: &mut Answer,
) -> Result<(), Fault> {
    match cut(call, b':') {
        None => frame(call, &mut shell.vars, answer),
        Some((b"do", words)) => {
            let fields = parts(answer.alloc(), words, b',')?;
            let words = read_texts(answer.alloc(), fields.as_slice())?;
            call_of(words.as_slice(), shell, budget, steps, answer)
        }
        Some((b"set", place)) => set(answer.alloc(), place, &mut shell.vars),
        Some((b"define", name)) => define(answer.alloc(), name, &mut shell.funcs),
        Some(_) => Err(Fault::NoRequest),
    }
}

// A call on frames.
fn frame(call: &[u8], vars: &mut Vars, answer: &mut Answer) -> Result<(), Fault> {
    match call {
        b"(" => vars.push_frame(FrameKind::Call)?,
        b"[" => vars.push_frame(FrameKind::Prefix)?,
        b")" if vars.is_frame_open() => vars.pop_frame(),
        b")" => answer.word("closed"),
        _ => return Err(Fault::NoRequest),
    }
    Ok(())
}

fn set(alloc: Global, place: &[u8], vars: &mut Vars) -> Result<(), Fault> {
    let (name, text) = cut(place, b'=').ok_or(Fault::NoRequest)?;
    let text = read_text(alloc, text)?;
    vars.set(name, Value::Text(text))
        .map_err(|_| Fault::NoRequest)
}

fn define(alloc: Global, name: &[u8], funcs: &mut Funcs) -> Result<(), Fault> {
    let nothing = Simple {
        before: List::new(alloc),
        tail: None,
    };
    funcs.define(name, Shared::new(alloc, Command::Simple(nothing))?)?;
    Ok(())
}

// A declaration, of which the first word is the name.
fn call_of<L: Ledger>(
    words: &[Bytes],
    shell: &mut Shell,
    budget: &mut Budget,
    steps: &mut Steps<L>,
    answer: &mut Answer,
) -> Result<(), Fault> {
    let [name, words @ ..] = words else {
        return Err(Fault::NoRequest);
    };
    let (options, words) = words.split_at(count_options(words).min(words.len()));
    let declaration = Declaration {
        name: declaration_of(name.as_slice())?,
        options,
        arguments: read_arguments(answer.alloc(), words)?,
    };
    let alloc = answer.alloc();
    let status = declare(
        alloc,
        declaration,
        &mut shell.vars,
        &shell.funcs,
        &mut shell.io,
        budget,
        steps,
    );
    put_status(&status, shell, answer)
}

fn put_status(
    status: &Result<u8, Stop>,
    shell: &mut Shell,
    answer: &mut Answer,
) -> Result<(), Fault> {
    match status {
        Ok(status) => {
            answer.word("ok");
            answer.number(u64::from(*status));
            put_printed(&mut shell.io, answer)
        }
        Err(stop) => {
            shell.has_ended = true;
            put_stop(stop, answer);
            Ok(())
        }
    }
}

fn put_printed(io: &mut Io, answer: &mut Answer) -> Result<(), Fault> {
    match io.captures.finish() {
        Some(text) => answer.text(text.as_slice()),
        None => answer.word("none"),
    }
    io.captures.begin()?;
    Ok(())
}
