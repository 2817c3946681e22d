ghost use Rattle.std.specs.Prelude.{◌≡◌, ◌<◌};

use crate::capture::{capturing, put_status};
use eb_bytes::{Budget, Bytes, Steps};
use probe_base::{Answer, Fault, read_texts};
use probe_variables::{Known, before_set, read_limit};
use shell_state::Io;
use shell_vars::Vars;
use std::marker::Brand;
use std::sync::ledger::{Blank, Ledger};

/// `echo [steps LIMIT] [WORD]..`: `ok`, the status and what is printed, or `fault` and its text; then `steps` and how
/// many were used.
pub fn echo(fields: &[&[u8]], answer: &mut Answer) -> Result<(), Fault> {
    let (limit, words) = read_limit(fields)?;
    let words = read_texts(answer.alloc(), words)?;
    let mut io = capturing(answer.alloc())?;
    put_echo::<Brand>(words.as_slice(), limit, &mut io, Blank::new(1), answer);
    Ok(())
}

fn put_echo<L: Ledger>(words: &[Bytes], limit: u64, io: &mut Io, blank: Blank, answer: &mut Answer)
    requires name { blank.name ≡ L.name }
    requires parts { blank.parts ≡ L.parts }
    requires some { 0 < blank.parts }
{
    let mut budget = Budget::new(limit);
    let mut steps = Steps::<L>::new(blank);
    let status = bash_printf::echo(answer.alloc(), words, io, &mut budget, &mut steps);
    put_status(&status, io, answer);
    put_steps(&budget, answer);
}

fn put_steps(budget: &Budget, answer: &mut Answer) {
    answer.word("steps");
    answer.number(budget.used());
}

// How many words of `printf` are looked at for the names of variables.
const NAMING: usize = 4;

/// `printf [steps LIMIT] [WORD].. [set GIVEN..]`: the same of `printf`, with these variables; then those that were given,
/// and those that have a value and are named in one of the first four words.
pub fn printf(fields: &[&[u8]], answer: &mut Answer) -> Result<(), Fault> {
    let (limit, fields) = read_limit(fields)?;
    let (words, given) = before_set(fields);
    let mut known = Known::new(answer.alloc(), b"", given)?;
    printf_with(words, limit, &mut known, answer)?;
    known.put(answer);
    Ok(())
}

fn printf_with(
    fields: &[&[u8]],
    limit: u64,
    known: &mut Known,
    answer: &mut Answer,
) -> Result<(), Fault> {
    let words = read_texts(answer.alloc(), fields)?;
    for word in words.iter().take(NAMING) {
        known.push_names(answer.alloc(), word.as_slice())?;
    }
    print_words(words.as_slice(), limit, &mut known.vars, answer)
}

fn print_words(
    words: &[Bytes],
    limit: u64,
    vars: &mut Vars,
    answer: &mut Answer,
) -> Result<(), Fault> {
    let mut io = capturing(answer.alloc())?;
    put_printf::<Brand>(words, limit, vars, &mut io, Blank::new(1), answer);
    Ok(())
}

fn put_printf<L: Ledger>(
    words: &[Bytes],
    limit: u64,
    vars: &mut Vars,
    io: &mut Io,
    blank: Blank,
    answer: &mut Answer,
)
    requires name { blank.name ≡ L.name }
    requires parts { blank.parts ≡ L.parts }
    requires some { 0 < blank.parts }
{
    let mut budget = Budget::new(limit);
    let mut steps = Steps::<L>::new(blank);
    let status = bash_printf::printf(answer.alloc(), words, vars, io, &mut budget, &mut steps);
    put_status(&status, io, answer);
    put_steps(&budget, answer);
}
