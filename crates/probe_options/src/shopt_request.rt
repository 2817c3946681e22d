ghost use Rattle.std.specs.Prelude.{◌≡◌, ◌<◌};

use crate::given::{put_options, read_options};
use eb_bytes::{Budget, Bytes, Steps};
use probe_base::{Answer, Fault};
use probe_conditions::put_stop;
use shell_state::{Io, Opts, Target};
use std::marker::Brand;
use std::sync::ledger::{Blank, Ledger};

// How many steps a request may take.
const STEPS: u64 = 10;

/// `shopt ON WORD..`, where `ON` has the names of the options that are on: `ok`, the status, what is printed, how many
/// steps were used, and the names of the options that are on then; or `fault` and its text. It may take 10 steps.
pub fn shopt(on: &[u8], words: &[Bytes], answer: &mut Answer) -> Result<(), Fault> {
    let opts = read_options(answer.alloc(), on)?;
    let mut io = Io::new(answer.alloc());
    io.captures.begin()?;
    io.out = Target::Capture(0);
    call::<Brand>(words, opts, &mut io, Blank::new(1), answer);
    Ok(())
}

fn call<L: Ledger>(words: &[Bytes], mut opts: Opts, io: &mut Io, blank: Blank, answer: &mut Answer)
    requires name { blank.name ≡ L.name }
    requires parts { blank.parts ≡ L.parts }
    requires some { 0 < blank.parts }
{
    let alloc = answer.alloc();
    let mut budget = Budget::new(STEPS);
    let mut steps = Steps::<L>::new(blank);
    match bash_options::shopt(alloc, words, &mut opts, io, &mut budget, &mut steps) {
        Ok(status) => {
            answer.word("ok");
            answer.number(u64::from(status));
            put_printed(io, answer);
            answer.number(budget.used());
            put_options(opts, answer);
        }
        Err(stop) => put_stop(&stop, answer),
    }
}

fn put_printed(io: &mut Io, answer: &mut Answer) {
    match io.captures.finish() {
        Some(text) => answer.text(text.as_slice()),
        None => answer.text(b""),
    }
}
