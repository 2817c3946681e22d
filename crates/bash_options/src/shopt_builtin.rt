ghost use Rattle.std.specs.Prelude.{◌≡◌, ◌≢◌, ◌+◌, ◌≤◌, ◌++◌, Err, IfOk, OnErr, OnOk, fold};
ghost use Rattle.std.specs.List.{list_all};
ghost use Rattle.shell_state.specs.Outcome.{Tells};
ghost use Rattle.shell_state.specs.Spending.{left};
ghost use Rattle.shell_state.specs.State.{State};
ghost use Rattle.bash_options.specs.Options.{is_on as is_on_of, with_option as with_option_of};
ghost use Rattle.bash_options.specs.Refused.{IsFault};
ghost use Rattle.bash_options.specs.Seen.{seen_fault};
ghost use Rattle.bash_options.specs.Shopt.{line, switch, lines as lines_of, shopt as does_shopt, shows, status as status_of, switched as switched_of, tells as tells_of};

use crate::refused::{bad_option, bad_use};
use crate::shopt_words::{Asked, Job, Wrong, read_words};
use eb_bytes::{Budget, Bytes, Memory, Steps};
use shell_state::{Io, Opts, Stop};
use std::alloc::Global;
use std::sync::ledger::Ledger;

/// `shopt`: switches the options of these names, prints them, or tells whether they are on (Bash Reference Manual, "The
/// Shopt Builtin"). There are `extglob`, `nullglob` and `failglob`. With `-s` they are on from now on, with `-u` off. With
/// `-p` a line for each is printed, which would make it what it is. With `-q`, and with none of the others, the status is
/// 1 where one is off then; else it is 0. What is printed costs its bytes and 1, divided by 64, also where it goes nowhere.
///
/// # Errors
/// `BadOption` where it has no option of a letter, with `-` and that letter; `BadUse` without a name, and where `-s` stands
/// with `-u`; `BadOption` with a name that is none of the three; `StepsSpent`; `ValueSize` where a command substitution
/// would capture more than 1,048,576 bytes; and `Memory`. Nothing was switched or printed then.
#[tactic(auto, using(crate::proofs::Acting::refused))]
pub fn shopt<L: Ledger>(
    alloc: Global,
    words: &[Bytes],
    opts: &mut Opts,
    io: &mut Io,
    budget: &mut Budget,
    steps: &mut Steps<L>,
) -> Result<u8, Stop>
    ensures means { (at : State) → at.opts ≡ opts.old → at.io ≡ io.old → at.left ≡ left budget.old →
        Tells result (does_shopt words.now at) (record at { opts = opts.new; io = io.new; left = left budget.new }) }
    ensures no_file { result ≢ Err Stop.Failed }
    ensures unswitched { OnErr result (opts.new ≡ opts.old) }
    ensures unprinted { OnErr result (io.new ≡ io.old) }
    ensures limit { budget.new.limit ≡ budget.old.limit }
    ensures used { budget.old.used ≤ budget.new.used }
    ensures ticks { steps.new + budget.old.used ≡ steps.old + budget.new.used }
{
    match read_words(words) {
        Job::Asks(asked, names) => {
            let switched = switched(asked, *opts, names);
            show(alloc, asked, switched, names, io, budget, steps)?;
            *opts = switched;
            Ok(status(asked, switched, names))
        }
        Job::Refused(why) => Err(refused(alloc, why)),
    }
}

// Prints what is asked, of the options as they are then.
#[tactic(auto, using(crate::proofs::Acting::silent, crate::proofs::Acting::loud, crate::proofs::Acting::shows_left))]
fn show<L: Ledger>(
    alloc: Global,
    asked: Asked,
    opts: Opts,
    names: &[Bytes],
    io: &mut Io,
    budget: &mut Budget,
    steps: &mut Steps<L>,
) -> Result<(), Stop>
    ensures means { (at : State) → at.io ≡ io.old → at.left ≡ left budget.old →
        Tells result (shows asked (lines_of opts names.now) at) (record at { io = io.new; left = left budget.new }) }
    ensures no_file { result ≢ Err Stop.Failed }
    ensures unprinted { OnErr result (io.new ≡ io.old) }
    ensures limit { budget.new.limit ≡ budget.old.limit }
    ensures used { budget.old.used ≤ budget.new.used }
    ensures ticks { steps.new + budget.old.used ≡ steps.old + budget.new.used }
{
    if !asked.prints {
        return Ok(());
    }
    let lines = lines(alloc, opts, names)?;
    io.print(lines.as_slice(), budget, steps)
}

fn refused(alloc: Global, why: Wrong<'_>) -> Stop
    ensures { IsFault result (seen_fault why.entry) }
{
    match why {
        Wrong::BadUse => bad_use(alloc, b"shopt"),
        Wrong::BadLetter(letter) => bad_option(alloc, b"shopt", &[b'-', letter]),
        Wrong::BadName(name) => bad_option(alloc, b"shopt", name),
    }
}

// The options once those of these names are on or off, where that is asked.
fn switched(asked: Asked, opts: Opts, names: &[Bytes]) -> Opts
    ensures { result ≡ switched_of asked opts names.now }
{
    if asked.sets {
        with_options(true, opts, names)
    } else if asked.unsets {
        with_options(false, opts, names)
    } else {
        opts
    }
}

fn with_options(on: bool, opts: Opts, names: &[Bytes]) -> Opts
    ensures { result ≡ fold (with_option_of on) opts names.now }
{
    let mut opts = opts;
    for name in names {
        opts = with_option(on, opts, name.as_slice());
    }
    opts
}

fn with_option(on: bool, opts: Opts, name: &[u8]) -> Opts
    ensures { result ≡ with_option_of on opts name.now }
{
    let mut opts = opts;
    if name == b"extglob".as_slice() {
        opts.extglob = on;
    } else if name == b"nullglob".as_slice() {
        opts.nullglob = on;
    } else {
        opts.failglob = on;
    }
    opts
}

fn is_on(opts: Opts, name: &[u8]) -> bool
    ensures { result ≡ is_on_of opts name.now }
{
    if name == b"extglob".as_slice() {
        opts.extglob
    } else if name == b"nullglob".as_slice() {
        opts.nullglob
    } else {
        opts.failglob
    }
}

fn status(asked: Asked, opts: Opts, names: &[Bytes]) -> u8
    ensures { result ≡ status_of asked opts names.now }
{
    u8::from(tells(asked) && !are_on(opts, names))
}

// Whether the status tells if all are on.
fn tells(asked: Asked) -> bool
    ensures { result ≡ tells_of asked }
{
    asked.quiet || !(asked.sets || asked.unsets || asked.prints)
}

fn are_on(opts: Opts, names: &[Bytes]) -> bool
    ensures { result ≡ list_all (is_on_of opts) names.now }
{
    names.iter().all(|name| is_on(opts, name.as_slice()))
}

// For each name, how its option is switched to what it is.
fn lines(alloc: Global, opts: Opts, names: &[Bytes]) -> Result<Bytes, Memory>
    ensures { IfOk result (λ lines. lines ≡ lines_of opts names.now) }
{
    let mut lines = Bytes::new(alloc);
    for name in names {
        put_line(&mut lines, opts, name.as_slice())?;
    }
    Ok(lines)
}

fn put_line(lines: &mut Bytes, opts: Opts, name: &[u8]) -> Result<(), Memory>
    ensures { OnOk result (lines.new ≡ lines.old ++ line opts name.now) }
{
    lines.extend(b"shopt ")?;
    lines.extend(switch(is_on(opts, name)))?;
    lines.extend(name)?;
    lines.extend(b"\n")
}

fn switch(on: bool) -> &'static [u8]
    ensures { result.now ≡ switch on }
{
    if on { b"-s " } else { b"-u " }
}
