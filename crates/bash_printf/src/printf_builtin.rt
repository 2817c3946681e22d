ghost use Rattle.std.specs.Prelude.{◌≡◌, ◌≢◌, ◌+◌, ◌≤◌, codes, Err, IfOk, OnErr};
ghost use Rattle.std.specs.Option.{option_copied};
ghost use Rattle.shell_vars.specs.Store.{kinds};
ghost use Rattle.shell_state.specs.Outcome.{Tells};
ghost use Rattle.shell_state.specs.Spending.{left};
ghost use Rattle.shell_state.specs.State.{State};
ghost use Rattle.bash_printf.specs.Printf.{given, gives, index_of as index_meant, made, printf as printf_does};
ghost use Rattle.bash_printf.specs.Printing.{IsWrong, told};
ghost use Rattle.bash_printf.specs.Seen.{seen_fault};

use crate::output::{judge, pay, print};
use crate::words_read::{Destination, Job, Wrong, read_words};
use bash_assign::assign;
use bash_cond::value_of;
use eb_bytes::{Budget, Bytes, Memory, Steps};
use printf_format::format_words;
use shell_state::{Fault, Io, Stop};
use shell_vars::Vars;
use std::alloc::Global;
use std::sync::ledger::Ledger;

// A format with its words.
#[derive(Clone, Copy)]
struct Printed<'a> {
    format: &'a [u8],
    words: &'a [Bytes],
}

// A variable, or its element of this index.
#[derive(Clone, Copy)]
struct Place<'a> {
    name: &'a [u8],
    index: Option<i64>,
}

/// `printf`: prints its words by a format, or gives the text to a variable with `-v` (Bash Reference Manual, "Bash
/// Builtin Commands"). It answers the status 0. What is printed or given costs its bytes and 1, divided by 64, before it
/// is made, also where it goes nowhere.
///
/// # Errors
/// `BadUse` without a format or a word after `-v`, where a `%` begins no conversion, or where a word is no number;
/// `BadOption`; `BadName` where a word after `-v` names neither a variable nor an element; the faults of the arithmetic
/// of a subscript, which is evaluated before the text is made; `Unsupported` with `quoting` where an escape `\u` or `\U`
/// is met; `StepsSpent`; `ValueSize` where a command substitution would capture more than 1,048,576 bytes; those of
/// giving a text to a variable; and `Memory`. Nothing was printed then.
#[tactic(auto, unfolding(crate::specs::Printf::printf))]
pub fn printf<L: Ledger>(
    alloc: Global,
    words: &[Bytes],
    vars: &mut Vars,
    io: &mut Io,
    budget: &mut Budget,
    steps: &mut Steps<L>,
) -> Result<u8, Stop>
    ensures means { (at : State) → at.store ≡ vars.old.present → at.io ≡ io.old → at.left ≡ left budget.old →
        Tells result (printf_does words.now at) (record at { store = vars.new.present; io = io.new; left = left budget.new }) }
    ensures no_file { result ≢ Err Stop.Failed }
    ensures unprinted { OnErr result (io.new ≡ io.old) }
    ensures saved { vars.new.saved ≡ vars.old.saved }
    ensures kinds { kinds vars.new.present ≡ kinds vars.old.present }
    ensures limit { budget.new.limit ≡ budget.old.limit }
    ensures used { budget.old.used ≤ budget.new.used }
    ensures ticks { steps.new + budget.old.used ≡ steps.old + budget.new.used }
{
    match read_words(words) {
        Job::Formats(None, format, words) => {
            let printed = Printed { format, words };
            print_format(alloc, &printed, io, budget, steps)
        }
        Job::Formats(Some(to), format, words) => {
            let printed = Printed { format, words };
            give_format(alloc, &to, &printed, vars, budget, steps)
        }
        Job::Refused(why) => Err(refusal(alloc, why)),
    }
}

// Prints a format with its words.
#[tactic(auto, using(crate::proofs::Told::told_ok, crate::proofs::Told::told_err, crate::proofs::Told::told_fault, crate::proofs::Told::told_left))]
fn print_format<L: Ledger>(
    alloc: Global,
    printed: &Printed<'_>,
    io: &mut Io,
    budget: &mut Budget,
    steps: &mut Steps<L>,
) -> Result<u8, Stop>
    ensures means { (at : State) → at.io ≡ io.old → at.left ≡ left budget.old →
        Tells result (told (made printed.now.format.now printed.now.words.now) at) (record at { io = io.new; left = left budget.new }) }
    ensures no_file { result ≢ Err Stop.Failed }
    ensures unprinted { OnErr result (io.new ≡ io.old) }
    ensures limit { budget.new.limit ≡ budget.old.limit }
    ensures used { budget.old.used ≤ budget.new.used }
    ensures ticks { steps.new + budget.old.used ≡ steps.old + budget.new.used }
{
    let formatted = format_words(alloc, printed.format, printed.words)?;
    judge(alloc, b"printf", formatted.ending)?;
    print(alloc, &formatted.text, io, budget, steps)?;
    Ok(0)
}

// Gives the text of a format and its words to a variable or an element.
fn give_format<L: Ledger>(
    alloc: Global,
    to: &Destination<'_>,
    printed: &Printed<'_>,
    vars: &mut Vars,
    budget: &mut Budget,
    steps: &mut Steps<L>,
) -> Result<u8, Stop>
    ensures means { (at : State) → at.store ≡ vars.old.present → at.left ≡ left budget.old →
        Tells result (gives to.now.name.now (option_copied to.now.subscript) (made printed.now.format.now printed.now.words.now) at)
        (record at { store = vars.new.present; left = left budget.new }) }
    ensures no_file { result ≢ Err Stop.Failed }
    ensures saved { vars.new.saved ≡ vars.old.saved }
    ensures kinds { kinds vars.new.present ≡ kinds vars.old.present }
    ensures limit { budget.new.limit ≡ budget.old.limit }
    ensures used { budget.old.used ≤ budget.new.used }
    ensures ticks { steps.new + budget.old.used ≡ steps.old + budget.new.used }
{
    match index_of(alloc, to.subscript, vars, budget, steps) {
        Ok(index) => {
            let place = Place {
                name: to.name,
                index,
            };
            give(alloc, &place, printed, vars, budget, steps)
        }
        Err(stopped) => Err(stopped),
    }
}

// The value of a subscript, if there is one.
fn index_of<L: Ledger>(
    alloc: Global,
    subscript: Option<&[u8]>,
    vars: &mut Vars,
    budget: &mut Budget,
    steps: &mut Steps<L>,
) -> Result<Option<i64>, Stop>
    ensures means { (at : State) → at.store ≡ vars.old.present → at.left ≡ left budget.old →
        Tells result (index_meant (option_copied subscript.entry) at) (record at { store = vars.new.present; left = left budget.new }) }
    ensures no_file { result ≢ Err Stop.Failed }
    ensures saved { vars.new.saved ≡ vars.old.saved }
    ensures kinds { kinds vars.new.present ≡ kinds vars.old.present }
    ensures limit { budget.new.limit ≡ budget.old.limit }
    ensures used { budget.old.used ≤ budget.new.used }
    ensures ticks { steps.new + budget.old.used ≡ steps.old + budget.new.used }
{
    match subscript {
        None => Ok(None),
        Some(text) => match value_of(alloc, text, vars, budget, steps) {
            Ok(value) => Ok(Some(value)),
            Err(stopped) => Err(stopped),
        },
    }
}

// Gives the text of a format and its words to a variable, or to its element of this index, once it is paid.
#[tactic(auto, using(crate::proofs::Given::given_left, crate::proofs::Given::not_given))]
fn give<L: Ledger>(
    alloc: Global,
    place: &Place<'_>,
    printed: &Printed<'_>,
    vars: &mut Vars,
    budget: &mut Budget,
    steps: &mut Steps<L>,
) -> Result<u8, Stop>
    ensures means { (at : State) → at.store ≡ vars.old.present → at.left ≡ left budget.old →
        Tells result (given place.now.name.now place.now.index (made printed.now.format.now printed.now.words.now) at)
        (record at { store = vars.new.present; left = left budget.new }) }
    ensures no_file { result ≢ Err Stop.Failed }
    ensures saved { vars.new.saved ≡ vars.old.saved }
    ensures kinds { kinds vars.new.present ≡ kinds vars.old.present }
    ensures limit { budget.new.limit ≡ budget.old.limit }
    ensures used { budget.old.used ≤ budget.new.used }
    ensures ticks { steps.new + budget.old.used ≡ steps.old + budget.new.used }
{
    let formatted = format_words(alloc, printed.format, printed.words)?;
    judge(alloc, b"printf", formatted.ending)?;
    pay(&formatted.text, budget, steps)?;
    let text = formatted.text.make(alloc)?;
    assign(alloc, vars, place.name, place.index, text)?;
    Ok(0)
}

// What the words being wrong so is to a script: the fault, or out of memory.
fn refusal(alloc: Global, why: Wrong<'_>) -> Stop
    ensures { IsWrong result (seen_fault why.entry) }
{
    match fault_of(alloc, why) {
        Ok(fault) => Stop::Fault(fault),
        Err(Memory) => Stop::Memory,
    }
}

fn fault_of(alloc: Global, why: Wrong<'_>) -> Result<Fault, Memory>
    ensures { IfOk result (λ fault. fault ≡ seen_fault why.entry) }
{
    match why {
        Wrong::BadUse => Ok(Fault::BadUse(Bytes::from_slice(alloc, b"printf")?)),
        Wrong::BadName(word) => Ok(Fault::BadName(Bytes::from_slice(alloc, word)?)),
        Wrong::BadOption(letter) => {
            let command = Bytes::from_slice(alloc, b"printf")?;
            let option = Bytes::from_slice(alloc, &[b'-', letter])?;
            Ok(Fault::BadOption(command, option))
        }
    }
}
