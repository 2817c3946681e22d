ghost use Rattle.std.specs.Prelude.{◌≡◌, ◌≢◌, ◌+◌, ◌≤◌, Err, OnErr};
ghost use Rattle.shell_state.specs.Output.{may_put, put, Prints, Puts};
ghost use Rattle.shell_state.specs.Spending.{Spends, text_cost};
ghost use Rattle.bash_printf.specs.Printing.{Judges};

use eb_bytes::{Budget, Bytes, Steps};
use printf_format::{Drawn, Ending};
use shell_state::{Fault, Io, Stop, Target, spend};
use std::alloc::Global;
use std::sync::ledger::Ledger;

// The cost of a text of 2^64 bytes.
const GREATEST_COST: u64 = 0x0400_0000_0000_0000;

// Whether a builtin of this name may print what ends so: its fault, if it has one.
pub(crate) fn judge(alloc: Global, command: &[u8], ending: Ending) -> Result<(), Stop>
    ensures { Judges result command.now ending }
{
    match ending {
        Ending::Through | Ending::Stopped => Ok(()),
        Ending::BadUse => {
            let command = Bytes::from_slice(alloc, command)?;
            Err(Stop::Fault(Fault::BadUse(command)))
        }
        Ending::Quoting => {
            let what = Bytes::from_slice(alloc, b"quoting")?;
            Err(Stop::Fault(Fault::Unsupported(what)))
        }
    }
}

// Prints a text whose fillings are not made yet. Where it goes nowhere they are not made at all.
pub(crate) fn print<L: Ledger>(
    alloc: Global,
    drawn: &Drawn,
    io: &mut Io,
    budget: &mut Budget,
    steps: &mut Steps<L>,
) -> Result<(), Stop>
    ensures means { Prints result drawn.now io.old io.new budget.old budget.new }
    ensures err { OnErr result (io.new ≡ io.old) }
    ensures no_file { result ≢ Err Stop.Failed }
    ensures limit { budget.new.limit ≡ budget.old.limit }
    ensures used { budget.old.used ≤ budget.new.used }
    ensures ticks { steps.new + budget.old.used ≡ steps.old + budget.new.used }
{
    pay(drawn, budget, steps)?;
    put(alloc, drawn, io)
}

// Spends what a text costs. Nobody has room for a text of 2^64 bytes or more.
#[tactic(auto, using(crate::proofs::Paid::more_is_spent, crate::proofs::Paid::more_is_kept))]
pub(crate) fn pay<L: Ledger>(
    drawn: &Drawn,
    budget: &mut Budget,
    steps: &mut Steps<L>,
) -> Result<(), Stop>
    ensures means { Spends result (text_cost drawn.now) budget.old budget.new }
    ensures no_file { result ≢ Err Stop.Failed }
    ensures limit { budget.new.limit ≡ budget.old.limit }
    ensures used { budget.old.used ≤ budget.new.used }
    ensures ticks { steps.new + budget.old.used ≡ steps.old + budget.new.used }
{
    match drawn.size() {
        Some(size) => spend(size / 64, budget, steps),
        None => {
            spend(GREATEST_COST, budget, steps)?;
            Err(Stop::Memory)
        }
    }
}

// Puts it where standard output goes.
fn put(alloc: Global, drawn: &Drawn, io: &mut Io) -> Result<(), Stop>
    ensures { Puts result (may_put io.old.out drawn.now io.old) (put io.old.out drawn.now io.old) io.old io.new }
{
    match io.out {
        Target::Drop => Ok(()),
        target => {
            let text = drawn.make(alloc)?;
            io.put(target, text.as_slice())
        }
    }
}
