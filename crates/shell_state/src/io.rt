ghost use Rattle.std.specs.Prelude.{◌≡◌, ◌≢◌, ◌+◌, ◌≤◌, [], Err, OnErr};
ghost use Rattle.shell_state.specs.Output.{may_put, put, Prints, Puts};

use crate::captures::Captures;
use crate::spending::{spend, text_cost};
use crate::stop::Stop;
use eb_bytes::{Budget, Bytes, Steps};
use std::alloc::Global;
use std::sync::ledger::Ledger;

/// Where an output goes.
#[derive(Clone, Copy, Debug, PartialEq, Eq)]
pub enum Target {
    /// Nowhere.
    Drop,
    /// To the text that an open command substitution captures, which is counted from the outermost, from 0.
    Capture(usize),
}

/// What commands read from and print to (Bash Reference Manual, "Redirections").
#[derive(Debug, Drop)]
pub struct Io {
    /// The whole standard input.
    pub input: Bytes,
    /// How many bytes of it were read.
    pub place: usize,
    /// Where standard output goes.
    pub out: Target,
    /// Where standard error goes.
    pub err: Target,
    /// What each open command substitution has captured, the outermost first.
    pub captures: Captures,
}

impl Io {
    /// No input, and outputs that go nowhere. Takes no memory.
    pub fn new(alloc: Global) -> Io
        ensures { result ≡ record { input = []; place = 0; out = Target.Drop; err = Target.Drop; captures = [] } }
    {
        Io {
            input: Bytes::new(alloc),
            place: 0,
            out: Target::Drop,
            err: Target::Drop,
            captures: Captures::new(alloc),
        }
    }

    /// Puts a text where an output goes. To a command substitution that is not open nothing is put.
    ///
    /// # Errors
    /// `ValueSize` where a command substitution would capture more than 1,048,576 bytes; `Memory` where there is no
    /// room. Nothing changed then.
    pub fn put(&mut self, target: Target, text: &[u8]) -> Result<(), Stop>
        ensures { Puts result (may_put target text.now self.old) (put target text.now self.old) self.old self.new }
    {
        match target {
            Target::Drop => Ok(()),
            Target::Capture(at) => self.captures.append(at, text),
        }
    }

    /// Prints a text to standard output. It costs its bytes and 1, divided by 64 without the rest, before it is
    /// printed, also where it goes nowhere.
    ///
    /// # Errors
    /// `StepsSpent` where so many steps are not left; `ValueSize` where a command substitution would capture more than
    /// 1,048,576 bytes; `Memory` where there is no room. Nothing was printed then.
    pub fn print<L: Ledger>(
        &mut self,
        text: &[u8],
        budget: &mut Budget,
        steps: &mut Steps<L>,
    ) -> Result<(), Stop>
        ensures means { Prints result text.now self.old self.new budget.old budget.new }
        ensures err { OnErr result (self.new ≡ self.old) }
        ensures no_file { result ≢ Err Stop.Failed }
        ensures limit { budget.new.limit ≡ budget.old.limit }
        ensures used { budget.old.used ≤ budget.new.used }
        ensures ticks { steps.new + budget.old.used ≡ steps.old + budget.new.used }
    {
        spend(text_cost(text), budget, steps)?;
        self.put(self.out, text)
    }
}
