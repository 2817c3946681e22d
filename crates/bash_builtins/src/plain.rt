ghost use Rattle.std.specs.Prelude.{◌≡◌, ◌≢◌, ◌+◌, ◌≤◌, Err, OnErr};
ghost use Rattle.shell_vars.specs.Store.{kinds};
ghost use Rattle.shell_state.specs.Outcome.{Tells};
ghost use Rattle.shell_state.specs.Spending.{left};
ghost use Rattle.shell_state.specs.State.{State};
ghost use Rattle.bash_builtins.specs.Builtins.{acts};

use crate::names::Plain;
use bash_options::shopt;
use bash_printf::{echo, printf};
use bash_read::read;
use eb_bytes::{Budget, Bytes, Steps};
use shell_state::{Io, Opts, Stop};
use shell_vars::Vars;
use std::alloc::Global;
use std::sync::ledger::Ledger;

/// Runs a builtin with these words and answers its status: `:` and `true` do nothing and answer 0, `false` 1; the others
/// are [`echo`], [`printf`], [`read`] and [`shopt`].
///
/// # Errors
/// Those of the builtin. Nothing was printed then, and no option switched.
pub fn run_builtin<L: Ledger>(
    alloc: Global,
    builtin: Plain,
    words: &[Bytes],
    vars: &mut Vars,
    opts: &mut Opts,
    io: &mut Io,
    budget: &mut Budget,
    steps: &mut Steps<L>,
) -> Result<u8, Stop>
    ensures means { (at : State) → at.store ≡ vars.old.present → at.opts ≡ opts.old → at.io ≡ io.old → at.left ≡ left budget.old →
        Tells result (acts builtin words.now at) (record at { store = vars.new.present; opts = opts.new; io = io.new; left = left budget.new }) }
    ensures no_file { result ≢ Err Stop.Failed }
    ensures unswitched { OnErr result (opts.new ≡ opts.old) }
    ensures unprinted { OnErr result (io.new ≡ record io.old { place = io.new.place }) }
    ensures saved { vars.new.saved ≡ vars.old.saved }
    ensures kinds { kinds vars.new.present ≡ kinds vars.old.present }
    ensures limit { budget.new.limit ≡ budget.old.limit }
    ensures used { budget.old.used ≤ budget.new.used }
    ensures ticks { steps.new + budget.old.used ≡ steps.old + budget.new.used }
{
    match builtin {
        Plain::Colon | Plain::True => Ok(0),
        Plain::False => Ok(1),
        Plain::Echo => echo(alloc, words, io, budget, steps),
        Plain::Printf => printf(alloc, words, vars, io, budget, steps),
        Plain::Read => read(alloc, words, vars, io),
        Plain::Shopt => shopt(alloc, words, opts, io, budget, steps),
    }
}
