ghost use Rattle.std.specs.Prelude.{◌≡◌, []};
ghost use Rattle.shell_host.specs.NoHost.{saved_of};

use crate::host::{Host, HostCall, HostStep};
use eb_bytes::{Budget, Memory, Steps};
use shell_functions::Funcs;
use shell_state::{Opts, Stop};
use shell_vars::Vars;
use std::sync::ledger::Ledger;

/// A host without commands.
#[derive(Drop)]
pub struct NoHost {
    // How many subshells are open.
    subshells: usize,
}

impl NoHost {
    /// A host without commands, and without an open subshell.
    pub fn new() -> NoHost
        ensures { saved_of result ≡ [] }
    {
        NoHost { subshells: 0 }
    }
}

impl Host for NoHost {
    ghost use Rattle.std.specs.Prelude.{Some, [], false};
    ghost use Rattle.shell_host.specs.NoHost.{no_commands, no_context, saved_of, no_commands_last};

    ghost commands = { λ _. Some no_commands };

    ghost context = { λ _. no_context };

    ghost pending = { λ _. [] };

    ghost saved = { saved_of };

    ghost faults = { λ _. 0 };

    ghost may_fail = { λ _. false };

    fn begin<L: Ledger>(
        &mut self,
        _call: &HostCall<'_>,
        _vars: &mut Vars,
        _funcs: &mut Funcs,
        _opts: &Opts,
        _budget: &mut Budget,
        _steps: &mut Steps<L>,
    ) -> Result<HostStep, Stop> {
        Ok(HostStep::NotMine)
    }

    fn finish<L: Ledger>(
        &mut self,
        _status: u8,
        _vars: &mut Vars,
        _funcs: &mut Funcs,
        _opts: &Opts,
        _budget: &mut Budget,
        _steps: &mut Steps<L>,
    ) -> Result<HostStep, Stop> {
        // No script is open.
        Ok(HostStep::NotMine)
    }

    fn open_sub(&mut self) -> Result<(), Memory> {
        self.subshells = self.subshells.checked_add(1).ok_or(Memory)?;
        Ok(())
    }

    #[tactic(auto, using(crate::proofs::Subshells::one_is_open, crate::proofs::Subshells::one_ends))]
    fn drop_sub(&mut self) {
        self.subshells -= 1;
    }

    ghost lasts = { no_commands_last };
}
