ghost use Rattle.std.specs.Prelude.{◌≡◌, ◌↔◌, [], IsTrue, Some};
ghost use Rattle.script_host.specs.Host.{all_end, asked_only, commands_of, saved_with};
ghost use Rattle.shell_host.specs.Hosts.{MayFinish, opened_before};

use crate::scripts::Scripts;
use eb_bytes::{Budget, Bytes, Memory, Steps};
use shell_functions::Funcs;
use shell_host::{Host, HostCall, HostStep};
use shell_state::{Opts, Stop};
use shell_vars::Vars;
use std::alloc::Global;
use std::collections::VecDeque;
use std::sync::ledger::Ledger;

/// A host over scripts: each is a command by its name, which takes any arguments and ends as the script does. The names of
/// the scripts that it handed out are the names asked.
#[derive(Drop)]
pub struct ScriptHost {
    alloc: Global,
    scripts: Scripts,
    // How many scripts are open.
    running: usize,
    // Of each open subshell, the innermost first, how many scripts were open as it began.
    subshells: VecDeque<usize>,
    asked: Vec<Bytes>,
}

impl ScriptHost {
    /// A host over these scripts, of which none was asked for. Takes no memory.
    pub fn new(alloc: Global, scripts: Scripts) -> ScriptHost
        ensures commands { ⟦<ScriptHost as Host>⟧.commands result ≡ Some (commands_of scripts) }
        ensures context { ⟦<ScriptHost as Host>⟧.context result ≡ asked_only [] }
        ensures pending { ⟦<ScriptHost as Host>⟧.pending result ≡ [] }
        ensures saved { ⟦<ScriptHost as Host>⟧.saved result ≡ [] }
    {
        ScriptHost {
            alloc,
            scripts,
            running: 0,
            subshells: VecDeque::new(alloc),
            asked: Vec::new(alloc),
        }
    }

    /// The names of the scripts that were handed out, in order.
    pub fn asked(&self) -> &[Bytes]
        ensures { (⟦<ScriptHost as Host>⟧.context self.now).asked ≡ result.now }
    {
        self.asked.as_slice()
    }
}

impl Host for ScriptHost {
    ghost use Rattle.std.specs.Prelude.{Some, false};
    ghost use Rattle.script_host.specs.Host.{all_end, asked_only, commands_of, saved_with};
    ghost use Rattle.script_host.specs.Lasting.{commands_last};

    ghost commands = { λ h. Some (commands_of h.scripts) };

    ghost context = { λ h. asked_only h.asked.items };

    ghost pending = { λ h. all_end h.running };

    ghost saved = { λ h. saved_with h.subshells.items };

    ghost faults = { λ _. 0 };

    ghost may_fail = { λ _. false };

    #[tactic(auto, using(crate::proofs::Open::opened_one))]
    fn begin<L: Ledger>(
        &mut self,
        call: &HostCall<'_>,
        _vars: &mut Vars,
        _funcs: &mut Funcs,
        _opts: &Opts,
        _budget: &mut Budget,
        _steps: &mut Steps<L>,
    ) -> Result<HostStep, Stop> {
        let Some(parsed) = self.scripts.find(call.name) else {
            return Ok(HostStep::NotMine);
        };
        let script = parsed.share()?;
        let running = self.running.checked_add(1).ok_or(Memory)?;
        let name = Bytes::from_slice(self.alloc, call.name)?;
        self.asked.push(name)?;
        self.running = running;
        Ok(HostStep::Source(script))
    }

    #[tactic(auto, using(crate::proofs::Open::as_many))]
    fn finish<L: Ledger>(
        &mut self,
        status: u8,
        _vars: &mut Vars,
        _funcs: &mut Funcs,
        _opts: &Opts,
        _budget: &mut Budget,
        _steps: &mut Steps<L>,
    ) -> Result<HostStep, Stop> {
        if !self.may_finish() {
            return Ok(HostStep::NotMine);
        }
        self.running -= 1;
        Ok(HostStep::Done {
            status,
            output: Bytes::new(self.alloc),
        })
    }

    fn open_sub(&mut self) -> Result<(), Memory> {
        self.subshells.push_front(self.running)?;
        Ok(())
    }

    fn drop_sub(&mut self) {
        let _ = self.subshells.pop_front();
    }

    ghost lasts = { commands_last };
}

impl ScriptHost {
    // How many scripts were open as the innermost subshell began.
    fn open_outside(&self) -> usize
        ensures { result ≡ opened_before (saved_with self.now.subshells.items) }
    {
        match self.subshells.front() {
            Some(count) => *count,
            None => 0,
        }
    }

    // Whether a script is open that was handed out since the innermost subshell began.
    #[tactic(auto, using(crate::proofs::Open::may_finish, crate::proofs::Open::is_open))]
    fn may_finish(&self) -> bool
        ensures { IsTrue result ↔ MayFinish (saved_with self.now.subshells.items) (all_end self.now.running) }
    {
        self.running > self.open_outside()
    }
}
