ghost use Rattle.std.specs.Prelude.{◌≡◌, ◌≢◌, ◌∷◌, ◌+◌, ◌<◌, ◌≤◌, ℕ, Bool, IsSome, List, Ok, Option, Some, length, OnErr, OnOk};
ghost use Rattle.eb_files.specs.Causes.{HasCause};
ghost use Rattle.shell_state.specs.Host.{Begins, Begun, Lasts};
ghost use Rattle.shell_state.specs.State.{Context, State};
ghost use Rattle.eb_bytes.specs.Text.{Text};
ghost use Rattle.shell_host.specs.Hosts.{Closes, DoesBegin, DoesFinish, Ends, KeepsFrames, MayEnd, MayFinish, Opens, Saved};
ghost use Rattle.shell_host.specs.Hosts.{held, is_failed, opened_before, saved_at};

use eb_bytes::{Budget, Bytes, Memory, Steps};
use eb_grammar::Parsed;
use shared::Shared;
use shell_functions::Funcs;
use shell_state::{Opts, Stop};
use shell_vars::Vars;
use std::sync::ledger::Ledger;

/// A command that a host is asked for.
#[derive(Clone, Copy)]
pub struct HostCall<'a> {
    /// Whether nothing is open, and neither assignments nor redirections stand with the command.
    pub plain: bool,
    /// The command's name.
    pub name: &'a [u8],
    /// Its arguments.
    pub args: &'a [Bytes],
}

/// What a host does next.
#[derive(Drop)]
pub enum HostStep {
    /// The command ends with this status, and prints this text.
    Done { status: u8, output: Bytes },
    /// This script is to be run, and `finish` to be called at its end.
    Source(Shared<Parsed>),
    /// The host has no command of this name.
    NotMine,
}

/// The commands that come from outside of a shell, as those of a package manager.
///
/// Where it is known what they do, each call answers exactly that. A fault ends the run, and then only what the host
/// keeps of it and the budget count.
pub trait Host {
    /// What its commands do, where that is known.
    ghost commands: { Self → Option Begins };

    /// What it keeps of the run.
    ghost context: { Self → Context };

    /// What its commands do once the scripts end that they handed out, the innermost first.
    ghost pending: { Self → List (State → Begun) };

    /// What the end of each open subshell brings back, the innermost first.
    ghost saved: { Self → List Saved };

    /// How many failures came.
    ghost faults: { Self → ℕ };

    /// Whether a failure may still come.
    ghost may_fail: { Self → Bool };

    /// Begins a command: it ends, or hands out a script to be run, or is `NotMine`, which changes nothing. What opened
    /// the frames of `vars`, and what the ends of open subshells bring back, stays. The steps that it spends are taken on
    /// `steps` too.
    ///
    /// # Errors
    /// The command's fault; `Failed` where a file could not be read, which alone counts as a failure; `Memory` where
    /// there is no room.
    fn begin<L: Ledger>(
        &mut self,
        call: &HostCall<'_>,
        vars: &mut Vars,
        funcs: &mut Funcs,
        opts: &Opts,
        budget: &mut Budget,
        steps: &mut Steps<L>,
    ) -> Result<HostStep, Stop>
        ensures means { (b : Begins) → commands self.old ≡ Some b →
            DoesBegin result (b call.now.plain call.now.name.now call.now.args.now) opts.now
            (held vars.old funcs.old budget.old (context self.old) (pending self.old))
            (held vars.new funcs.new budget.new (context self.new) (pending self.new)) }
        ensures not_mine { result ≡ Ok HostStep.NotMine →
            held vars.new funcs.new budget.new (context self.new) (pending self.new)
            ≡ held vars.old funcs.old budget.old (context self.old) (pending self.old) }
        ensures not_asked { result ≡ Ok HostStep.NotMine → may_fail self.new ≡ may_fail self.old }
        ensures scripts { Opens result (pending self.old) (pending self.new) }
        ensures frames { OnOk result (KeepsFrames vars.old funcs.old vars.new funcs.new) }
        ensures same { commands self.new ≡ commands self.old }
        ensures saved { OnOk result (saved self.new ≡ saved self.old) }
        ensures cause { HasCause (is_failed result) (faults self.old) (faults self.new) (may_fail self.old) (may_fail self.new) }
        ensures limit { budget.new.limit ≡ budget.old.limit }
        ensures used { budget.old.used ≤ budget.new.used }
        ensures ticks { steps.new + budget.old.used ≡ steps.old + budget.new.used };

    /// Goes on with the command that handed out the innermost open script, once that has ended with this status. That
    /// script is closed, and the answer is not `NotMine`; what stays is what `begin` leaves. Where no script is open that
    /// was handed out since the innermost open subshell began, the answer is `NotMine`, and nothing changes.
    ///
    /// # Errors
    /// As those of `begin`.
    fn finish<L: Ledger>(
        &mut self,
        status: u8,
        vars: &mut Vars,
        funcs: &mut Funcs,
        opts: &Opts,
        budget: &mut Budget,
        steps: &mut Steps<L>,
    ) -> Result<HostStep, Stop>
        ensures means { IsSome (commands self.old) → MayFinish (saved self.old) (pending self.old) → DoesFinish result status opts.now
            (held vars.old funcs.old budget.old (context self.old) (pending self.old))
            (held vars.new funcs.new budget.new (context self.new) (pending self.new)) }
        ensures mine { MayFinish (saved self.old) (pending self.old) → result ≢ Ok HostStep.NotMine }
        ensures none { length (pending self.old) ≤ opened_before (saved self.old) → result ≡ Ok HostStep.NotMine }
        ensures nothing { length (pending self.old) ≤ opened_before (saved self.old) →
            held vars.new funcs.new budget.new (context self.new) (pending self.new)
            ≡ held vars.old funcs.old budget.old (context self.old) (pending self.old) }
        ensures scripts { MayFinish (saved self.old) (pending self.old) → Closes result (pending self.old) (pending self.new) }
        ensures frames { OnOk result (KeepsFrames vars.old funcs.old vars.new funcs.new) }
        ensures same { commands self.new ≡ commands self.old }
        ensures saved { OnOk result (saved self.new ≡ saved self.old) }
        ensures cause { HasCause (is_failed result) (faults self.old) (faults self.new) (may_fail self.old) (may_fail self.new) }
        ensures limit { budget.new.limit ≡ budget.old.limit }
        ensures used { budget.old.used ≤ budget.new.used }
        ensures ticks { steps.new + budget.old.used ≡ steps.old + budget.new.used };

    /// Opens a subshell.
    ///
    /// # Errors
    /// `Memory` where there is no room for what its end brings back; nothing changed then.
    fn open_sub(&mut self) -> Result<(), Memory>
        ensures ok { OnOk result (saved self.new ≡ saved_at (context self.old) (pending self.old) ∷ saved self.old) }
        ensures err { OnErr result (saved self.new ≡ saved self.old) }
        ensures same { commands self.new ≡ commands self.old }
        ensures context { context self.new ≡ context self.old }
        ensures pending { pending self.new ≡ pending self.old }
        ensures faults { faults self.new ≡ faults self.old }
        ensures may_fail { may_fail self.new ≡ may_fail self.old };

    /// Ends the innermost subshell, which must be open, and in which every script that it opened has ended. What is kept
    /// is as it was at its beginning, but for the reads and the names asked. Takes no memory.
    fn drop_sub(&mut self)
        requires { MayEnd (saved self.old) (pending self.old) }
        ensures ends { Ends (saved self.old) (context self.old) (saved self.new) (context self.new) }
        ensures same { commands self.new ≡ commands self.old }
        ensures pending { pending self.new ≡ pending self.old }
        ensures faults { faults self.new ≡ faults self.old }
        ensures may_fail { may_fail self.new ≡ may_fail self.old };

    /// Its commands give no steps back and lose no name that was asked.
    ghost lasts: { (host : Self) (b : Begins) → commands host ≡ Some b →
        (plain : Bool) (name : Text) (args : List Text) (at : State) → Lasts at (b plain name args at) };
}
