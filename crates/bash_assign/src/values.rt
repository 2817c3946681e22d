ghost use Rattle.std.specs.Prelude.{◌≡◌, ◌≢◌, Err, OnErr};
ghost use Rattle.shell_vars.specs.Store.{kinds};
ghost use Rattle.shell_state.specs.Outcome.{Tells};
ghost use Rattle.shell_state.specs.State.{State};
ghost use Rattle.bash_assign.specs.Assignments.{assigns, sets};

use eb_bytes::Bytes;
use shell_state::Stop;
use shell_vars::{Value, Vars};
use std::alloc::Global;

/// Gives a text to a variable, or to its element of this index (Bash Reference Manual, "Shell Parameters", "Arrays"). A
/// text that is given to a name that holds an array becomes its element 0.
///
/// # Errors
/// The fault of a refusal, with the name: `Readonly`, `BadSubscript` where a negative index is negative still after the
/// greatest index plus one was added, `ValueSize`, `TotalSize`, in this order; and `Memory`. Nothing changed then.
#[tactic(auto, using(crate::proofs::Assigned::refused))]
pub fn assign(
    alloc: Global,
    vars: &mut Vars,
    name: &[u8],
    index: Option<i64>,
    text: Bytes,
) -> Result<(), Stop>
    ensures means { (at : State) → at.store ≡ vars.old.present →
        Tells result (assigns name.now index text at) (record at { store = vars.new.present }) }
    ensures no_file { result ≢ Err Stop.Failed }
    ensures unchanged { OnErr result (vars.new ≡ vars.old) }
    ensures saved { vars.new.saved ≡ vars.old.saved }
    ensures kinds { kinds vars.new.present ≡ kinds vars.old.present }
{
    match vars.assign(name, index, text) {
        Ok(()) => Ok(()),
        Err(refused) => Err(Stop::of_variable(alloc, name, refused)),
    }
}

/// Gives a value to a variable (Bash Reference Manual, "Shell Parameters", "Arrays").
///
/// # Errors
/// The fault of a refusal, with the name: `Readonly`, `ValueSize`, `TotalSize`, in this order; and `Memory`. Nothing
/// changed then.
#[tactic(auto, using(crate::proofs::Assigned::not_set))]
pub fn set(alloc: Global, vars: &mut Vars, name: &[u8], value: Value) -> Result<(), Stop>
    ensures means { (at : State) → at.store ≡ vars.old.present →
        Tells result (sets name.now value at) (record at { store = vars.new.present }) }
    ensures no_file { result ≢ Err Stop.Failed }
    ensures unchanged { OnErr result (vars.new ≡ vars.old) }
    ensures saved { vars.new.saved ≡ vars.old.saved }
    ensures kinds { kinds vars.new.present ≡ kinds vars.old.present }
{
    match vars.set(name, value) {
        Ok(()) => Ok(()),
        Err(refused) => Err(Stop::of_variable(alloc, name, refused)),
    }
}
