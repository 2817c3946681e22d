ghost use Rattle.std.specs.Prelude.{◌≡◌, ◌≢◌, IfOk};
ghost use Rattle.shell_state.specs.Faults.{variable_fault as fault_of};
ghost use Rattle.shell_state.specs.Stops.{IsRefusal};

use crate::fault::Fault;
use eb_bytes::{Bytes, Memory, Spent};
use shell_vars::VarErr;
use std::alloc::{AllocError, AllocFailed, Global};
use thiserror::Error;

/// Why a call of the shell gives no answer.
#[derive(Debug, Drop, Error)]
pub enum Stop {
    /// The script is at fault.
    #[error(transparent)]
    Fault(Fault),
    /// A file that the host needs could not be read.
    #[error("the files could not be reached")]
    Failed,
    /// Out of memory.
    #[error("out of memory")]
    Memory,
}

impl From<Memory> for Stop {
    ghost use Rattle.std.specs.Prelude.{◌≡◌};
    ghost use Rattle.shell_state.specs.declared.stop.Stop.TheVariants as stop;

    ghost from_gives = { λ _ s. s ≡ stop.Memory };

    fn from(_error: Memory) -> Stop {
        Stop::Memory
    }
}

impl From<AllocError> for Stop {
    ghost use Rattle.std.specs.Prelude.{◌≡◌};
    ghost use Rattle.shell_state.specs.declared.stop.Stop.TheVariants as stop;

    ghost from_gives = { λ _ s. s ≡ stop.Memory };

    fn from(_error: AllocError) -> Stop {
        Stop::Memory
    }
}

impl<T: Drop> From<AllocFailed<T>> for Stop {
    ghost use Rattle.std.specs.Prelude.{◌≡◌};
    ghost use Rattle.shell_state.specs.declared.stop.Stop.TheVariants as stop;

    ghost from_gives = { λ _ s. s ≡ stop.Memory };

    fn from(_error: AllocFailed<T>) -> Stop {
        Stop::Memory
    }
}

impl From<Spent> for Stop {
    ghost use Rattle.std.specs.Prelude.{◌≡◌};
    ghost use Rattle.shell_state.specs.declared.fault.Fault.TheVariants as fault;
    ghost use Rattle.shell_state.specs.declared.stop.Stop.TheVariants as stop;

    ghost from_gives = { λ _ s. s ≡ stop.Fault fault.StepsSpent };

    fn from(_error: Spent) -> Stop {
        Stop::Fault(Fault::StepsSpent)
    }
}

impl From<Fault> for Stop {
    ghost use Rattle.std.specs.Prelude.{◌≡◌};
    ghost use Rattle.shell_state.specs.declared.stop.Stop.TheVariants as stop;

    ghost from_gives = { λ f s. s ≡ stop.Fault f };

    fn from(fault: Fault) -> Stop {
        Stop::Fault(fault)
    }
}

fn variable_fault(alloc: Global, name: &[u8], refused: VarErr) -> Result<Fault, Memory>
    ensures { IfOk result (λ fault. (refused ≢ VarErr.Memory) × (fault ≡ fault_of name.now refused)) }
{
    match refused {
        VarErr::LocalOutside => Ok(Fault::LocalOutside(Bytes::from_slice(alloc, name)?)),
        VarErr::Readonly => Ok(Fault::Readonly(Bytes::from_slice(alloc, name)?)),
        VarErr::BadSubscript => Ok(Fault::BadSubscript(Bytes::from_slice(alloc, name)?)),
        VarErr::ValueSize => Ok(Fault::ValueSize),
        VarErr::TotalSize => Ok(Fault::TotalSize),
        VarErr::Memory => Err(Memory),
    }
}

impl Stop {
    /// What a refusal of the variable of this name is to a script: the fault of that kind, with the name where the
    /// fault shows one; or out of memory, also where there is no room for the name.
    pub fn of_variable(alloc: Global, name: &[u8], refused: VarErr) -> Stop
        ensures { IsRefusal result name.now refused }
    {
        match variable_fault(alloc, name, refused) {
            Ok(fault) => Stop::Fault(fault),
            Err(Memory) => Stop::Memory,
        }
    }
}
