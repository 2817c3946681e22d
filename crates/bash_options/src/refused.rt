ghost use Rattle.std.specs.Prelude.{◌≡◌, IfOk};
ghost use Rattle.shell_state.specs.declared.fault.Fault.TheVariants as fault;
ghost use Rattle.bash_options.specs.Refused.{IsFault};

use eb_bytes::{Bytes, Memory};
use shell_state::{Fault, Stop};
use std::alloc::Global;

/// The words of a builtin are not what it takes.
pub(crate) fn bad_use(alloc: Global, command: &[u8]) -> Stop
    ensures { IsFault result (fault.BadUse command.now) }
{
    match Bytes::from_slice(alloc, command) {
        Ok(command) => Stop::Fault(Fault::BadUse(command)),
        Err(Memory) => Stop::Memory,
    }
}

/// A builtin has no such option.
pub(crate) fn bad_option(alloc: Global, command: &[u8], option: &[u8]) -> Stop
    ensures { IsFault result (fault.BadOption command.now option.now) }
{
    match copies(alloc, command, option) {
        Ok((command, option)) => Stop::Fault(Fault::BadOption(command, option)),
        Err(Memory) => Stop::Memory,
    }
}

fn copies(alloc: Global, first: &[u8], second: &[u8]) -> Result<(Bytes, Bytes), Memory>
    ensures first { IfOk result (λ both. both.0 ≡ first.now) }
    ensures second { IfOk result (λ both. both.1 ≡ second.now) }
{
    let first = Bytes::from_slice(alloc, first)?;
    Ok((first, Bytes::from_slice(alloc, second)?))
}
