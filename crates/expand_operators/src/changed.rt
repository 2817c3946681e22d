ghost use Rattle.bash_cond.specs.Patterns.{Compiles};
ghost use Rattle.bash_patterns.specs.Reading.{pattern_of};

use bash_patterns::{PatErr, Pattern};
use shell_marks::Marked;
use shell_state::{Fault, Stop};
use std::alloc::Global;

/// The pattern that marks are; extended groups are read only where `extended` says so.
///
/// # Errors
/// `PatternDeep` where more than 64 groups are nested; `Memory`.
pub fn compile(alloc: Global, pattern: &Marked, extended: bool) -> Result<Pattern, Stop>
    ensures { Compiles result (pattern_of extended pattern.now) }
{
    match Pattern::compile(alloc, pattern, extended) {
        Ok(pattern) => Ok(pattern),
        Err(PatErr::TooDeep) => Err(Stop::Fault(Fault::PatternDeep)),
        Err(PatErr::Memory) => Err(Stop::Memory),
    }
}
