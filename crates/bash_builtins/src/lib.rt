//! The builtins of the shell (Bash Reference Manual, "Shell Builtin Commands"): which there are, and those that neither
//! run commands, nor jump, nor change the parameters.
#![tactic(auto)]

mod names;
mod plain;

pub use names::{Builtin, Plain, builtin_of};
pub use plain::run_builtin;
