//! The builtin `read` (Bash Reference Manual, "Bash Builtin Commands").
#![tactic(auto)]

mod line;
mod options;
mod parts;
mod read_builtin;

pub use read_builtin::read;
