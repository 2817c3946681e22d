//! The builtins `echo` and `printf` (Bash Reference Manual, "Bash Builtin Commands").
#![tactic(auto)]

mod echo_builtin;
mod output;
mod printf_builtin;
mod words_read;

pub use echo_builtin::echo;
pub use printf_builtin::printf;
