//! The operators of `[[ .. ]]` with one operand (Bash Reference Manual, "Bash Conditional Expressions"), `-v` among them.
#![tactic(auto)]

mod condition;
mod parameter;

pub use condition::unary;
