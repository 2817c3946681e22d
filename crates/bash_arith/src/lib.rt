//! Arithmetic expressions over shell variables (Bash Reference Manual, "Shell Arithmetic").
#![tactic(auto)]

mod arithmetic;
mod error;
mod machine;
mod number;
mod operation;
mod stack;

pub use arithmetic::eval;
pub use error::ArithErr;
