//! The reading of arithmetic expressions (Bash Reference Manual, "Shell Arithmetic"), and the instructions that stand
//! for what was read.
#![tactic(auto)]

mod constant;
mod error;
mod instruction;
mod name;
mod operator;
mod past;
mod put;
mod quotes;
mod reader;
mod rule;
mod symbol;

pub use error::{ReadErr, Refusal};
pub use instruction::{Instruction, VariableRef};
pub use name::Name;
pub use operator::{BinaryOperator, Increment, Operator, Sign, Symbol, Timing};
pub use quotes::without_quotes;
pub use reader::read;
