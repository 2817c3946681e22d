//! What is open while a script runs: calls, subshells, compound commands, redirections; with the arguments, the loops, and
//! the inputs and outputs inside of them.
#![tactic(auto)]

mod args;
mod calls;
mod change;
mod layer;
mod nesting;

pub use args::Args;
pub use calls::Calls;
pub use layer::Open;
