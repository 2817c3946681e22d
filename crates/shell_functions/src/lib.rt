//! The functions of a shell by name, and what a subshell leaves of them.
#![tactic(auto)]

mod funcs;
mod table;

pub use funcs::Funcs;
#[doc(hidden)]
pub use table::FuncTable;
