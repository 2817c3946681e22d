//! Word splitting: the fields of a list of marks (Bash Reference Manual, "Word Splitting").
#![tactic(auto)]

mod fields;
pub mod laws;
mod place;
mod role;

pub use fields::split;
pub use role::{Ifs, Role};
