//! What the expansion of words means: from the parts of a word to the texts that a command gets.
#![tactic(auto)]

pub mod laws;
mod mode;

pub use mode::{Mode, Tildes};
