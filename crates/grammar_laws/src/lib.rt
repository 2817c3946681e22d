//! Laws of the grammar on where a rule has no reading, for readers that remember such places.
#![tactic(auto)]

pub mod laws;
mod nesting;

pub use nesting::Nesting;
