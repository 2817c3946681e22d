//! Brace expansion (Bash Reference Manual, "Brace Expansion").
#![tactic(auto)]

mod counts;
mod error;
mod expansion;
mod groups;
mod names;
mod queue;
mod reading;
mod role;
mod sequence;
mod symbol;
mod token;
mod value;
mod words;

pub use error::BraceErr;
pub use expansion::braces;
