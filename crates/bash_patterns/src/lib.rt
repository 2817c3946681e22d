//! Shell patterns (Bash Reference Manual, "Pattern Matching"): how they are read, and where in a text they match.
#![tactic(auto)]

mod behind;
mod bracket;
mod bracket_reader;
mod class;
mod combine;
mod error;
mod follow;
mod group;
mod join;
pub mod laws;
mod left;
mod matches;
mod node;
mod order;
mod pattern;
mod places;
mod read;
mod symbol;
mod test;
mod walk;
mod way;
mod within;

pub use error::PatErr;
pub use pattern::Pattern;
