//! Tildes: which parts of a word stand for HOME (Bash Reference Manual, "Tilde Expansion").
#![tactic(auto)]

mod homes;
mod signs;

pub use homes::{is_home, is_home_in_operand, may_begin, may_follow};
pub use signs::{Sign, sign_of_operand, sign_of_piece};
