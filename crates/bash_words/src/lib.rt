//! Reads words with all that stands in them, and the texts of arithmetic expressions, at a cursor. Lists of commands are
//! read by what is handed over.
#![tactic(auto)]

mod calls;
mod knot;

pub use calls::{arith, arith_part, piece, quoted_piece, subscript, word};
pub use knot::dollar;
