//! The bytes of a shell word with where each came from: what expansion makes, and what splitting, patterns and quote
//! removal go by.
#![tactic(auto)]

mod marked;

pub use marked::{Mark, Marked, Origin};
