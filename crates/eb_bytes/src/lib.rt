//! Lists of bytes, the words of a text, decimal numbers, and counted steps: what every crate above stands on.
#![tactic(auto)]

mod budget;
mod bytes;
mod decimals;
mod steps;
mod words;

pub use budget::{Budget, Spent};
pub use bytes::{Bytes, Memory};
pub use decimals::{decimal, read_decimal};
pub use steps::Steps;
pub use words::{join_words, words_of};
