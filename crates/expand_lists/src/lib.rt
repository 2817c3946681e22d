//! The last steps of an expansion, over whole texts and lists: splitting, limits and costs (Bash Reference Manual, "Word
//! Splitting").
#![tactic(auto)]

mod limits;
mod splitting;

pub use limits::{all_fields, one_text};
pub use splitting::split_words;
