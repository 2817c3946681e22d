//! The marks that the parts of a word give: texts and lists, quoted and unquoted (Bash Reference Manual, "Quoting",
//! "Special Parameters", "Word Splitting").
#![tactic(auto)]

mod given;
mod lists;
mod texts;

pub use given::Given;
pub use lists::{Listing, join, put_list};
pub use texts::{as_results, close_quotes, put_quoted, put_text};
