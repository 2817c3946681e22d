//! The grammar of bash scripts. Its definition is in specs/, a rule at a time, each with its text above it; the trees
//! that it gives are the types of eb_syntax.
#![tactic(auto)]

mod ansi;
mod class;
pub mod laws;
mod parsed;

pub use ansi::{AnsiErr, ansi_text, ansi_value};
#[doc(hidden)]
pub use ansi::{Base, Meaning};
pub use class::Class;
pub use parsed::Parsed;
