//! Reads scripts: a text is a script exactly where the grammar says so, with exactly its tree; else it is refused or nested
//! too deep, at exactly its line.
#![tactic(auto)]

mod commands;
mod error;
mod knot;
mod parts;
mod references;
mod script;

pub use error::ParseErr;
pub use references::whole_ref;
pub use script::parse_script;
