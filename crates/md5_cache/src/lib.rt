//! The metadata cache in the layout `md5-dict`: the entry of an ebuild, its text, and reading that.
#![tactic(auto)]

mod eclasses;
mod entry;
mod lines;
mod parts;
mod read;
mod record;
mod rules;
mod write;

pub use entry::{Entry, EntryErr};
pub use read::read_entry;
pub use rules::{has_no_zero, have_one_md5};
pub use write::write_entry;
