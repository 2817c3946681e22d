//! The operators of `${..}`, once their words are expanded (Bash Reference Manual, "Shell Parameter Expansion").
#![tactic(auto)]

mod change;
mod changed;
mod each;
mod operators;
mod shown;
mod sliced;
mod values;

pub use changed::compile;
pub use operators::{Written, change_case_found, replace_found, strip_found};
pub use shown::{indices, length_of, show, texts};
pub use sliced::slice;
pub use values::{has_colon, lacks, no_other};
