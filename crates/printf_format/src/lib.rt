//! What a format and words make (Bash Reference Manual, "Bash Builtin Commands", `printf`), and texts with escapes.
#![tactic(auto)]

mod conversion;
mod digits;
mod drawn;
mod escapes;
mod field;
mod format;
mod layout;
mod number;
mod numeral;
mod part;
mod words;

pub use drawn::{Drawn, put_shown};
pub use escapes::{Ending, Spelled, spell};
pub use format::{Formatted, format_words};
