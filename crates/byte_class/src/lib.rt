//! Classes of bytes, as a shell has them: blanks, digits, letters, and what stands in a name.
#![tactic(auto)]

mod class;

pub use class::{
    is_blank, is_digit, is_letter, is_letter_or_digit, is_lower, is_name, is_name_byte,
    is_name_start, is_newline, is_nul, is_space, is_upper,
};
