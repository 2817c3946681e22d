//! A cursor on the text of a script, and the readers of the grammar's rules that open no nesting: blanks, comments,
//! keywords, names and quotes. The crates that read words and commands stand on it, and on the lemmas in proofs/ on
//! the operators of the grammar's notation.
#![tactic(auto)]

/// What was read. After an error the cursor goes back to the place where the rule began, and the error is handed on.
#[macro_export]
macro_rules! or_back {
    ($cursor:expr, $start:expr, $read:expr) => {
        match $read {
            Ok(read) => read,
            Err(error) => {
                $cursor.back_to($start);
                return Err(error);
            }
        }
    };
}

/// What was read inside a nesting that begins at `start`. After an error the cursor goes back there, and the error is
/// handed on; where there is no reading, the cursor remembers it.
#[macro_export]
macro_rules! or_remember {
    ($cursor:expr, $start:expr, $nesting:expr, $read:expr) => {
        match $read {
            Ok(read) => read,
            Err(LexErr::NoParse) => {
                $cursor.back_to($start);
                $cursor.remember($nesting);
                return Err(LexErr::NoParse);
            }
            Err(error) => {
                $cursor.back_to($start);
                return Err(error);
            }
        }
    };
}

mod class;
mod cursor;
mod error;
mod failures;
mod here_lines;
mod marks;
mod names;
mod operators;
mod quotes;
mod reserved;
mod runs;
mod trail;

pub use class::is_in;
pub use cursor::{Cursor, Place, Saved};
pub use error::LexErr;
pub use here_lines::here_text;
pub use marks::{HereMark, Marks};
pub use names::{digits, function_name, lone, name};
pub use operators::{
    both_op, case_op, file_op, group_start, here_op, process_start, replace_op, strip_op, value_op,
    word_op,
};
pub use quotes::{ansi_quoted, backslash, continuation, escaped, single_quoted};
pub use reserved::Reserved;
