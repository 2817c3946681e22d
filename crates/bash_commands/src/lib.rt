//! Reads commands, at a cursor: simple commands, declarations, functions and coprocesses. Words, assignments,
//! redirections, compound commands and the lines between them are read by what is handed over.
#![tactic(auto)]

// All that a rule reads at which here-documents may begin or end, turn by turn, until it has no reading. It stands here,
// since proofs name a loop of another crate's macro otherwise.
macro_rules! repeat_marks {
    ($cursor:expr, $read:expr) => {{
        let saved = $cursor.save()?;
        let mut found = List::new($cursor.alloc());
        for _turn in 0..$cursor.left() {
            match $read {
                Ok(node) => or_restore!($cursor, saved, put(&mut found, node)),
                Err(LexErr::NoParse) => return Ok(found),
                Err(error) => {
                    $cursor.restore(saved);
                    return Err(error);
                }
            }
        }
        Ok(found)
    }};
}

mod commands;
mod declarations;
mod functions;
mod prefixes;
mod tails;

pub use commands::command_of;
