//! Reads lists of commands, at a cursor: items, what ends them, AND and OR lists, and pipelines. Each list has
//! here-documents of its own, whose bodies are put into its redirections where it ends. Commands, newlines and the lines
//! between commands are read by what is handed over.
#![tactic(auto)]

// All that a rule reads at which here-documents may begin or end, turn by turn, until it has no reading. It stands here,
// since proofs name a loop of another crate's macro otherwise.
macro_rules! repeat_marks {
    ($cursor:expr, $read:expr) => {{
        let saved = $cursor.save()?;
        let mut found = List::new($cursor.alloc());
        for _turn in 0..$cursor.left() {
            match $read {
                Ok(node) => or_restore!($cursor, saved, put(&mut found, node)),
                Err(LexErr::NoParse) => return Ok(found),
                Err(error) => {
                    $cursor.restore(saved);
                    return Err(error);
                }
            }
        }
        Ok(found)
    }};
}

mod ends;
mod items;
mod lists;
mod operators;
mod pipes;

pub use items::{body_of, closed, items_of};
pub use lists::turns;
