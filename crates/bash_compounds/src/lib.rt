//! Reads compound commands, at a cursor: groups, subshells, `((`, `if`, loops, `case` and `[[`. The lists of commands in
//! them, words, expressions, conditions and the lines between them are read by what is handed over.
#![tactic(auto)]

// All that a rule reads, turn by turn, until it has no reading. It stands here, since proofs name a loop of another
// crate's macro otherwise.
macro_rules! repeat {
    ($cursor:expr, $read:expr) => {{
        let start = $cursor.here();
        let mut found = List::new($cursor.alloc());
        for _turn in 0..$cursor.left() {
            match $read {
                Ok(node) => or_back!($cursor, start, put(&mut found, node)),
                Err(LexErr::NoParse) => return Ok(found),
                Err(error) => {
                    $cursor.back_to(start);
                    return Err(error);
                }
            }
        }
        Ok(found)
    }};
}

// The same of a rule at which here-documents may begin or end.
macro_rules! repeat_marks {
    ($cursor:expr, $read:expr) => {{
        let saved = $cursor.save()?;
        let mut found = List::new($cursor.alloc());
        for _turn in 0..$cursor.left() {
            match $read {
                Ok(node) => or_restore!($cursor, saved, put(&mut found, node)),
                Err(LexErr::NoParse) => return Ok(found),
                Err(error) => {
                    $cursor.restore(saved);
                    return Err(error);
                }
            }
        }
        Ok(found)
    }};
}

mod choices;
mod compounds;
mod groups;
mod ifs;
mod loops;

pub use choices::choices_of;
pub use compounds::compound_of;
pub use groups::groups_of;
pub use ifs::if_of;
pub use loops::loops_of;
