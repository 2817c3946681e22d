//! Reads what words are made of, at a cursor: subscripts, extended groups, process substitutions, operators of
//! parameters. What stands inside a nesting is read by what is handed over.
#![tactic(auto)]

// All that a rule reads, turn by turn, until it has no reading.
macro_rules! repeat {
    ($cursor:expr, $read:expr) => {{
        let start = $cursor.here();
        let mut found = List::new($cursor.alloc());
        for _turn in 0..$cursor.left() {
            match $read {
                Ok(node) => or_back!($cursor, start, put(&mut found, node)),
                Err(LexErr::NoParse) => return Ok(found),
                Err(error) => {
                    $cursor.back_to(start);
                    return Err(error);
                }
            }
        }
        Ok(found)
    }};
}

// What a rule reads inside the nesting that it opens with these bytes. Where the cursor knows that the nesting has no
// reading here, it is not read again.
macro_rules! nested {
    ($cursor:expr, $nesting:expr, $begins:expr, $read:expr) => {{
        if !$cursor.sees($begins) || $cursor.known($nesting) {
            return Err(LexErr::NoParse);
        }
        let start = $cursor.here();
        $cursor.enter()?;
        let found = or_remember!($cursor, start, $nesting, $read);
        $cursor.leave();
        Ok(found)
    }};
}

mod arith_texts;
mod back;
mod change;
mod dollars;
mod params;
mod pieces;
mod quotes;
mod slices;
mod subscripts;
mod texts;
mod words;

pub use arith_texts::{arith_of, arith_part_of};
pub use back::back_of;
pub use dollars::dollar_of;
pub use params::{param_of, reference};
pub use pieces::piece_of;
pub use quotes::quoted_piece_of;
pub use subscripts::subscript_of;
pub use words::word_of;
