//! Reads what stands between `[[` and `]]`, at a cursor. Words, regular expressions and the lines between them are read
//! by what is handed over.
#![tactic(auto)]

// All that a rule reads, turn by turn, until it has no reading. Here-documents may begin or end at it. The loop stands in a
// macro of this crate, so that proofs can name it.
macro_rules! repeat_marks {
    ($cursor:expr, $read:expr) => {{
        let saved = $cursor.save()?;
        let mut found = List::new($cursor.alloc());
        for _turn in 0..$cursor.left() {
            match $read {
                Ok(node) => match put(&mut found, node) {
                    Ok(()) => {}
                    Err(error) => {
                        $cursor.restore(saved);
                        return Err(error);
                    }
                },
                Err(LexErr::NoParse) => return Ok(found),
                Err(error) => {
                    $cursor.restore(saved);
                    return Err(error);
                }
            }
        }
        Ok(found)
    }};
}

mod conditions;
mod operators;
mod primaries;

pub use conditions::condition;
