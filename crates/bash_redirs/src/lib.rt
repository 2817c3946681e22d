//! Reads assignments, redirections, here-documents and the regular expressions of `=~`, at a cursor. The words and
//! pieces in them are read by what is handed over.
#![tactic(auto)]

// All that a rule reads, turn by turn, until it has no reading.
macro_rules! repeat {
    ($cursor:expr, $read:expr) => {{
        let start = $cursor.here();
        let mut found = List::new($cursor.alloc());
        for _turn in 0..$cursor.left() {
            match $read {
                Ok(node) => or_back!($cursor, start, put(&mut found, node)),
                Err(LexErr::NoParse) => return Ok(found),
                Err(error) => {
                    $cursor.back_to(start);
                    return Err(error);
                }
            }
        }
        Ok(found)
    }};
}

// The same of a rule at which here-documents may begin or end.
macro_rules! repeat_marks {
    ($cursor:expr, $read:expr) => {{
        let saved = $cursor.save()?;
        let mut found = List::new($cursor.alloc());
        for _turn in 0..$cursor.left() {
            match $read {
                Ok(node) => or_restore!($cursor, saved, put(&mut found, node)),
                Err(LexErr::NoParse) => return Ok(found),
                Err(error) => {
                    $cursor.restore(saved);
                    return Err(error);
                }
            }
        }
        Ok(found)
    }};
}

// All that a rule reads, turn by turn, until it has no reading, with what each is in the delimiter.
macro_rules! repeat_pairs {
    ($cursor:expr, $read:expr) => {{
        let start = $cursor.here();
        let mut found = Pairs::new($cursor.alloc());
        for _turn in 0..$cursor.left() {
            match $read {
                Ok(pair) => or_back!($cursor, start, put_pair(&mut found, pair)),
                Err(LexErr::NoParse) => return Ok(found),
                Err(error) => {
                    $cursor.back_to(start);
                    return Err(error);
                }
            }
        }
        Ok(found)
    }};
}

mod assignments;
mod delimiter_groups;
mod delimiter_quotes;
mod delimiters;
mod documents;
mod lists;
mod pairs;
mod redirections;
mod regexes;
mod unquoted;
mod unquoted_pieces;

pub use assignments::assign;
pub use delimiters::delimiter_word;
pub use documents::{lines, newline};
pub use redirections::redir;
pub use regexes::regex;
pub use unquoted::Unquoted;
