//! What the readers of words, of redirections and of commands have in common: the forms in which a reader goes back after
//! an error, lists of what was read, blanks and reserved words. The rules that are handed over stand in specs/At.antt, and
//! what is asked of a reader at which here-documents may begin or end in specs/Marks.antt.
#![tactic(auto)]

/// What was read, `None` where there is no reading. Any other error is handed on: nothing may have been taken before.
#[macro_export]
macro_rules! attempt {
    ($read:expr) => {
        match $read {
            Ok(read) => Some(read),
            Err(LexErr::NoParse) => None,
            Err(error) => return Err(error),
        }
    };
}

/// The same after something was taken at which no here-document may begin or end: any other error gives it back.
#[macro_export]
macro_rules! attempt_or_back {
    ($cursor:expr, $start:expr, $read:expr) => {
        match $read {
            Ok(read) => Some(read),
            Err(LexErr::NoParse) => None,
            Err(error) => {
                $cursor.back_to($start);
                return Err(error);
            }
        }
    };
}

/// The same after something was taken at which here-documents may begin or end.
#[macro_export]
macro_rules! attempt_or_restore {
    ($cursor:expr, $saved:expr, $read:expr) => {
        match $read {
            Ok(read) => Some(read),
            Err(LexErr::NoParse) => None,
            Err(error) => {
                $cursor.restore($saved);
                return Err(error);
            }
        }
    };
}

/// Gives back what was taken where something that has to stand next does not.
#[macro_export]
macro_rules! must {
    ($cursor:expr, $start:expr, $stands:expr) => {
        if !$stands {
            $cursor.back_to($start);
            return Err(LexErr::NoParse);
        }
    };
}

/// The same after something was taken at which here-documents may begin or end.
#[macro_export]
macro_rules! must_or_restore {
    ($cursor:expr, $saved:expr, $stands:expr) => {
        if !$stands {
            $cursor.restore($saved);
            return Err(LexErr::NoParse);
        }
    };
}

/// What was read. After an error the cursor goes back to what was saved, with its here-documents, and the error is handed
/// on.
#[macro_export]
macro_rules! or_restore {
    ($cursor:expr, $saved:expr, $read:expr) => {
        match $read {
            Ok(read) => read,
            Err(error) => {
                $cursor.restore($saved);
                return Err(error);
            }
        }
    };
}

/// All that a rule reads, turn by turn, until it has no reading. No here-document may begin or end at it.
#[macro_export]
macro_rules! repeat {
    ($cursor:expr, $read:expr) => {{
        let start = $cursor.here();
        let mut found = List::new($cursor.alloc());
        for _turn in 0..$cursor.left() {
            match $read {
                Ok(node) => match put(&mut found, node) {
                    Ok(()) => {}
                    Err(error) => {
                        $cursor.back_to(start);
                        return Err(error);
                    }
                },
                Err(LexErr::NoParse) => return Ok(found),
                Err(error) => {
                    $cursor.back_to(start);
                    return Err(error);
                }
            }
        }
        Ok(found)
    }};
}

/// The same of a rule at which here-documents may begin or end.
#[macro_export]
macro_rules! repeat_marks {
    ($cursor:expr, $read:expr) => {{
        let saved = $cursor.save()?;
        let mut found = List::new($cursor.alloc());
        for _turn in 0..$cursor.left() {
            match $read {
                Ok(node) => match put(&mut found, node) {
                    Ok(()) => {}
                    Err(error) => {
                        $cursor.restore(saved);
                        return Err(error);
                    }
                },
                Err(LexErr::NoParse) => return Ok(found),
                Err(error) => {
                    $cursor.restore(saved);
                    return Err(error);
                }
            }
        }
        Ok(found)
    }};
}

mod blanks;
mod lists;
mod words;

pub use blanks::{sees_blank, some_blanks};
pub use lists::{boxed, fitted, list_with, put, shared};
pub use words::{may_eat, reserved_word};
