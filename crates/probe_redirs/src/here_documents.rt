use crate::ends::{beginning, put_end, read_assign, read_redir};
use crate::readers::lines;
use bash_cursor::{Cursor, LexErr, Marks};
use eb_syntax::{HereBody, HereText};
use probe_base::{Answer, Fault};

/// `documents TEXT`: where redirections, assignments and the lines between them end; then of each here-document's body the
/// place of its word, and `literal` and its text, or `parts` and how many pieces it has; then `waiting` and the number of
/// the bodies that are still to come.
pub fn documents(text: &[u8], answer: &mut Answer) -> Result<(), Fault> {
    let mut c = beginning(text, answer)?;
    let outer = c.open_items();
    let read = read_documents(&mut c);
    put_end(&c, read, answer);
    put_marks(&c.close_items(outer), answer)
}

// Goes past lines, redirections and assignments, as long as any stand.
fn read_documents(c: &mut Cursor<'_>) -> Result<(), LexErr> {
    for _turn in 0..c.left() {
        lines(c)?;
        if !stands(read_redir(c))? && !stands(read_assign(c))? {
            return Ok(());
        }
    }
    Ok(())
}

// Whether there was a reading.
fn stands(read: Result<(), LexErr>) -> Result<bool, LexErr> {
    match read {
        Ok(()) => Ok(true),
        Err(LexErr::NoParse) => Ok(false),
        Err(error) => Err(error),
    }
}

fn put_marks(marks: &Marks, answer: &mut Answer) -> Result<(), Fault> {
    put_bodies(marks, answer)?;
    let waiting = marks.waiting()?;
    answer.word("waiting");
    answer.number(waiting.len() as u64);
    Ok(())
}

fn put_bodies(marks: &Marks, answer: &mut Answer) -> Result<(), Fault> {
    let bodies = marks.bodies()?;
    for body in bodies.as_slice() {
        put_body(body.get(), answer);
    }
    Ok(())
}

fn put_body(body: &HereBody, answer: &mut Answer) {
    answer.number(u64::from(body.mark));
    match body.text.get() {
        HereText::Literal(text) => {
            answer.word("literal");
            answer.text(text.as_slice());
        }
        HereText::Parts(parts) => {
            answer.word("parts");
            answer.number(parts.get().len() as u64);
        }
    }
}
