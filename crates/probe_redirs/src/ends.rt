use crate::readers::{lines, piece, quoted, subscript, word};
use bash_cursor::{Cursor, LexErr};
use bash_redirs::delimiter_word;
use eb_bytes::Bytes;
use eb_syntax::Redir;
use probe_base::{Answer, Fault};

// How many bytes a text has at most.
const LONGEST: usize = 4_294_967_294;

/// A cursor at the beginning of a text.
pub fn beginning<'a>(text: &'a [u8], answer: &Answer) -> Result<Cursor<'a>, Fault> {
    if text.len() > LONGEST {
        return Err(Fault::NoRequest);
    }
    Ok(Cursor::new(answer.alloc(), text))
}

/// Puts `place` and the number of bytes before the cursor; or `no`, `deep` and the line, or `commands`.
pub fn put_end(c: &Cursor<'_>, read: Result<(), LexErr>, answer: &mut Answer) {
    match read {
        Ok(()) => {
            answer.word("place");
            answer.number(c.place() as u64);
        }
        Err(LexErr::NoParse) => answer.word("no"),
        Err(LexErr::TooDeep { line }) => {
            answer.word("deep");
            answer.number(u64::from(line));
        }
        Err(LexErr::Memory) => answer.word("commands"),
    }
}

/// `assign TEXT`: where an assignment at the start of the text ends.
pub fn assign(text: &[u8], answer: &mut Answer) -> Result<(), Fault> {
    let mut c = beginning(text, answer)?;
    let read = read_assign(&mut c);
    put_end(&c, read, answer);
    Ok(())
}

/// Goes past an assignment.
pub fn read_assign(c: &mut Cursor<'_>) -> Result<(), LexErr> {
    bash_redirs::assign(c, &piece, &subscript, &word, &lines)?;
    Ok(())
}

/// `redir TEXT`: where a redirection at the start of the text ends.
pub fn redir(text: &[u8], answer: &mut Answer) -> Result<(), Fault> {
    let mut c = beginning(text, answer)?;
    let read = read_redir(&mut c);
    put_end(&c, read, answer);
    Ok(())
}

/// Goes past a redirection.
pub fn read_redir(c: &mut Cursor<'_>) -> Result<(), LexErr> {
    bash_redirs::redir(c, &word, &piece, &quoted)?;
    Ok(())
}

/// The redirection that a text begins with.
pub fn redir_of(text: &[u8], answer: &Answer) -> Result<Redir, Fault> {
    let mut c = beginning(text, answer)?;
    bash_redirs::redir(&mut c, &word, &piece, &quoted).map_err(|_| Fault::NoRequest)
}

/// `regex TEXT`: where a regular expression at the start of the text ends.
pub fn regex(text: &[u8], answer: &mut Answer) -> Result<(), Fault> {
    let mut c = beginning(text, answer)?;
    let read = read_regex(&mut c);
    put_end(&c, read, answer);
    Ok(())
}

fn read_regex(c: &mut Cursor<'_>) -> Result<(), LexErr> {
    bash_redirs::regex(c, &piece)?;
    Ok(())
}

/// `mark TEXT`: where the word of a here-document at the start of the text ends, `quoted` where a byte of it is quoted and
/// else `bare`, and its bytes after quote removal.
pub fn mark(text: &[u8], answer: &mut Answer) -> Result<(), Fault> {
    let mut c = beginning(text, answer)?;
    match read_delimiter(&mut c) {
        Ok((bytes, is_quoted)) => {
            put_end(&c, Ok(()), answer);
            answer.word(if is_quoted { "quoted" } else { "bare" });
            answer.text(bytes.as_slice());
        }
        Err(error) => put_end(&c, Err(error), answer),
    }
    Ok(())
}

fn read_delimiter(c: &mut Cursor<'_>) -> Result<(Bytes, bool), LexErr> {
    let (_, told) = delimiter_word(c, &piece, &quoted)?;
    let is_quoted = told.is_quoted();
    Ok((told.into_bytes(), is_quoted))
}
