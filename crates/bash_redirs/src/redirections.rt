//! Redirections (Bash Reference Manual, "Redirections").

ghost use Rattle.std.specs.Prelude.{◌≡◌, ◌+◌};
ghost use Rattle.bash_cursor.specs.Reads.{Reads, ReadsBelow, ReadsMarks};
ghost use Rattle.bash_reading.specs.At.{piece_at, quoted_at, word_at};
ghost use Rattle.bash_redirs.specs.Parts as parts;
ghost use Rattle.eb_grammar.specs.Grammar.{inside};
ghost use Rattle.eb_grammar.specs.Redirections as redirections;

use crate::delimiters::delimiter_word;
use crate::lists::copied;
use bash_cursor::{Cursor, HereMark, LexErr, both_op, file_op, here_op, or_back, word_op};
use bash_reading::{attempt_or_back, must};
use eb_grammar::Class;
use eb_syntax::{HereOp, Piece, QPiece, Redir, Word};

// A here-string, another descriptor, or a file that is read and written, appended to or overwritten, after the digits.
#[tactic(auto, unfolding(crate::specs::Parts::word_redir_with))]
fn word_redir<W: Fn(&mut Cursor<'_>) -> Result<Word, LexErr>>(
    c: &mut Cursor<'_>,
    number: &[u8],
    word: &W,
) -> Result<Redir, LexErr>
    requires { ReadsBelow word_at (c.old.room + 1) (W.pre word.now) (W.post word.now) }
    ensures { Reads (parts.word_redir_with (inside c.old.room) number.now) c.old result c.new }
{
    let start = c.here();
    let Some(which) = word_op(c) else {
        return Err(LexErr::NoParse);
    };
    c.blanks();
    let target = or_back!(c, start, word(c));
    let number = or_back!(c, start, copied(c.alloc(), number));
    Ok(Redir::Word(number, which, target))
}

// A file that is only read or only written, after the digits.
#[tactic(auto, unfolding(crate::specs::Parts::file_redir_with, eb_grammar::specs::Peg::word_of))]
fn file_redir<W: Fn(&mut Cursor<'_>) -> Result<Word, LexErr>>(
    c: &mut Cursor<'_>,
    number: &[u8],
    word: &W,
) -> Result<Redir, LexErr>
    requires { ReadsBelow word_at (c.old.room + 1) (W.pre word.now) (W.post word.now) }
    ensures { Reads (parts.file_redir_with (inside c.old.room) number.now) c.old result c.new }
{
    let start = c.here();
    let Some(which) = file_op(c) else {
        return Err(LexErr::NoParse);
    };
    must!(c, start, !c.sees(b"("));
    c.blanks();
    let target = or_back!(c, start, word(c));
    let number = or_back!(c, start, copied(c.alloc(), number));
    Ok(Redir::File(number, which, target))
}

// Standard output and standard error.
#[tactic(auto, unfolding(eb_grammar::specs::Redirections::both_redir))]
fn both_redir<W: Fn(&mut Cursor<'_>) -> Result<Word, LexErr>>(
    c: &mut Cursor<'_>,
    word: &W,
) -> Result<Redir, LexErr>
    requires { ReadsBelow word_at (c.old.room + 1) (W.pre word.now) (W.post word.now) }
    ensures { Reads (redirections.both_redir (inside c.old.room)) c.old result c.new }
{
    let start = c.here();
    let Some(which) = both_op(c) else {
        return Err(LexErr::NoParse);
    };
    c.blanks();
    let target = or_back!(c, start, word(c));
    Ok(Redir::Both(which, target))
}

// Whether the tabs at the start of a line are removed.
fn strips(which: HereOp) -> bool
    ensures { result ≡ redirections.strips which }
{
    match which {
        HereOp::StripTabs => true,
        HereOp::Plain => false,
    }
}

// A here-document, after the digits: its body is still to come.
#[tactic(auto, using(crate::proofs::HereRedirs::here_none, crate::proofs::HereRedirs::here_stop, crate::proofs::HereRedirs::here_read))]
fn here_redir<
    P: Fn(&mut Cursor<'_>) -> Result<Piece, LexErr>,
    Q: Fn(&mut Cursor<'_>) -> Result<QPiece, LexErr>,
>(c: &mut Cursor<'_>, number: &[u8], piece: &P, quoted: &Q) -> Result<Redir, LexErr>
    requires pieces { ReadsBelow piece_at (c.old.room + 1) (P.pre piece.now) (P.post piece.now) }
    requires in_quotes { ReadsBelow quoted_at c.old.room (Q.pre quoted.now) (Q.post quoted.now) }
    ensures { ReadsMarks (parts.here_redir_with (inside c.old.room) number.now) c.old result c.new }
{
    let start = c.here();
    let Some(which) = here_op(c) else {
        return Err(LexErr::NoParse);
    };
    c.blanks();
    let place = c.place() as u32;
    let (word, told) = or_back!(c, start, delimiter_word(c, piece, quoted));
    let number = or_back!(c, start, copied(c.alloc(), number));
    let is_quoted = told.is_quoted();
    let mark = HereMark::new(place, told.into_bytes(), is_quoted, strips(which));
    or_back!(c, start, c.mark(mark));
    Ok(Redir::Here(number, which, word, place, None))
}

/// A redirection: its word is read by `word`, that of a here-document by `piece` and, in double quotes, by `quoted`. The
/// body of a here-document is still to come: a mark waits for it.
///
/// # Errors
/// `NoParse` exactly where no redirection stands at the place, `TooDeep` exactly where reading it opens more nestings
/// than may be open, `Memory` where there is no room for it. The cursor, with its here-documents, is as it was then.
#[tactic(auto, using(crate::proofs::Redirs::word_is, crate::proofs::Redirs::here_is, crate::proofs::Redirs::file_is), unfolding(eb_grammar::specs::Redirections::redir))]
pub fn redir<
    W: Fn(&mut Cursor<'_>) -> Result<Word, LexErr>,
    P: Fn(&mut Cursor<'_>) -> Result<Piece, LexErr>,
    Q: Fn(&mut Cursor<'_>) -> Result<QPiece, LexErr>,
>(c: &mut Cursor<'_>, word: &W, piece: &P, quoted: &Q) -> Result<Redir, LexErr>
    requires words { ReadsBelow word_at (c.old.room + 1) (W.pre word.now) (W.post word.now) }
    requires pieces { ReadsBelow piece_at (c.old.room + 1) (P.pre piece.now) (P.post piece.now) }
    requires in_quotes { ReadsBelow quoted_at c.old.room (Q.pre quoted.now) (Q.post quoted.now) }
    ensures { ReadsMarks (redirections.redir (inside c.old.room)) c.old result c.new }
{
    let start = c.here();
    let number = c.run(Class::Digit);
    if let Some(found) = attempt_or_back!(c, start, word_redir(c, number, word)) {
        return Ok(found);
    }
    if let Some(found) = attempt_or_back!(c, start, here_redir(c, number, piece, quoted)) {
        return Ok(found);
    }
    if let Some(found) = attempt_or_back!(c, start, file_redir(c, number, word)) {
        return Ok(found);
    }
    c.back_to(start);
    both_redir(c, word)
}
