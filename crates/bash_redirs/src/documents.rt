//! The bodies of here-documents (Bash Reference Manual, "Here Documents"), and the lines between words and commands.

ghost use Rattle.std.specs.Prelude.{◌≡◌, ◌≤◌, ◌+◌, length, IfOk};
ghost use Rattle.bash_cursor.specs.Reads.{Eats, Reads, ReadsBelow, ReadsMarks};
ghost use Rattle.bash_reading.specs.At.{lines_at, quoted_at};
ghost use Rattle.bash_redirs.specs.Parts.{backslash_before_quote, body_of, line_part, parts_of};
ghost use Rattle.eb_grammar.specs.Grammar.{inside};
ghost use Rattle.eb_grammar.specs.HereDocuments as here;
ghost use Rattle.eb_grammar.specs.Peg.{many, within};

use bash_cursor::{Cursor, HereMark, LexErr, here_text, or_back};
use bash_reading::{attempt, or_restore, put, shared};
use eb_bytes::Bytes;
use eb_syntax::{HereBody, HereText, QPiece};
use shared::Shared;
use sqlite_items::Items as List;

// Goes past a backslash before a double quote, and says whether one stands at the place.
#[tactic(auto, unfolding(eb_grammar::specs::Peg::word_of))]
fn backslash_before_quote(c: &mut Cursor<'_>) -> bool
    ensures { Eats backslash_before_quote c.old result c.new }
{
    let start = c.here();
    if !c.eat(b"\\") {
        return false;
    }
    if !c.sees(b"\"") {
        c.back_to(start);
        return false;
    }
    true
}

// A piece of a body in which something may be expanded.
#[tactic(auto, unfolding(eb_grammar::specs::HereDocuments::here_piece))]
fn here_piece<Q: Fn(&mut Cursor<'_>) -> Result<QPiece, LexErr>>(
    c: &mut Cursor<'_>,
    quoted: &Q,
) -> Result<QPiece, LexErr>
    requires { ReadsBelow quoted_at (c.old.room + 1) (Q.pre quoted.now) (Q.post quoted.now) }
    ensures { Reads (here.here_piece (inside c.old.room)) c.old result c.new }
{
    if backslash_before_quote(c) {
        return Ok(QPiece::Byte(b'\\'));
    }
    if let Some(found) = attempt!(quoted(c)) {
        return Ok(found);
    }
    c.literal(b"\"")?;
    Ok(QPiece::Byte(b'"'))
}

#[tactic(auto, using(bash_cursor::proofs::Turns::turn_go, bash_cursor::proofs::Turns::turn_no, bash_cursor::proofs::Turns::turn_deep, bash_cursor::proofs::Turns::turn_out))]
fn here_pieces<Q: Fn(&mut Cursor<'_>) -> Result<QPiece, LexErr>>(
    c: &mut Cursor<'_>,
    quoted: &Q,
) -> Result<List<QPiece>, LexErr>
    requires { ReadsBelow quoted_at (c.old.room + 1) (Q.pre quoted.now) (Q.post quoted.now) }
    ensures { Reads (many (here.here_piece (inside c.old.room))) c.old result c.new }
{
    repeat!(c, here_piece(c, quoted))
}

// The pieces of a body, whose first line has this number.
#[tactic(auto, unfolding(eb_grammar::specs::Peg::within))]
fn body_parts<Q: Fn(&mut Cursor<'_>) -> Result<QPiece, LexErr>>(
    c: &Cursor<'_>,
    text: &[u8],
    line: u32,
    quoted: &Q,
) -> Result<List<QPiece>, LexErr>
    requires fits { line + length text.now ≤ 4294967295 }
    requires in_quotes { ReadsBelow quoted_at (c.now.room + 1) (Q.pre quoted.now) (Q.post quoted.now) }
    ensures { Reads (within text.now line (many (here.here_piece (inside c.now.room)))) c.now result c.now }
{
    let mut at = c.over(text, line);
    let found = here_pieces(&mut at, quoted)?;
    if !at.at_end() {
        return Err(LexErr::NoParse);
    }
    Ok(found)
}

// What a body stands for where no byte of the mark's word is quoted.
#[tactic(auto, unfolding(crate::specs::Parts::parts_of))]
fn parts_text<Q: Fn(&mut Cursor<'_>) -> Result<QPiece, LexErr>>(
    c: &Cursor<'_>,
    text: &[u8],
    line: u32,
    quoted: &Q,
) -> Result<HereText, LexErr>
    requires fits { line + length text.now ≤ 4294967295 }
    requires in_quotes { ReadsBelow quoted_at (c.now.room + 1) (Q.pre quoted.now) (Q.post quoted.now) }
    ensures { Reads (parts_of (inside c.now.room) line text.now) c.now result c.now }
{
    let parts = body_parts(c, text, line, quoted)?;
    Ok(HereText::Parts(shared(c.alloc(), parts)?))
}

// What a body stands for: itself where a byte of the mark's word is quoted, else its pieces.
#[tactic(auto, using(crate::proofs::Bodies::body_literal, crate::proofs::Bodies::body_parts))]
fn body_text<Q: Fn(&mut Cursor<'_>) -> Result<QPiece, LexErr>>(
    c: &Cursor<'_>,
    mark: &HereMark,
    line: u32,
    text: Bytes,
    quoted: &Q,
) -> Result<HereText, LexErr>
    requires fits { line + length text ≤ 4294967295 }
    requires in_quotes { ReadsBelow quoted_at (c.now.room + 1) (Q.pre quoted.now) (Q.post quoted.now) }
    ensures { Reads (body_of (inside c.now.room) mark.now line text) c.now result c.now }
{
    if mark.is_quoted() {
        return Ok(HereText::Literal(text));
    }
    parts_text(c, text.as_slice(), line, quoted)
}

// The lines of a body, which are no longer than what they take.
#[tactic(auto, using(crate::proofs::HereTexts::text_fits))]
fn lines_of_body(c: &mut Cursor<'_>, mark: &HereMark) -> Result<Bytes, LexErr>
    ensures reads { Reads (here.here_text mark.now) c.old result c.new }
    ensures fits { IfOk result (λ text. length text ≤ length c.old.spot.rest) }
{
    here_text(c, mark)
}

// The body of a mark, with the line that ends it.
#[tactic(auto, unfolding(eb_grammar::specs::HereDocuments::here_body, crate::specs::Parts::body_of))]
fn here_body<Q: Fn(&mut Cursor<'_>) -> Result<QPiece, LexErr>>(
    c: &mut Cursor<'_>,
    mark: &HereMark,
    quoted: &Q,
) -> Result<(), LexErr>
    requires { ReadsBelow quoted_at (c.old.room + 1) (Q.pre quoted.now) (Q.post quoted.now) }
    ensures { ReadsMarks (here.here_body (inside c.old.room) mark.now) c.old result c.new }
{
    let start = c.here();
    let line = c.line();
    let text = lines_of_body(c, mark)?;
    let read = or_back!(c, start, body_text(c, mark, line, text, quoted));
    let text = or_back!(c, start, shared(c.alloc(), read));
    let mark = mark.place();
    or_back!(c, start, c.keep(HereBody { mark, text }));
    Ok(())
}

// The bodies of these marks, in their order.
#[tactic(auto, using(crate::proofs::Bodies::bodies_more, crate::proofs::Bodies::bodies_stop, crate::proofs::Bodies::bodies_end))]
fn here_bodies<Q: Fn(&mut Cursor<'_>) -> Result<QPiece, LexErr>>(
    c: &mut Cursor<'_>,
    marks: &[Shared<HereMark>],
    quoted: &Q,
) -> Result<(), LexErr>
    requires { ReadsBelow quoted_at (c.old.room + 1) (Q.pre quoted.now) (Q.post quoted.now) }
    ensures { ReadsMarks (here.here_bodies (inside c.old.room) marks.now) c.old result c.new }
{
    let saved = c.save()?;
    for mark in marks {
        or_restore!(c, saved, here_body(c, mark.get(), quoted));
    }
    c.answered();
    Ok(())
}

/// A newline, with the bodies of the here-documents that wait: what stands in them for more than itself is read by
/// `quoted`.
///
/// # Errors
/// `NoParse` exactly where no newline stands at the place, or a body after it has no end or holds a byte 0 or what cannot
/// be read; `TooDeep` exactly where reading a body opens more nestings than may be open; `Memory` where there is no room
/// for it. The cursor, with its here-documents, is as it was then.
#[tactic(auto, unfolding(eb_grammar::specs::HereDocuments::newline))]
pub fn newline<Q: Fn(&mut Cursor<'_>) -> Result<QPiece, LexErr>>(
    c: &mut Cursor<'_>,
    quoted: &Q,
) -> Result<(), LexErr>
    requires { ReadsBelow quoted_at (c.old.room + 1) (Q.pre quoted.now) (Q.post quoted.now) }
    ensures { ReadsMarks (here.newline (inside c.old.room)) c.old result c.new }
{
    let start = c.here();
    c.literal(b"\n")?;
    let marks = or_back!(c, start, c.waiting());
    or_back!(c, start, here_bodies(c, marks.as_slice(), quoted));
    Ok(())
}

// A blank, a comment or a newline.
fn line_part<Q: Fn(&mut Cursor<'_>) -> Result<QPiece, LexErr>>(
    c: &mut Cursor<'_>,
    quoted: &Q,
) -> Result<(), LexErr>
    requires { ReadsBelow quoted_at (c.old.room + 1) (Q.pre quoted.now) (Q.post quoted.now) }
    ensures { ReadsMarks (line_part (inside c.old.room)) c.old result c.new }
{
    if c.blank().is_some() {
        return Ok(());
    }
    if c.comment() {
        return Ok(());
    }
    newline(c, quoted)
}

/// All blanks, comments and newlines that stand at the place, with the bodies of here-documents after a newline.
///
/// # Errors
/// `TooDeep` exactly where reading a body opens more nestings than may be open, `Memory` where there is no room for it.
/// The cursor, with its here-documents, is as it was then.
#[tactic(auto, using(crate::proofs::Bodies::lines_go, crate::proofs::Bodies::lines_no, crate::proofs::Bodies::lines_deep, crate::proofs::Bodies::lines_out), unfolding(eb_grammar::specs::HereDocuments::lines))]
pub fn lines<Q: Fn(&mut Cursor<'_>) -> Result<QPiece, LexErr>>(
    c: &mut Cursor<'_>,
    quoted: &Q,
) -> Result<(), LexErr>
    requires { ReadsBelow quoted_at (c.old.room + 1) (Q.pre quoted.now) (Q.post quoted.now) }
    ensures { ReadsMarks (lines_at c.old.room) c.old result c.new }
{
    let saved = c.save()?;
    for _turn in 0..c.left() {
        match line_part(c, quoted) {
            Ok(()) => {}
            Err(LexErr::NoParse) => return Ok(()),
            Err(error) => {
                c.restore(saved);
                return Err(error);
            }
        }
    }
    Ok(())
}
