//! The delimiter of a here-document: a word that is read as any word, and with it its bytes after quote removal (Bash
//! Reference Manual, "Here Documents").

ghost use Rattle.std.specs.Prelude.{◌+◌, ◌<◌};
ghost use Rattle.bash_cursor.specs.Reads.{Reads, ReadsBelow};
ghost use Rattle.bash_redirs.specs.At.{unquoted_at};
ghost use Rattle.bash_reading.specs.At.{piece_at, quoted_at};
ghost use Rattle.bash_redirs.specs.Delimiters.{ansi_told, bare_at, escaped_told, grouped_told, nested_told, quoted_told, single_told};
ghost use Rattle.eb_grammar.specs.Grammar.{inside};
ghost use Rattle.eb_grammar.specs.HereDocuments as here;
ghost use Rattle.eb_grammar.specs.Peg.{many};

use crate::delimiter_groups::group;
use crate::delimiter_quotes::double;
use crate::lists::{between, copied};
use crate::pairs::{Pairs, put_pair};
use crate::unquoted::Unquoted;
use crate::unquoted_pieces::{ansi_of, single_of, word_told};
use bash_cursor::{Cursor, LexErr, ansi_quoted, continuation, escaped, or_back, single_quoted};
use bash_reading::attempt;
use eb_bytes::Bytes;
use eb_syntax::{Piece, QPiece, Word};

// A piece that is the bytes that it takes.
#[tactic(auto, unfolding(crate::specs::Delimiters::bare_at))]
fn bare_piece<P: Fn(&mut Cursor<'_>) -> Result<Piece, LexErr>>(
    c: &mut Cursor<'_>,
    piece: &P,
) -> Result<(Piece, Unquoted), LexErr>
    requires { ReadsBelow piece_at (c.old.room + 1) (P.pre piece.now) (P.post piece.now) }
    ensures { Reads (bare_at c.old.room) c.old result c.new }
{
    let start = c.here();
    let (text, from) = (c.rest(), c.place());
    let found = piece(c)?;
    let bytes = or_back!(c, start, between(c.alloc(), text, from, c.place()));
    Ok((found, Unquoted::bare(bytes)))
}

// A byte after a backslash, which is quoted.
fn escaped_piece(c: &mut Cursor<'_>) -> Result<(Piece, Unquoted), LexErr>
    ensures { Reads escaped_told c.old result c.new }
{
    let start = c.here();
    let Some(byte) = escaped(c) else {
        return Err(LexErr::NoParse);
    };
    let bytes = or_back!(c, start, copied(c.alloc(), &[byte]));
    Ok((Piece::Escaped(byte), Unquoted::quoted(bytes)))
}

// `'..'`
fn single_piece(c: &mut Cursor<'_>) -> Result<(Piece, Unquoted), LexErr>
    ensures { Reads single_told c.old result c.new }
{
    let start = c.here();
    let text = single_quoted(c)?;
    Ok(or_back!(c, start, single_of(c.alloc(), text)))
}

// `$'..'`
fn ansi_piece(c: &mut Cursor<'_>) -> Result<(Piece, Unquoted), LexErr>
    ensures { Reads ansi_told c.old result c.new }
{
    let start = c.here();
    let text = ansi_quoted(c)?;
    Ok(or_back!(c, start, ansi_of(c.alloc(), text)))
}

// A group, or a piece that is the bytes that it takes.
#[tactic(auto, unfolding(crate::specs::Delimiters::grouped_told))]
fn group_or_bare<
    P: Fn(&mut Cursor<'_>) -> Result<Piece, LexErr>,
    U: Fn(&mut Cursor<'_>) -> Result<(Piece, Unquoted), LexErr>,
>(c: &mut Cursor<'_>, piece: &P, unquoted: &U) -> Result<(Piece, Unquoted), LexErr>
    requires pieces { ReadsBelow piece_at (c.old.room + 1) (P.pre piece.now) (P.post piece.now) }
    requires in_groups { ReadsBelow unquoted_at c.old.room (U.pre unquoted.now) (U.post unquoted.now) }
    ensures { Reads (grouped_told c.old.room) c.old result c.new }
{
    if let Some(found) = attempt!(group(c, unquoted)) {
        return Ok(found);
    }
    bare_piece(c, piece)
}

// A piece in double quotes, or one of these.
#[tactic(auto, unfolding(crate::specs::Delimiters::nested_told))]
fn nested_piece<
    P: Fn(&mut Cursor<'_>) -> Result<Piece, LexErr>,
    Q: Fn(&mut Cursor<'_>) -> Result<QPiece, LexErr>,
    U: Fn(&mut Cursor<'_>) -> Result<(Piece, Unquoted), LexErr>,
>(c: &mut Cursor<'_>, piece: &P, quoted: &Q, unquoted: &U) -> Result<(Piece, Unquoted), LexErr>
    requires pieces { ReadsBelow piece_at (c.old.room + 1) (P.pre piece.now) (P.post piece.now) }
    requires in_quotes { ReadsBelow quoted_at c.old.room (Q.pre quoted.now) (Q.post quoted.now) }
    requires in_groups { ReadsBelow unquoted_at c.old.room (U.pre unquoted.now) (U.post unquoted.now) }
    ensures { Reads (nested_told c.old.room) c.old result c.new }
{
    if let Some(found) = attempt!(double(c, quoted)) {
        return Ok(found);
    }
    group_or_bare(c, piece, unquoted)
}

// A piece in single quotes, or one of these.
#[tactic(auto, unfolding(crate::specs::Delimiters::quoted_told))]
fn quoted_or_nested<
    P: Fn(&mut Cursor<'_>) -> Result<Piece, LexErr>,
    Q: Fn(&mut Cursor<'_>) -> Result<QPiece, LexErr>,
    U: Fn(&mut Cursor<'_>) -> Result<(Piece, Unquoted), LexErr>,
>(c: &mut Cursor<'_>, piece: &P, quoted: &Q, unquoted: &U) -> Result<(Piece, Unquoted), LexErr>
    requires pieces { ReadsBelow piece_at (c.old.room + 1) (P.pre piece.now) (P.post piece.now) }
    requires in_quotes { ReadsBelow quoted_at c.old.room (Q.pre quoted.now) (Q.post quoted.now) }
    requires in_groups { ReadsBelow unquoted_at c.old.room (U.pre unquoted.now) (U.post unquoted.now) }
    ensures { Reads (quoted_told c.old.room) c.old result c.new }
{
    if let Some(found) = attempt!(single_piece(c)) {
        return Ok(found);
    }
    if let Some(found) = attempt!(ansi_piece(c)) {
        return Ok(found);
    }
    nested_piece(c, piece, quoted, unquoted)
}

// A piece, with its bytes in the delimiter. The pieces of a group are read by `unquoted`.
#[tactic(auto, using(crate::proofs::MarkPieces::unquoted_is))]
fn unquoted_by<
    P: Fn(&mut Cursor<'_>) -> Result<Piece, LexErr>,
    Q: Fn(&mut Cursor<'_>) -> Result<QPiece, LexErr>,
    U: Fn(&mut Cursor<'_>) -> Result<(Piece, Unquoted), LexErr>,
>(c: &mut Cursor<'_>, piece: &P, quoted: &Q, unquoted: &U) -> Result<(Piece, Unquoted), LexErr>
    requires pieces { ReadsBelow piece_at (c.old.room + 1) (P.pre piece.now) (P.post piece.now) }
    requires in_quotes { ReadsBelow quoted_at c.old.room (Q.pre quoted.now) (Q.post quoted.now) }
    requires in_groups { ReadsBelow unquoted_at c.old.room (U.pre unquoted.now) (U.post unquoted.now) }
    ensures { Reads (unquoted_at c.old.room) c.old result c.new }
{
    if continuation(c) {
        return Ok((Piece::Continuation, Unquoted::bare(Bytes::new(c.alloc()))));
    }
    if let Some(found) = attempt!(escaped_piece(c)) {
        return Ok(found);
    }
    quoted_or_nested(c, piece, quoted, unquoted)
}

// The same, with the pieces of its groups.
#[tactic(auto, using(bash_cursor::proofs::Below::narrower))]
fn unquoted_piece<
    P: Fn(&mut Cursor<'_>) -> Result<Piece, LexErr>,
    Q: Fn(&mut Cursor<'_>) -> Result<QPiece, LexErr>,
>(c: &mut Cursor<'_>, piece: &P, quoted: &Q) -> Result<(Piece, Unquoted), LexErr>
    requires pieces { ReadsBelow piece_at (c.old.room + 1) (P.pre piece.now) (P.post piece.now) }
    requires in_quotes { ReadsBelow quoted_at c.old.room (Q.pre quoted.now) (Q.post quoted.now) }
    ensures { Reads (unquoted_at c.old.room) c.old result c.new }
{
    let room = c.room();
    let inner = |c: &mut Cursor<'_>| -> Result<(Piece, Unquoted), LexErr>
        requires below { c.old.room < room }
        requires pieces { ReadsBelow piece_at (c.old.room + 1) (P.pre piece.now) (P.post piece.now) }
        requires in_quotes { ReadsBelow quoted_at c.old.room (Q.pre quoted.now) (Q.post quoted.now) }
        ensures { Reads (unquoted_at c.old.room) c.old result c.new }
    {
        let _ = &room;
        unquoted_piece(c, piece, quoted)
    };
    unquoted_by(c, piece, quoted, &inner)
}

#[tactic(auto, using(bash_cursor::proofs::Turns::turn_go, bash_cursor::proofs::Turns::turn_no, bash_cursor::proofs::Turns::turn_deep, bash_cursor::proofs::Turns::turn_out))]
fn more_pieces<
    P: Fn(&mut Cursor<'_>) -> Result<Piece, LexErr>,
    Q: Fn(&mut Cursor<'_>) -> Result<QPiece, LexErr>,
>(c: &mut Cursor<'_>, piece: &P, quoted: &Q) -> Result<Pairs<Piece, Unquoted>, LexErr>
    requires pieces { ReadsBelow piece_at (c.old.room + 1) (P.pre piece.now) (P.post piece.now) }
    requires in_quotes { ReadsBelow quoted_at c.old.room (Q.pre quoted.now) (Q.post quoted.now) }
    ensures { Reads (many (unquoted_at c.old.room)) c.old result c.new }
{
    repeat_pairs!(c, unquoted_piece(c, piece, quoted))
}

/// The word of a here-document, with the delimiter that it makes: its pieces are read by `piece`, and those in double
/// quotes by `quoted`.
///
/// # Errors
/// `NoParse` exactly where no word stands at the place, `TooDeep` exactly where reading it opens more nestings than may
/// be open, `Memory` where there is no room for it.
#[tactic(auto, using(crate::proofs::DelimiterWords::word_hash, crate::proofs::DelimiterWords::word_none, crate::proofs::DelimiterWords::word_stop, crate::proofs::DelimiterWords::word_read))]
pub fn delimiter_word<
    P: Fn(&mut Cursor<'_>) -> Result<Piece, LexErr>,
    Q: Fn(&mut Cursor<'_>) -> Result<QPiece, LexErr>,
>(c: &mut Cursor<'_>, piece: &P, quoted: &Q) -> Result<(Word, Unquoted), LexErr>
    requires pieces { ReadsBelow piece_at (c.old.room + 1) (P.pre piece.now) (P.post piece.now) }
    requires in_quotes { ReadsBelow quoted_at c.old.room (Q.pre quoted.now) (Q.post quoted.now) }
    ensures { Reads (here.delimiter_word (inside c.old.room)) c.old result c.new }
{
    if c.sees(b"#") {
        return Err(LexErr::NoParse);
    }
    let start = c.here();
    let first = unquoted_piece(c, piece, quoted)?;
    let others = or_back!(c, start, more_pieces(c, piece, quoted));
    Ok(or_back!(c, start, word_told(c.alloc(), first, others)))
}
