//! The double quotes of a here-document's delimiter.

ghost use Rattle.std.specs.Prelude.{◌+◌};
ghost use Rattle.bash_cursor.specs.Reads.{Finds, Reads, ReadsBelow};
ghost use Rattle.bash_reading.specs.At.{quoted_at};
ghost use Rattle.bash_redirs.specs.Delimiters.{escaped_in_quotes, quotes_at};
ghost use Rattle.eb_grammar.specs.Grammar.{inside, rules_in};
ghost use Rattle.eb_grammar.specs.HereDocuments as here;
ghost use Rattle.eb_grammar.specs.Peg.{many, with_text};

use crate::lists::{between, copied};
use crate::pairs::{Pairs, put_pair};
use crate::unquoted::Unquoted;
use crate::unquoted_pieces::double_of;
use bash_cursor::{Cursor, LexErr, continuation, or_back};
use bash_reading::must;
use eb_bytes::Bytes;
use eb_grammar::Class;
use eb_syntax::{Piece, QPiece};

// A piece inside double quotes, and the bytes that it took.
fn quoted_with_text<Q: Fn(&mut Cursor<'_>) -> Result<QPiece, LexErr>>(
    c: &mut Cursor<'_>,
    quoted: &Q,
) -> Result<(QPiece, Bytes), LexErr>
    requires { ReadsBelow quoted_at (c.old.room + 1) (Q.pre quoted.now) (Q.post quoted.now) }
    ensures { Reads (with_text (quoted_at c.old.room)) c.old result c.new }
{
    let start = c.here();
    let (text, from) = (c.rest(), c.place());
    let found = quoted(c)?;
    let bytes = or_back!(c, start, between(c.alloc(), text, from, c.place()));
    Ok((found, bytes))
}

// A backslash before a dollar, a backquote, a double quote or a backslash: that byte.
fn escaped_byte(c: &mut Cursor<'_>) -> Option<u8>
    ensures { Finds escaped_in_quotes c.old result c.new }
{
    let start = c.here();
    if !c.eat(b"\\") {
        return None;
    }
    match c.byte(Class::Escaped) {
        Some(byte) => Some(byte),
        None => {
            c.back_to(start);
            None
        }
    }
}

// A piece inside double quotes, with its bytes in the delimiter.
#[tactic(auto, unfolding(eb_grammar::specs::HereDocuments::unquoted_quoted_piece))]
fn quoted_part<Q: Fn(&mut Cursor<'_>) -> Result<QPiece, LexErr>>(
    c: &mut Cursor<'_>,
    quoted: &Q,
) -> Result<(QPiece, Bytes), LexErr>
    requires { ReadsBelow quoted_at (c.old.room + 1) (Q.pre quoted.now) (Q.post quoted.now) }
    ensures { Reads (here.unquoted_quoted_piece (rules_in (inside c.old.room))) c.old result c.new }
{
    if continuation(c) {
        return Ok((QPiece::Continuation, Bytes::new(c.alloc())));
    }
    let start = c.here();
    if let Some(byte) = escaped_byte(c) {
        let bytes = or_back!(c, start, copied(c.alloc(), &[byte]));
        return Ok((QPiece::Escaped(byte), bytes));
    }
    quoted_with_text(c, quoted)
}

#[tactic(auto, using(bash_cursor::proofs::Turns::turn_go, bash_cursor::proofs::Turns::turn_no, bash_cursor::proofs::Turns::turn_deep, bash_cursor::proofs::Turns::turn_out))]
fn quoted_parts<Q: Fn(&mut Cursor<'_>) -> Result<QPiece, LexErr>>(
    c: &mut Cursor<'_>,
    quoted: &Q,
) -> Result<Pairs<QPiece, Bytes>, LexErr>
    requires { ReadsBelow quoted_at (c.old.room + 1) (Q.pre quoted.now) (Q.post quoted.now) }
    ensures { Reads (many (here.unquoted_quoted_piece (rules_in (inside c.old.room)))) c.old result c.new }
{
    repeat_pairs!(c, quoted_part(c, quoted))
}

// `".."`, whose nesting is open.
#[tactic(auto, using(crate::proofs::Enclosed::quotes_none, crate::proofs::Enclosed::quotes_stop, crate::proofs::Enclosed::quotes_open, crate::proofs::Enclosed::quotes_read))]
fn quotes_inside<Q: Fn(&mut Cursor<'_>) -> Result<QPiece, LexErr>>(
    c: &mut Cursor<'_>,
    quoted: &Q,
) -> Result<Pairs<QPiece, Bytes>, LexErr>
    requires { ReadsBelow quoted_at (c.old.room + 1) (Q.pre quoted.now) (Q.post quoted.now) }
    ensures { Reads (here.unquoted_quotes (rules_in (inside c.old.room))) c.old result c.new }
{
    let start = c.here();
    c.literal(b"\"")?;
    let found = or_back!(c, start, quoted_parts(c, quoted));
    must!(c, start, c.eat(b"\""));
    Ok(found)
}

// `".."`
#[tactic(auto, using(bash_cursor::proofs::Nesting::nest_no, bash_cursor::proofs::Nesting::nest_deep, bash_cursor::proofs::Nesting::nest_in))]
fn quotes<Q: Fn(&mut Cursor<'_>) -> Result<QPiece, LexErr>>(
    c: &mut Cursor<'_>,
    quoted: &Q,
) -> Result<Pairs<QPiece, Bytes>, LexErr>
    requires { ReadsBelow quoted_at c.old.room (Q.pre quoted.now) (Q.post quoted.now) }
    ensures { Reads (quotes_at c.old.room) c.old result c.new }
{
    if !c.sees(b"\"") {
        return Err(LexErr::NoParse);
    }
    let start = c.here();
    c.enter()?;
    let found = or_back!(c, start, quotes_inside(c, quoted));
    c.leave();
    Ok(found)
}

// `".."` or `$".."`, with its bytes in the delimiter.
#[tactic(auto, unfolding(eb_grammar::specs::HereDocuments::unquoted_double))]
pub fn double<Q: Fn(&mut Cursor<'_>) -> Result<QPiece, LexErr>>(
    c: &mut Cursor<'_>,
    quoted: &Q,
) -> Result<(Piece, Unquoted), LexErr>
    requires { ReadsBelow quoted_at c.old.room (Q.pre quoted.now) (Q.post quoted.now) }
    ensures { Reads (here.unquoted_double (inside c.old.room)) c.old result c.new }
{
    let start = c.here();
    let translated = c.eat(b"$");
    let found = or_back!(c, start, quotes(c, quoted));
    Ok(or_back!(c, start, double_of(c.alloc(), translated, found)))
}
