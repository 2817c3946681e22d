//! The extended groups of a here-document's delimiter.

ghost use Rattle.std.specs.Prelude.{◌+◌};
ghost use Rattle.bash_cursor.specs.Reads.{Reads, ReadsBelow};
ghost use Rattle.bash_redirs.specs.At.{unquoted_at};
ghost use Rattle.bash_redirs.specs.Delimiters.{group_at};
ghost use Rattle.eb_grammar.specs.Grammar.{inside, rules_in};
ghost use Rattle.eb_grammar.specs.HereDocuments as here;
ghost use Rattle.eb_grammar.specs.Peg.{many};

use crate::lists::{between, copied};
use crate::pairs::{Pairs, put_pair};
use crate::unquoted::Unquoted;
use crate::unquoted_pieces::group_of;
use bash_cursor::{Cursor, LexErr, group_start, or_back};
use bash_reading::{attempt, must};
use eb_syntax::{GroupPart, Piece};

// A piece, a blank or a bar, with its bytes in the delimiter.
#[tactic(auto, unfolding(eb_grammar::specs::HereDocuments::unquoted_group_part))]
fn group_part<U: Fn(&mut Cursor<'_>) -> Result<(Piece, Unquoted), LexErr>>(
    c: &mut Cursor<'_>,
    unquoted: &U,
) -> Result<(GroupPart, Unquoted), LexErr>
    requires { ReadsBelow unquoted_at (c.old.room + 1) (U.pre unquoted.now) (U.post unquoted.now) }
    ensures { Reads (here.unquoted_group_part (rules_in (inside c.old.room))) c.old result c.new }
{
    if let Some((piece, told)) = attempt!(unquoted(c)) {
        return Ok((GroupPart::Piece(piece), told));
    }
    let start = c.here();
    let (text, from) = (c.rest(), c.place());
    if let Some(blank) = c.blank() {
        let bytes = or_back!(c, start, between(c.alloc(), text, from, c.place()));
        return Ok((GroupPart::Blank(blank), Unquoted::bare(bytes)));
    }
    c.literal(b"|")?;
    let bytes = or_back!(c, start, copied(c.alloc(), b"|"));
    Ok((GroupPart::Bar, Unquoted::bare(bytes)))
}

#[tactic(auto, using(bash_cursor::proofs::Turns::turn_go, bash_cursor::proofs::Turns::turn_no, bash_cursor::proofs::Turns::turn_deep, bash_cursor::proofs::Turns::turn_out))]
fn group_parts<U: Fn(&mut Cursor<'_>) -> Result<(Piece, Unquoted), LexErr>>(
    c: &mut Cursor<'_>,
    unquoted: &U,
) -> Result<Pairs<GroupPart, Unquoted>, LexErr>
    requires { ReadsBelow unquoted_at (c.old.room + 1) (U.pre unquoted.now) (U.post unquoted.now) }
    ensures { Reads (many (here.unquoted_group_part (rules_in (inside c.old.room)))) c.old result c.new }
{
    repeat_pairs!(c, group_part(c, unquoted))
}

// An extended group, whose nesting is open.
#[tactic(auto, unfolding(eb_grammar::specs::HereDocuments::unquoted_group))]
fn group_inside<U: Fn(&mut Cursor<'_>) -> Result<(Piece, Unquoted), LexErr>>(
    c: &mut Cursor<'_>,
    unquoted: &U,
) -> Result<(Piece, Unquoted), LexErr>
    requires { ReadsBelow unquoted_at (c.old.room + 1) (U.pre unquoted.now) (U.post unquoted.now) }
    ensures { Reads (here.unquoted_group (rules_in (inside c.old.room))) c.old result c.new }
{
    let start = c.here();
    let Some(kind) = group_start(c) else {
        return Err(LexErr::NoParse);
    };
    let parts = or_back!(c, start, group_parts(c, unquoted));
    must!(c, start, c.eat(b")"));
    Ok(or_back!(c, start, group_of(c.alloc(), kind, parts)))
}

// An extended group, with its bytes in the delimiter.
#[tactic(auto, using(bash_cursor::proofs::Nesting::nest_first_err, bash_cursor::proofs::Nesting::nest_first_deep, bash_cursor::proofs::Nesting::nest_first_in))]
pub fn group<U: Fn(&mut Cursor<'_>) -> Result<(Piece, Unquoted), LexErr>>(
    c: &mut Cursor<'_>,
    unquoted: &U,
) -> Result<(Piece, Unquoted), LexErr>
    requires { ReadsBelow unquoted_at c.old.room (U.pre unquoted.now) (U.post unquoted.now) }
    ensures { Reads (group_at c.old.room) c.old result c.new }
{
    let front = c.here();
    let Some(_) = group_start(c) else {
        return Err(LexErr::NoParse);
    };
    c.back_to(front);
    let start = c.here();
    c.enter()?;
    let found = or_back!(c, start, group_inside(c, unquoted));
    c.leave();
    Ok(found)
}
