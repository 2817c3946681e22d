//! The regular expressions of `=~` (Bash Reference Manual, "Conditional Constructs").

ghost use Rattle.std.specs.Prelude.{◌+◌, ◌<◌};
ghost use Rattle.bash_cursor.specs.Reads.{Reads, ReadsBelow};
ghost use Rattle.bash_reading.specs.At.{piece_at, regex_at};
ghost use Rattle.bash_redirs.specs.Parts.{regex_group_at};
ghost use Rattle.eb_grammar.specs.Conditions as conditions;
ghost use Rattle.eb_grammar.specs.Grammar.{inside, rules_in};
ghost use Rattle.eb_grammar.specs.Peg.{many};

use bash_cursor::{Cursor, LexErr, or_back, or_remember};
use bash_reading::{attempt, list_with, must, put};
use eb_syntax::{Piece, RIn, Regex, RegexPart};
use grammar_laws::Nesting;
use sqlite_items::Items as List;

// A regular expression or a blank.
#[tactic(auto, unfolding(eb_grammar::specs::Conditions::in_regex))]
fn regex_or_blank<R: Fn(&mut Cursor<'_>) -> Result<Regex, LexErr>>(
    c: &mut Cursor<'_>,
    regex: &R,
) -> Result<RIn, LexErr>
    requires { ReadsBelow regex_at (c.old.room + 1) (R.pre regex.now) (R.post regex.now) }
    ensures { Reads (conditions.in_regex (rules_in (inside c.old.room))) c.old result c.new }
{
    if let Some(found) = attempt!(regex(c)) {
        return Ok(RIn::Regex(found));
    }
    match c.blank() {
        Some(blank) => Ok(RIn::Blank(blank)),
        None => Err(LexErr::NoParse),
    }
}

#[tactic(auto, using(bash_cursor::proofs::Turns::turn_go, bash_cursor::proofs::Turns::turn_no, bash_cursor::proofs::Turns::turn_deep, bash_cursor::proofs::Turns::turn_out))]
fn group_parts<R: Fn(&mut Cursor<'_>) -> Result<Regex, LexErr>>(
    c: &mut Cursor<'_>,
    regex: &R,
) -> Result<List<RIn>, LexErr>
    requires { ReadsBelow regex_at (c.old.room + 1) (R.pre regex.now) (R.post regex.now) }
    ensures { Reads (many (conditions.in_regex (rules_in (inside c.old.room)))) c.old result c.new }
{
    repeat!(c, regex_or_blank(c, regex))
}

// `(..)`, whose nesting is open.
#[tactic(auto, unfolding(eb_grammar::specs::Conditions::regex_group))]
fn group_inside<R: Fn(&mut Cursor<'_>) -> Result<Regex, LexErr>>(
    c: &mut Cursor<'_>,
    regex: &R,
) -> Result<List<RIn>, LexErr>
    requires { ReadsBelow regex_at (c.old.room + 1) (R.pre regex.now) (R.post regex.now) }
    ensures { Reads (conditions.regex_group (rules_in (inside c.old.room))) c.old result c.new }
{
    let start = c.here();
    c.literal(b"(")?;
    let found = or_back!(c, start, group_parts(c, regex));
    must!(c, start, c.eat(b")"));
    Ok(found)
}

// `(..)`. Where the cursor knows that it has no reading here, it is not read again.
#[tactic(auto, using(bash_cursor::proofs::Nesting::nest_no, bash_cursor::proofs::Nesting::nest_deep, bash_cursor::proofs::Nesting::nest_in))]
fn group<R: Fn(&mut Cursor<'_>) -> Result<Regex, LexErr>>(
    c: &mut Cursor<'_>,
    regex: &R,
) -> Result<List<RIn>, LexErr>
    requires { ReadsBelow regex_at c.old.room (R.pre regex.now) (R.post regex.now) }
    ensures { Reads (regex_group_at c.old.room) c.old result c.new }
{
    if !c.sees(b"(") || c.known(Nesting::RegexGroup) {
        return Err(LexErr::NoParse);
    }
    let start = c.here();
    c.enter()?;
    let found = or_remember!(c, start, Nesting::RegexGroup, group_inside(c, regex));
    c.leave();
    Ok(found)
}

// A piece, a bar or a group.
#[tactic(auto, unfolding(eb_grammar::specs::Conditions::regex_part))]
fn regex_part<
    P: Fn(&mut Cursor<'_>) -> Result<Piece, LexErr>,
    R: Fn(&mut Cursor<'_>) -> Result<Regex, LexErr>,
>(c: &mut Cursor<'_>, piece: &P, regex: &R) -> Result<RegexPart, LexErr>
    requires pieces { ReadsBelow piece_at (c.old.room + 1) (P.pre piece.now) (P.post piece.now) }
    requires in_groups { ReadsBelow regex_at c.old.room (R.pre regex.now) (R.post regex.now) }
    ensures { Reads (conditions.regex_part (inside c.old.room)) c.old result c.new }
{
    if let Some(found) = attempt!(piece(c)) {
        return Ok(RegexPart::Piece(found));
    }
    if c.eat(b"|") {
        return Ok(RegexPart::Bar);
    }
    Ok(RegexPart::Group(group(c, regex)?))
}

#[tactic(auto, using(bash_cursor::proofs::Turns::turn_go, bash_cursor::proofs::Turns::turn_no, bash_cursor::proofs::Turns::turn_deep, bash_cursor::proofs::Turns::turn_out))]
fn more_parts<
    P: Fn(&mut Cursor<'_>) -> Result<Piece, LexErr>,
    R: Fn(&mut Cursor<'_>) -> Result<Regex, LexErr>,
>(c: &mut Cursor<'_>, piece: &P, regex: &R) -> Result<List<RegexPart>, LexErr>
    requires pieces { ReadsBelow piece_at (c.old.room + 1) (P.pre piece.now) (P.post piece.now) }
    requires in_groups { ReadsBelow regex_at c.old.room (R.pre regex.now) (R.post regex.now) }
    ensures { Reads (many (conditions.regex_part (inside c.old.room))) c.old result c.new }
{
    repeat!(c, regex_part(c, piece, regex))
}

// A regular expression, with what stands in its groups read by `regex`.
#[tactic(auto, unfolding(eb_grammar::specs::Conditions::regex))]
fn regex_by<
    P: Fn(&mut Cursor<'_>) -> Result<Piece, LexErr>,
    R: Fn(&mut Cursor<'_>) -> Result<Regex, LexErr>,
>(c: &mut Cursor<'_>, piece: &P, regex: &R) -> Result<Regex, LexErr>
    requires pieces { ReadsBelow piece_at (c.old.room + 1) (P.pre piece.now) (P.post piece.now) }
    requires in_groups { ReadsBelow regex_at c.old.room (R.pre regex.now) (R.post regex.now) }
    ensures { Reads (regex_at c.old.room) c.old result c.new }
{
    let start = c.here();
    let first = regex_part(c, piece, regex)?;
    let others = or_back!(c, start, more_parts(c, piece, regex));
    Ok(or_back!(c, start, list_with(c.alloc(), first, others)))
}

/// The regular expression after `=~`: its pieces are read by `piece`.
///
/// # Errors
/// `NoParse` exactly where none stands at the place, `TooDeep` exactly where reading it opens more nestings than may be
/// open, `Memory` where there is no room for it.
#[tactic(auto, using(bash_cursor::proofs::Below::narrower))]
pub fn regex<P: Fn(&mut Cursor<'_>) -> Result<Piece, LexErr>>(
    c: &mut Cursor<'_>,
    piece: &P,
) -> Result<Regex, LexErr>
    requires { ReadsBelow piece_at (c.old.room + 1) (P.pre piece.now) (P.post piece.now) }
    ensures { Reads (regex_at c.old.room) c.old result c.new }
{
    let room = c.room();
    let inner = |c: &mut Cursor<'_>| -> Result<Regex, LexErr>
        requires below { c.old.room < room }
        requires pieces { ReadsBelow piece_at (c.old.room + 1) (P.pre piece.now) (P.post piece.now) }
        ensures { Reads (regex_at c.old.room) c.old result c.new }
    {
        let _ = &room;
        regex(c, piece)
    };
    regex_by(c, piece, &inner)
}
