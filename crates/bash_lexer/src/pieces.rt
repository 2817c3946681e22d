//! The pieces of words (Bash Reference Manual, "Quoting", "Process Substitution" and "Pattern Matching").

ghost use Rattle.std.specs.Prelude.{◌+◌, false, true};
ghost use Rattle.bash_cursor.specs.Reads.{Finds, Reads, ReadsBelow};
ghost use Rattle.bash_lexer.specs.At.{back_at, dollar_at, group_at, process_at};
ghost use Rattle.bash_reading.specs.At.{body_at, piece_at};
ghost use Rattle.eb_grammar.specs.Grammar.{inside, rules_in};
ghost use Rattle.eb_grammar.specs.Peg.{many};
ghost use Rattle.eb_grammar.specs.Words as words;

use crate::quotes::double_of;
use bash_cursor::{
    Cursor, LexErr, ansi_quoted, continuation, escaped, group_start, lone, or_back, or_remember,
    process_start, single_quoted,
};
use bash_reading::{attempt, must, put, shared};
use eb_bytes::Bytes;
use eb_grammar::Class;
use eb_syntax::{Back, Body, Dollar, GroupPart, Piece, Plain};
use grammar_laws::Nesting;
use shared::Shared;
use sqlite_items::Items as List;

// `<(..)` or `>(..)`, with the commands read by `body`.
#[tactic(auto, using(bash_cursor::proofs::Nesting::nest_first_err, bash_cursor::proofs::Nesting::nest_first_deep, bash_cursor::proofs::Nesting::nest_first_in))]
pub fn process<B: Fn(&mut Cursor<'_>) -> Result<Body, LexErr>>(
    c: &mut Cursor<'_>,
    body: &B,
) -> Result<Piece, LexErr>
    requires { ReadsBelow body_at c.old.room (B.pre body.now) (B.post body.now) }
    ensures { Reads (process_at c.old.room) c.old result c.new }
{
    let front = c.here();
    let Some(_) = process_start(c) else {
        return Err(LexErr::NoParse);
    };
    c.back_to(front);
    if c.known(Nesting::Process) {
        return Err(LexErr::NoParse);
    }
    let start = c.here();
    c.enter()?;
    let found = or_remember!(c, start, Nesting::Process, process_body(c, body));
    c.leave();
    Ok(found)
}

// The same, whose nesting is open.
#[tactic(auto, unfolding(eb_grammar::specs::Words::process))]
fn process_body<B: Fn(&mut Cursor<'_>) -> Result<Body, LexErr>>(
    c: &mut Cursor<'_>,
    body: &B,
) -> Result<Piece, LexErr>
    requires { ReadsBelow body_at (c.old.room + 1) (B.pre body.now) (B.post body.now) }
    ensures { Reads (words.process (rules_in (inside c.old.room))) c.old result c.new }
{
    let start = c.here();
    let Some(which) = process_start(c) else {
        return Err(LexErr::NoParse);
    };
    let found = or_back!(c, start, body(c));
    must!(c, start, c.eat(b")"));
    Ok(Piece::Process(which, found))
}

// An extended group, with its pieces read by `piece`.
#[tactic(auto, using(bash_cursor::proofs::Nesting::nest_first_err, bash_cursor::proofs::Nesting::nest_first_deep, bash_cursor::proofs::Nesting::nest_first_in))]
pub fn group<P: Fn(&mut Cursor<'_>) -> Result<Piece, LexErr>>(
    c: &mut Cursor<'_>,
    piece: &P,
) -> Result<Piece, LexErr>
    requires { ReadsBelow piece_at c.old.room (P.pre piece.now) (P.post piece.now) }
    ensures { Reads (group_at c.old.room) c.old result c.new }
{
    let front = c.here();
    let Some(_) = group_start(c) else {
        return Err(LexErr::NoParse);
    };
    c.back_to(front);
    if c.known(Nesting::Group) {
        return Err(LexErr::NoParse);
    }
    let start = c.here();
    c.enter()?;
    let found = or_remember!(c, start, Nesting::Group, group_inside(c, piece));
    c.leave();
    Ok(found)
}

// The same, whose nesting is open.
#[tactic(auto, unfolding(eb_grammar::specs::Words::group))]
fn group_inside<P: Fn(&mut Cursor<'_>) -> Result<Piece, LexErr>>(
    c: &mut Cursor<'_>,
    piece: &P,
) -> Result<Piece, LexErr>
    requires { ReadsBelow piece_at (c.old.room + 1) (P.pre piece.now) (P.post piece.now) }
    ensures { Reads (words.group (rules_in (inside c.old.room))) c.old result c.new }
{
    let start = c.here();
    let Some(kind) = group_start(c) else {
        return Err(LexErr::NoParse);
    };
    let parts = or_back!(c, start, group_parts(c, piece));
    must!(c, start, c.eat(b")"));
    let parts = or_back!(c, start, shared(c.alloc(), parts));
    Ok(Piece::Group(kind, parts))
}

#[tactic(auto, using(bash_cursor::proofs::Turns::turn_go, bash_cursor::proofs::Turns::turn_no, bash_cursor::proofs::Turns::turn_deep, bash_cursor::proofs::Turns::turn_out))]
fn group_parts<P: Fn(&mut Cursor<'_>) -> Result<Piece, LexErr>>(
    c: &mut Cursor<'_>,
    piece: &P,
) -> Result<List<GroupPart>, LexErr>
    requires { ReadsBelow piece_at (c.old.room + 1) (P.pre piece.now) (P.post piece.now) }
    ensures { Reads (many (words.group_part (rules_in (inside c.old.room)))) c.old result c.new }
{
    repeat!(c, group_part(c, piece))
}

// A piece, a blank or a bar.
#[tactic(auto, unfolding(eb_grammar::specs::Words::group_part))]
fn group_part<P: Fn(&mut Cursor<'_>) -> Result<Piece, LexErr>>(
    c: &mut Cursor<'_>,
    piece: &P,
) -> Result<GroupPart, LexErr>
    requires { ReadsBelow piece_at (c.old.room + 1) (P.pre piece.now) (P.post piece.now) }
    ensures { Reads (words.group_part (rules_in (inside c.old.room))) c.old result c.new }
{
    if let Some(found) = attempt!(piece(c)) {
        return Ok(GroupPart::Piece(found));
    }
    if let Some(blank) = c.blank() {
        return Ok(GroupPart::Blank(blank));
    }
    c.literal(b"|")?;
    Ok(GroupPart::Bar)
}

// `'..'`, shared.
fn shared_single(c: &mut Cursor<'_>) -> Result<Shared<Bytes>, LexErr>
    ensures { Reads words.single_quoted c.old result c.new }
{
    let start = c.here();
    let text = single_quoted(c)?;
    Ok(or_back!(c, start, shared(c.alloc(), text)))
}

// `$'..'`, shared.
fn shared_ansi(c: &mut Cursor<'_>) -> Result<Shared<Bytes>, LexErr>
    ensures { Reads words.ansi_quoted c.old result c.new }
{
    let start = c.here();
    let text = ansi_quoted(c)?;
    Ok(or_back!(c, start, shared(c.alloc(), text)))
}

// A byte that stands for itself, or a dollar that begins nothing.
#[tactic(auto, unfolding(eb_grammar::specs::Words::plain))]
fn plain(c: &mut Cursor<'_>) -> Option<Plain>
    ensures { Finds words.plain c.old result c.new }
{
    if let Some(byte) = c.byte(Class::Plain) {
        return Some(Plain::Byte(byte));
    }
    if lone(c) {
        return Some(Plain::Lone);
    }
    None
}

// A piece, told by all that may begin one.
#[tactic(auto, unfolding(eb_grammar::specs::Words::piece))]
fn other_piece<
    P: Fn(&mut Cursor<'_>) -> Result<Piece, LexErr>,
    O: Fn(&mut Cursor<'_>) -> Result<Body, LexErr>,
    D: Fn(bool, &mut Cursor<'_>) -> Result<Dollar, LexErr>,
    B: Fn(&mut Cursor<'_>) -> Result<Back, LexErr>,
>(c: &mut Cursor<'_>, piece: &P, body: &O, dollar: &D, back: &B) -> Result<Piece, LexErr>
    requires pieces { ReadsBelow piece_at c.old.room (P.pre piece.now) (P.post piece.now) }
    requires bodies { ReadsBelow body_at c.old.room (O.pre body.now) (O.post body.now) }
    requires dollars { ReadsBelow (dollar_at false) (c.old.room + 1) (D.pre dollar.now false) (D.post dollar.now false) }
    requires quotes { ReadsBelow (dollar_at true) (c.old.room + 1) (D.pre dollar.now true) (D.post dollar.now true) }
    requires backs { ReadsBelow back_at (c.old.room + 1) (B.pre back.now) (B.post back.now) }
    ensures { Reads (piece_at c.old.room) c.old result c.new }
{
    if continuation(c) {
        return Ok(Piece::Continuation);
    }
    if let Some(byte) = escaped(c) {
        return Ok(Piece::Escaped(byte));
    }
    if let Some(text) = attempt!(shared_single(c)) {
        return Ok(Piece::Single(text));
    }
    if let Some(text) = attempt!(shared_ansi(c)) {
        return Ok(Piece::Ansi(text));
    }
    if let Some(found) = attempt!(double_of(c, dollar, back)) {
        return Ok(found);
    }
    if let Some(found) = attempt!(dollar(false, c)) {
        return Ok(Piece::Dollar(found));
    }
    if let Some(found) = attempt!(back(c)) {
        return Ok(Piece::Back(found));
    }
    if let Some(found) = attempt!(process(c, body)) {
        return Ok(found);
    }
    if let Some(found) = attempt!(group(c, piece)) {
        return Ok(found);
    }
    match plain(c) {
        Some(found) => Ok(Piece::Plain(found)),
        None => Err(LexErr::NoParse),
    }
}

/// A piece of a word. What stands in its nestings is read by `piece` and `body`, what is expanded by `dollar` and `back`.
#[tactic(auto, using(crate::proofs::NameBytes::name_piece))]
pub fn piece_of<
    P: Fn(&mut Cursor<'_>) -> Result<Piece, LexErr>,
    O: Fn(&mut Cursor<'_>) -> Result<Body, LexErr>,
    D: Fn(bool, &mut Cursor<'_>) -> Result<Dollar, LexErr>,
    B: Fn(&mut Cursor<'_>) -> Result<Back, LexErr>,
>(c: &mut Cursor<'_>, piece: &P, body: &O, dollar: &D, back: &B) -> Result<Piece, LexErr>
    requires pieces { ReadsBelow piece_at c.old.room (P.pre piece.now) (P.post piece.now) }
    requires bodies { ReadsBelow body_at c.old.room (O.pre body.now) (O.post body.now) }
    requires dollars { ReadsBelow (dollar_at false) (c.old.room + 1) (D.pre dollar.now false) (D.post dollar.now false) }
    requires quotes { ReadsBelow (dollar_at true) (c.old.room + 1) (D.pre dollar.now true) (D.post dollar.now true) }
    requires backs { ReadsBelow back_at (c.old.room + 1) (B.pre back.now) (B.post back.now) }
    ensures { Reads (piece_at c.old.room) c.old result c.new }
{
    // Most bytes of a script are bytes of names, which begin nothing else.
    if let Some(byte) = c.byte(Class::NamePart) {
        return Ok(Piece::Plain(Plain::Byte(byte)));
    }
    other_piece(c, piece, body, dollar, back)
}
