//! Assignments (Bash Reference Manual, "Shell Parameters" and "Arrays").

ghost use Rattle.std.specs.Prelude.{◌+◌};
ghost use Rattle.bash_cursor.specs.Reads.{Reads, ReadsBelow, ReadsMarks};
ghost use Rattle.bash_reading.specs.At.{lines_at, piece_at, subscript_at, word_at};
ghost use Rattle.bash_reading.specs.Marks.{ReadsMarksBelow};
ghost use Rattle.eb_grammar.specs.Grammar.{inside, rules_in};
ghost use Rattle.eb_grammar.specs.Peg.{followed_by, lit, many, nest};
ghost use Rattle.eb_grammar.specs.Redirections as redirections;

use crate::lists::word_of;
use bash_cursor::{Cursor, LexErr, name, or_back};
use bash_reading::{attempt, attempt_or_back, must, or_restore, put};
use eb_syntax::{Assign, Assigned, Piece, Sub, Word};
use grammar_laws::Nesting;
use sqlite_items::Items as List;

/// `name=..`, `name[..]=..`, `name+=..` or `name=(..)`: the pieces are read by `piece`, a subscript by `subscript`, and in
/// an array the words by `word` and what stands between them by `lines`. Where a subscript was read and no `=` stands
/// after it, the cursor remembers it, since its bytes are read again as those of a word.
///
/// # Errors
/// `NoParse` exactly where no assignment stands at the place, `TooDeep` exactly where reading it opens more nestings than
/// may be open, `Memory` where there is no room for it. The cursor, with its here-documents, is as it was then.
#[tactic(auto, using(crate::proofs::AssignHeads::no_head), unfolding(eb_grammar::specs::Redirections::assign))]
pub fn assign<
    P: Fn(&mut Cursor<'_>) -> Result<Piece, LexErr>,
    S: Fn(&mut Cursor<'_>) -> Result<Sub, LexErr>,
    W: Fn(&mut Cursor<'_>) -> Result<Word, LexErr>,
    L: Fn(&mut Cursor<'_>) -> Result<(), LexErr>,
>(c: &mut Cursor<'_>, piece: &P, subscript: &S, word: &W, lines: &L) -> Result<Assign, LexErr>
    requires pieces { ReadsBelow piece_at (c.old.room + 1) (P.pre piece.now) (P.post piece.now) }
    requires subscripts { ReadsBelow subscript_at (c.old.room + 1) (S.pre subscript.now) (S.post subscript.now) }
    requires words { ReadsBelow word_at c.old.room (W.pre word.now) (W.post word.now) }
    requires between { ReadsMarksBelow lines_at c.old.room (L.pre lines.now) (L.post lines.now) }
    ensures { ReadsMarks (redirections.assign (inside c.old.room)) c.old result c.new }
{
    if c.known(Nesting::AssignHead) {
        return Err(LexErr::NoParse);
    }
    let start = c.here();
    let called = name(c)?;
    let index = attempt_or_back!(c, start, subscript(c));
    let append = c.eat(b"+");
    if !c.eat(b"=") {
        c.back_to(start);
        if index.is_some() {
            c.remember(Nesting::AssignHead);
        }
        return Err(LexErr::NoParse);
    }
    let value = or_back!(c, start, assigned(c, piece, word, lines));
    Ok(Assign {
        name: called,
        sub: index,
        append,
        value,
    })
}

// What stands after the `=`: an array, or pieces, perhaps none.
#[tactic(auto, unfolding(eb_grammar::specs::Redirections::assigned))]
fn assigned<
    P: Fn(&mut Cursor<'_>) -> Result<Piece, LexErr>,
    W: Fn(&mut Cursor<'_>) -> Result<Word, LexErr>,
    L: Fn(&mut Cursor<'_>) -> Result<(), LexErr>,
>(c: &mut Cursor<'_>, piece: &P, word: &W, lines: &L) -> Result<Assigned, LexErr>
    requires pieces { ReadsBelow piece_at (c.old.room + 1) (P.pre piece.now) (P.post piece.now) }
    requires words { ReadsBelow word_at c.old.room (W.pre word.now) (W.post word.now) }
    requires between { ReadsMarksBelow lines_at c.old.room (L.pre lines.now) (L.post lines.now) }
    ensures { ReadsMarks (redirections.assigned (inside c.old.room)) c.old result c.new }
{
    if let Some(words) = attempt!(array(c, word, lines)) {
        return Ok(Assigned::Array(words));
    }
    let start = c.here();
    let found = pieces(c, piece)?;
    Ok(Assigned::Text(or_back!(c, start, word_of(c.alloc(), found))))
}

// All pieces that stand at the place.
#[tactic(auto, using(bash_cursor::proofs::Turns::turn_go, bash_cursor::proofs::Turns::turn_no, bash_cursor::proofs::Turns::turn_deep, bash_cursor::proofs::Turns::turn_out))]
fn pieces<P: Fn(&mut Cursor<'_>) -> Result<Piece, LexErr>>(
    c: &mut Cursor<'_>,
    piece: &P,
) -> Result<List<Piece>, LexErr>
    requires { ReadsBelow piece_at (c.old.room + 1) (P.pre piece.now) (P.post piece.now) }
    ensures { Reads (many (piece_at c.old.room)) c.old result c.new }
{
    repeat!(c, piece(c))
}

// `(..)`
#[tactic(auto, using(bash_cursor::proofs::Nesting::nest_no, bash_cursor::proofs::Nesting::nest_deep, bash_cursor::proofs::Nesting::nest_in))]
fn array<
    W: Fn(&mut Cursor<'_>) -> Result<Word, LexErr>,
    L: Fn(&mut Cursor<'_>) -> Result<(), LexErr>,
>(c: &mut Cursor<'_>, word: &W, lines: &L) -> Result<List<Word>, LexErr>
    requires words { ReadsBelow word_at c.old.room (W.pre word.now) (W.post word.now) }
    requires between { ReadsMarksBelow lines_at c.old.room (L.pre lines.now) (L.post lines.now) }
    ensures { ReadsMarks (nest (inside c.old.room) (lit "(") redirections.array) c.old result c.new }
{
    if !c.sees(b"(") {
        return Err(LexErr::NoParse);
    }
    let start = c.here();
    c.enter()?;
    let words = or_back!(c, start, array_inside(c, word, lines));
    c.leave();
    Ok(words)
}

// The same, whose nesting is open.
#[tactic(auto, unfolding(eb_grammar::specs::Redirections::array))]
fn array_inside<
    W: Fn(&mut Cursor<'_>) -> Result<Word, LexErr>,
    L: Fn(&mut Cursor<'_>) -> Result<(), LexErr>,
>(c: &mut Cursor<'_>, word: &W, lines: &L) -> Result<List<Word>, LexErr>
    requires words { ReadsBelow word_at (c.old.room + 1) (W.pre word.now) (W.post word.now) }
    requires between { ReadsMarksBelow lines_at (c.old.room + 1) (L.pre lines.now) (L.post lines.now) }
    ensures { ReadsMarks (redirections.array (rules_in (inside c.old.room))) c.old result c.new }
{
    let saved = c.save()?;
    c.literal(b"(")?;
    or_restore!(c, saved, lines(c));
    let words = or_restore!(c, saved, array_words(c, word, lines));
    if !c.eat(b")") {
        c.restore(saved);
        return Err(LexErr::NoParse);
    }
    Ok(words)
}

// The words of an array, each with what stands after it.
#[tactic(auto, using(bash_cursor::proofs::Turns::turn_go, bash_cursor::proofs::Turns::turn_no, bash_cursor::proofs::Turns::turn_deep, bash_cursor::proofs::Turns::turn_out))]
fn array_words<
    W: Fn(&mut Cursor<'_>) -> Result<Word, LexErr>,
    L: Fn(&mut Cursor<'_>) -> Result<(), LexErr>,
>(c: &mut Cursor<'_>, word: &W, lines: &L) -> Result<List<Word>, LexErr>
    requires words { ReadsBelow word_at (c.old.room + 1) (W.pre word.now) (W.post word.now) }
    requires between { ReadsMarksBelow lines_at (c.old.room + 1) (L.pre lines.now) (L.post lines.now) }
    ensures { ReadsMarks (many (followed_by (word_at c.old.room) (lines_at c.old.room))) c.old result c.new }
{
    repeat_marks!(c, array_word(c, word, lines))
}

fn array_word<
    W: Fn(&mut Cursor<'_>) -> Result<Word, LexErr>,
    L: Fn(&mut Cursor<'_>) -> Result<(), LexErr>,
>(c: &mut Cursor<'_>, word: &W, lines: &L) -> Result<Word, LexErr>
    requires words { ReadsBelow word_at (c.old.room + 1) (W.pre word.now) (W.post word.now) }
    requires between { ReadsMarksBelow lines_at (c.old.room + 1) (L.pre lines.now) (L.post lines.now) }
    ensures { ReadsMarks (followed_by (word_at c.old.room) (lines_at c.old.room)) c.old result c.new }
{
    let start = c.here();
    let found = word(c)?;
    or_back!(c, start, lines(c));
    Ok(found)
}
