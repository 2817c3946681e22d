//! Words (Bash Reference Manual, "Definitions": word).

ghost use Rattle.std.specs.Prelude.{◌≡◌, ◌+◌, ◌∷◌, MatchResult};
ghost use Rattle.bash_cursor.specs.Reads.{Reads, ReadsBelow};
ghost use Rattle.bash_reading.specs.At.{piece_at};
ghost use Rattle.eb_grammar.specs.Grammar.{inside};
ghost use Rattle.eb_grammar.specs.Peg.{many};
ghost use Rattle.eb_grammar.specs.Words as words;
ghost use Rattle.eb_syntax.specs.Tree.{word_of_pieces};

use bash_cursor::{Cursor, LexErr, or_back};
use bash_reading::{list_with, put};
use eb_syntax::{Piece, Word};
use sqlite_items::Items as List;
use std::alloc::Global;

// The word of a piece and those after it.
fn word_with(alloc: Global, first: Piece, others: List<Piece>) -> Result<Word, LexErr>
    ensures { MatchResult result (λ word. word ≡ word_of_pieces (first ∷ others)) (λ e. e ≡ LexErr.Memory) }
{
    Ok(Word::of(alloc, list_with(alloc, first, others)?)?)
}

#[tactic(auto, using(bash_cursor::proofs::Turns::turn_go, bash_cursor::proofs::Turns::turn_no, bash_cursor::proofs::Turns::turn_deep, bash_cursor::proofs::Turns::turn_out))]
fn more_pieces<P: Fn(&mut Cursor<'_>) -> Result<Piece, LexErr>>(
    c: &mut Cursor<'_>,
    piece: &P,
) -> Result<List<Piece>, LexErr>
    requires { ReadsBelow piece_at (c.old.room + 1) (P.pre piece.now) (P.post piece.now) }
    ensures { Reads (many (piece_at c.old.room)) c.old result c.new }
{
    repeat!(c, piece(c))
}

/// A word, with its pieces read by `piece`.
#[tactic(auto, unfolding(eb_grammar::specs::Words::word, eb_grammar::specs::Peg::word_of))]
pub fn word_of<P: Fn(&mut Cursor<'_>) -> Result<Piece, LexErr>>(
    c: &mut Cursor<'_>,
    piece: &P,
) -> Result<Word, LexErr>
    requires { ReadsBelow piece_at (c.old.room + 1) (P.pre piece.now) (P.post piece.now) }
    ensures { Reads (words.word (inside c.old.room)) c.old result c.new }
{
    if c.sees(b"#") {
        return Err(LexErr::NoParse);
    }
    let start = c.here();
    let first = piece(c)?;
    let others = or_back!(c, start, more_pieces(c, piece));
    Ok(or_back!(c, start, word_with(c.alloc(), first, others)))
}
