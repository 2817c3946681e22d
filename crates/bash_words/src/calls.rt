//! Words and the texts of arithmetic expressions, with the lists of commands in them read by `items` and `body`.

ghost use Rattle.std.specs.Prelude.{◌+◌, ◌<◌, Bool, false};
ghost use Rattle.bash_cursor.specs.Reads.{Reads, ReadsBelow};
ghost use Rattle.bash_lexer.specs.At.{arith_at, back_at, dollar_at};
ghost use Rattle.bash_reading.specs.At.{arith_part_at, body_at, items_at, piece_at, quoted_at, subscript_at};
ghost use Rattle.eb_grammar.specs.Grammar.{inside};
ghost use Rattle.eb_grammar.specs.Words as words;

use crate::knot::{arith_over, dollar, piece_over, subscript_over};
use bash_cursor::{Cursor, LexErr};
use bash_lexer::{arith_part_of, back_of, quoted_piece_of, word_of};
use eb_syntax::{ArithText, Back, Body, Dollar, Items, Piece, QPiece, Sub, Word};

/// A piece of a word.
///
/// # Errors
/// `NoParse` exactly where none stands at the place, `TooDeep` exactly where reading one would open more nestings than may
/// be open, `Memory` where there is no room for it.
#[tactic(auto, using(bash_cursor::proofs::Below::narrower))]
pub fn piece<
    I: Fn(&mut Cursor<'_>) -> Result<Items, LexErr>,
    O: Fn(&mut Cursor<'_>) -> Result<Body, LexErr>,
>(c: &mut Cursor<'_>, items: &I, body: &O) -> Result<Piece, LexErr>
    requires lists { ReadsBelow items_at c.old.room (I.pre items.now) (I.post items.now) }
    requires bodies { ReadsBelow body_at c.old.room (O.pre body.now) (O.post body.now) }
    ensures { Reads (piece_at c.old.room) c.old result c.new }
{
    let dollar_here = |quoted: bool, c: &mut Cursor<'_>| -> Result<Dollar, LexErr>
        requires lists { ReadsBelow items_at c.old.room (I.pre items.now) (I.post items.now) }
        requires bodies { ReadsBelow body_at c.old.room (O.pre body.now) (O.post body.now) }
        ensures { Reads (dollar_at quoted c.old.room) c.old result c.new }
    { dollar(quoted, c, items, body) };
    let back_here = |c: &mut Cursor<'_>| -> Result<Back, LexErr>
        requires lists { ReadsBelow items_at c.old.room (I.pre items.now) (I.post items.now) }
        ensures { Reads (back_at c.old.room) c.old result c.new }
    { back_of(c, items) };
    piece_over(c, body, &dollar_here, &back_here)
}

/// A subscript (Bash Reference Manual, "Arrays").
///
/// # Errors
/// `NoParse` exactly where none stands at the place, `TooDeep` exactly where reading one would open more nestings than may
/// be open, `Memory` where there is no room for it.
#[tactic(auto, using(bash_cursor::proofs::Below::narrower))]
pub fn subscript<
    I: Fn(&mut Cursor<'_>) -> Result<Items, LexErr>,
    O: Fn(&mut Cursor<'_>) -> Result<Body, LexErr>,
>(c: &mut Cursor<'_>, items: &I, body: &O) -> Result<Sub, LexErr>
    requires lists { ReadsBelow items_at c.old.room (I.pre items.now) (I.post items.now) }
    requires bodies { ReadsBelow body_at c.old.room (O.pre body.now) (O.post body.now) }
    ensures { Reads (subscript_at c.old.room) c.old result c.new }
{
    let dollar_here = |quoted: bool, c: &mut Cursor<'_>| -> Result<Dollar, LexErr>
        requires lists { ReadsBelow items_at c.old.room (I.pre items.now) (I.post items.now) }
        requires bodies { ReadsBelow body_at c.old.room (O.pre body.now) (O.post body.now) }
        ensures { Reads (dollar_at quoted c.old.room) c.old result c.new }
    { dollar(quoted, c, items, body) };
    let back_here = |c: &mut Cursor<'_>| -> Result<Back, LexErr>
        requires lists { ReadsBelow items_at c.old.room (I.pre items.now) (I.post items.now) }
        ensures { Reads (back_at c.old.room) c.old result c.new }
    { back_of(c, items) };
    subscript_over(c, body, &dollar_here, &back_here)
}

/// A piece inside double quotes or a here-document (Bash Reference Manual, "Double Quotes").
///
/// # Errors
/// `NoParse` exactly where none stands at the place, `TooDeep` exactly where reading one would open more nestings than may
/// be open, `Memory` where there is no room for it.
#[tactic(auto, using(bash_cursor::proofs::Below::narrower))]
pub fn quoted_piece<
    I: Fn(&mut Cursor<'_>) -> Result<Items, LexErr>,
    O: Fn(&mut Cursor<'_>) -> Result<Body, LexErr>,
>(c: &mut Cursor<'_>, items: &I, body: &O) -> Result<QPiece, LexErr>
    requires lists { ReadsBelow items_at c.old.room (I.pre items.now) (I.post items.now) }
    requires bodies { ReadsBelow body_at c.old.room (O.pre body.now) (O.post body.now) }
    ensures { Reads (quoted_at c.old.room) c.old result c.new }
{
    let dollar_here = |quoted: bool, c: &mut Cursor<'_>| -> Result<Dollar, LexErr>
        requires lists { ReadsBelow items_at c.old.room (I.pre items.now) (I.post items.now) }
        requires bodies { ReadsBelow body_at c.old.room (O.pre body.now) (O.post body.now) }
        ensures { Reads (dollar_at quoted c.old.room) c.old result c.new }
    { dollar(quoted, c, items, body) };
    let back_here = |c: &mut Cursor<'_>| -> Result<Back, LexErr>
        requires lists { ReadsBelow items_at c.old.room (I.pre items.now) (I.post items.now) }
        ensures { Reads (back_at c.old.room) c.old result c.new }
    { back_of(c, items) };
    quoted_piece_of(c, &dollar_here, &back_here)
}

/// The text of an expression outside double quotes (Bash Reference Manual, "Shell Arithmetic").
///
/// # Errors
/// `NoParse` never, since the text may be empty, `TooDeep` exactly where reading one would open more nestings than may
/// be open, `Memory` where there is no room for it.
#[tactic(auto, using(bash_cursor::proofs::Below::narrower))]
pub fn arith<
    I: Fn(&mut Cursor<'_>) -> Result<Items, LexErr>,
    O: Fn(&mut Cursor<'_>) -> Result<Body, LexErr>,
>(c: &mut Cursor<'_>, items: &I, body: &O) -> Result<ArithText, LexErr>
    requires lists { ReadsBelow items_at c.old.room (I.pre items.now) (I.post items.now) }
    requires bodies { ReadsBelow body_at c.old.room (O.pre body.now) (O.post body.now) }
    ensures { Reads (arith_at false c.old.room) c.old result c.new }
{
    let dollar_here = |quoted: bool, c: &mut Cursor<'_>| -> Result<Dollar, LexErr>
        requires lists { ReadsBelow items_at c.old.room (I.pre items.now) (I.post items.now) }
        requires bodies { ReadsBelow body_at c.old.room (O.pre body.now) (O.post body.now) }
        ensures { Reads (dollar_at quoted c.old.room) c.old result c.new }
    { dollar(quoted, c, items, body) };
    let back_here = |c: &mut Cursor<'_>| -> Result<Back, LexErr>
        requires lists { ReadsBelow items_at c.old.room (I.pre items.now) (I.post items.now) }
        ensures { Reads (back_at c.old.room) c.old result c.new }
    { back_of(c, items) };
    arith_over(false, c, &dollar_here, &back_here)
}

/// The text of one of the expressions of `for ((..;..;..))` (Bash Reference Manual, "Looping Constructs").
///
/// # Errors
/// `NoParse` never, since the text may be empty, `TooDeep` exactly where reading one would open more nestings than may
/// be open, `Memory` where there is no room for it.
#[tactic(auto, using(bash_cursor::proofs::Below::narrower))]
pub fn arith_part<
    I: Fn(&mut Cursor<'_>) -> Result<Items, LexErr>,
    O: Fn(&mut Cursor<'_>) -> Result<Body, LexErr>,
>(c: &mut Cursor<'_>, items: &I, body: &O) -> Result<ArithText, LexErr>
    requires lists { ReadsBelow items_at c.old.room (I.pre items.now) (I.post items.now) }
    requires bodies { ReadsBelow body_at c.old.room (O.pre body.now) (O.post body.now) }
    ensures { Reads (arith_part_at c.old.room) c.old result c.new }
{
    let dollar_here = |quoted: bool, c: &mut Cursor<'_>| -> Result<Dollar, LexErr>
        requires lists { ReadsBelow items_at c.old.room (I.pre items.now) (I.post items.now) }
        requires bodies { ReadsBelow body_at c.old.room (O.pre body.now) (O.post body.now) }
        ensures { Reads (dollar_at quoted c.old.room) c.old result c.new }
    { dollar(quoted, c, items, body) };
    let back_here = |c: &mut Cursor<'_>| -> Result<Back, LexErr>
        requires lists { ReadsBelow items_at c.old.room (I.pre items.now) (I.post items.now) }
        ensures { Reads (back_at c.old.room) c.old result c.new }
    { back_of(c, items) };
    arith_part_over(c, &dollar_here, &back_here)
}

/// A word (Bash Reference Manual, "Definitions": word).
///
/// # Errors
/// `NoParse` exactly where none stands at the place, `TooDeep` exactly where reading one would open more nestings than may
/// be open, `Memory` where there is no room for it.
#[tactic(auto, using(bash_cursor::proofs::Below::narrower))]
pub fn word<
    I: Fn(&mut Cursor<'_>) -> Result<Items, LexErr>,
    O: Fn(&mut Cursor<'_>) -> Result<Body, LexErr>,
>(c: &mut Cursor<'_>, items: &I, body: &O) -> Result<Word, LexErr>
    requires lists { ReadsBelow items_at c.old.room (I.pre items.now) (I.post items.now) }
    requires bodies { ReadsBelow body_at c.old.room (O.pre body.now) (O.post body.now) }
    ensures { Reads (words.word (inside c.old.room)) c.old result c.new }
{
    let inner = |c: &mut Cursor<'_>| -> Result<Piece, LexErr>
        requires lists { ReadsBelow items_at c.old.room (I.pre items.now) (I.post items.now) }
        requires bodies { ReadsBelow body_at c.old.room (O.pre body.now) (O.post body.now) }
        ensures { Reads (piece_at c.old.room) c.old result c.new }
    { piece(c, items, body) };
    word_of(c, &inner)
}

// The text of one of the expressions of `for`, with what is expanded in it read by `dollar` and `back`.
#[tactic(auto, using(bash_cursor::proofs::Below::narrower))]
fn arith_part_over<
    D: Fn(bool, &mut Cursor<'_>) -> Result<Dollar, LexErr>,
    B: Fn(&mut Cursor<'_>) -> Result<Back, LexErr>,
>(c: &mut Cursor<'_>, dollar: &D, back: &B) -> Result<ArithText, LexErr>
    requires dollars { ReadsBelow (dollar_at false) (c.old.room + 1) (D.pre dollar.now false) (D.post dollar.now false) }
    requires backs { ReadsBelow back_at (c.old.room + 1) (B.pre back.now) (B.post back.now) }
    ensures { Reads (arith_part_at c.old.room) c.old result c.new }
{
    let inner = |quoted: bool, c: &mut Cursor<'_>| -> Result<ArithText, LexErr>
        requires dollars { ReadsBelow (dollar_at quoted) (c.old.room + 1) (D.pre dollar.now quoted) (D.post dollar.now quoted) }
        requires backs { ReadsBelow back_at (c.old.room + 1) (B.pre back.now) (B.post back.now) }
        ensures { Reads (arith_at quoted c.old.room) c.old result c.new }
    { arith_over(quoted, c, dollar, back) };
    arith_part_of(c, &inner, dollar, back)
}
