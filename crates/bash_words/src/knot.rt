//! The readers of what words are made of, tied together: each reads what stands in its nestings by the others. The lists
//! of commands are read by `items`, those of which the first is an item by `body`, wherever fewer nestings may be opened.

ghost use Rattle.std.specs.Prelude.{◌+◌, ◌<◌, Bool, true, false};
ghost use Rattle.bash_cursor.specs.Reads.{Reads, ReadsBelow};
ghost use Rattle.bash_lexer.specs.At.{arith_at, back_at, dollar_at, param_at};
ghost use Rattle.bash_reading.specs.At.{body_at, items_at, piece_at, subscript_at};

use bash_cursor::{Cursor, LexErr};
use bash_lexer::{arith_of, back_of, dollar_of, param_of, piece_of, subscript_of};
use eb_syntax::{ArithText, Back, Body, Dollar, Items, Param, Piece, Sub};

/// A piece of a word, with what is expanded in it read by `dollar` and `back`.
#[cycle(pieces)]
#[tactic(auto, using(bash_cursor::proofs::Below::narrower))]
pub fn piece_over<
    O: Fn(&mut Cursor<'_>) -> Result<Body, LexErr>,
    D: Fn(bool, &mut Cursor<'_>) -> Result<Dollar, LexErr>,
    B: Fn(&mut Cursor<'_>) -> Result<Back, LexErr>,
>(c: &mut Cursor<'_>, body: &O, dollar: &D, back: &B) -> Result<Piece, LexErr>
    requires bodies { ReadsBelow body_at c.old.room (O.pre body.now) (O.post body.now) }
    requires dollars { ReadsBelow (dollar_at false) (c.old.room + 1) (D.pre dollar.now false) (D.post dollar.now false) }
    requires quotes { ReadsBelow (dollar_at true) (c.old.room + 1) (D.pre dollar.now true) (D.post dollar.now true) }
    requires backs { ReadsBelow back_at (c.old.room + 1) (B.pre back.now) (B.post back.now) }
    ensures { Reads (piece_at c.old.room) c.old result c.new }
{
    let room = c.room();
    let inner = |c: &mut Cursor<'_>| -> Result<Piece, LexErr>
        requires below { c.old.room < room }
        requires bodies { ReadsBelow body_at c.old.room (O.pre body.now) (O.post body.now) }
        requires dollars { ReadsBelow (dollar_at false) (c.old.room + 1) (D.pre dollar.now false) (D.post dollar.now false) }
        requires quotes { ReadsBelow (dollar_at true) (c.old.room + 1) (D.pre dollar.now true) (D.post dollar.now true) }
        requires backs { ReadsBelow back_at (c.old.room + 1) (B.pre back.now) (B.post back.now) }
        ensures { Reads (piece_at c.old.room) c.old result c.new }
    {
        let _ = &room;
        piece_over(c, body, dollar, back)
    };
    piece_of(c, &inner, body, dollar, back)
}

/// A subscript, with what is expanded in it read by `dollar` and `back`.
#[cycle(subscripts)]
#[tactic(auto, using(bash_cursor::proofs::Below::narrower))]
pub fn subscript_over<
    O: Fn(&mut Cursor<'_>) -> Result<Body, LexErr>,
    D: Fn(bool, &mut Cursor<'_>) -> Result<Dollar, LexErr>,
    B: Fn(&mut Cursor<'_>) -> Result<Back, LexErr>,
>(c: &mut Cursor<'_>, body: &O, dollar: &D, back: &B) -> Result<Sub, LexErr>
    requires bodies { ReadsBelow body_at c.old.room (O.pre body.now) (O.post body.now) }
    requires dollars { ReadsBelow (dollar_at false) (c.old.room + 1) (D.pre dollar.now false) (D.post dollar.now false) }
    requires quotes { ReadsBelow (dollar_at true) (c.old.room + 1) (D.pre dollar.now true) (D.post dollar.now true) }
    requires backs { ReadsBelow back_at (c.old.room + 1) (B.pre back.now) (B.post back.now) }
    ensures { Reads (subscript_at c.old.room) c.old result c.new }
{
    let room = c.room();
    let inner = |c: &mut Cursor<'_>| -> Result<Sub, LexErr>
        requires below { c.old.room < room }
        requires bodies { ReadsBelow body_at c.old.room (O.pre body.now) (O.post body.now) }
        requires dollars { ReadsBelow (dollar_at false) (c.old.room + 1) (D.pre dollar.now false) (D.post dollar.now false) }
        requires quotes { ReadsBelow (dollar_at true) (c.old.room + 1) (D.pre dollar.now true) (D.post dollar.now true) }
        requires backs { ReadsBelow back_at (c.old.room + 1) (B.pre back.now) (B.post back.now) }
        ensures { Reads (subscript_at c.old.room) c.old result c.new }
    {
        let _ = &room;
        subscript_over(c, body, dollar, back)
    };
    let inner_piece = |c: &mut Cursor<'_>| -> Result<Piece, LexErr>
        requires bodies { ReadsBelow body_at c.old.room (O.pre body.now) (O.post body.now) }
        requires dollars { ReadsBelow (dollar_at false) (c.old.room + 1) (D.pre dollar.now false) (D.post dollar.now false) }
        requires quotes { ReadsBelow (dollar_at true) (c.old.room + 1) (D.pre dollar.now true) (D.post dollar.now true) }
        requires backs { ReadsBelow back_at (c.old.room + 1) (B.pre back.now) (B.post back.now) }
        ensures { Reads (piece_at c.old.room) c.old result c.new }
    { piece_over(c, body, dollar, back) };
    subscript_of(c, &inner, &inner_piece)
}

/// The text of an expression, with what is expanded in it read by `dollar` and `back`.
#[cycle(texts)]
#[tactic(auto, using(bash_cursor::proofs::Below::narrower))]
pub fn arith_over<
    D: Fn(bool, &mut Cursor<'_>) -> Result<Dollar, LexErr>,
    B: Fn(&mut Cursor<'_>) -> Result<Back, LexErr>,
>(quoted: bool, c: &mut Cursor<'_>, dollar: &D, back: &B) -> Result<ArithText, LexErr>
    requires dollars { ReadsBelow (dollar_at quoted) (c.old.room + 1) (D.pre dollar.now quoted) (D.post dollar.now quoted) }
    requires backs { ReadsBelow back_at (c.old.room + 1) (B.pre back.now) (B.post back.now) }
    ensures { Reads (arith_at quoted c.old.room) c.old result c.new }
{
    let room = c.room();
    let inner = |quoted: bool, c: &mut Cursor<'_>| -> Result<ArithText, LexErr>
        requires below { c.old.room < room }
        requires dollars { ReadsBelow (dollar_at quoted) (c.old.room + 1) (D.pre dollar.now quoted) (D.post dollar.now quoted) }
        requires backs { ReadsBelow back_at (c.old.room + 1) (B.pre back.now) (B.post back.now) }
        ensures { Reads (arith_at quoted c.old.room) c.old result c.new }
    {
        let _ = &room;
        arith_over(quoted, c, dollar, back)
    };
    arith_of(quoted, c, &inner, dollar, back)
}

// A parameter in braces, whose nesting is open.
#[tactic(auto, using(bash_cursor::proofs::Below::narrower))]
fn param_over<
    O: Fn(&mut Cursor<'_>) -> Result<Body, LexErr>,
    D: Fn(bool, &mut Cursor<'_>) -> Result<Dollar, LexErr>,
    B: Fn(&mut Cursor<'_>) -> Result<Back, LexErr>,
>(quoted: bool, c: &mut Cursor<'_>, body: &O, dollar: &D, back: &B) -> Result<Param, LexErr>
    requires bodies { ReadsBelow body_at c.old.room (O.pre body.now) (O.post body.now) }
    requires dollars { ReadsBelow (dollar_at quoted) (c.old.room + 1) (D.pre dollar.now quoted) (D.post dollar.now quoted) }
    requires unquoted { ReadsBelow (dollar_at false) (c.old.room + 1) (D.pre dollar.now false) (D.post dollar.now false) }
    requires quotes { ReadsBelow (dollar_at true) (c.old.room + 1) (D.pre dollar.now true) (D.post dollar.now true) }
    requires backs { ReadsBelow back_at (c.old.room + 1) (B.pre back.now) (B.post back.now) }
    ensures { Reads (param_at quoted c.old.room) c.old result c.new }
{
    let inner_subscript = |c: &mut Cursor<'_>| -> Result<Sub, LexErr>
        requires bodies { ReadsBelow body_at c.old.room (O.pre body.now) (O.post body.now) }
        requires dollars { ReadsBelow (dollar_at false) (c.old.room + 1) (D.pre dollar.now false) (D.post dollar.now false) }
        requires quotes { ReadsBelow (dollar_at true) (c.old.room + 1) (D.pre dollar.now true) (D.post dollar.now true) }
        requires backs { ReadsBelow back_at (c.old.room + 1) (B.pre back.now) (B.post back.now) }
        ensures { Reads (subscript_at c.old.room) c.old result c.new }
    { subscript_over(c, body, dollar, back) };
    let inner_piece = |c: &mut Cursor<'_>| -> Result<Piece, LexErr>
        requires bodies { ReadsBelow body_at c.old.room (O.pre body.now) (O.post body.now) }
        requires dollars { ReadsBelow (dollar_at false) (c.old.room + 1) (D.pre dollar.now false) (D.post dollar.now false) }
        requires quotes { ReadsBelow (dollar_at true) (c.old.room + 1) (D.pre dollar.now true) (D.post dollar.now true) }
        requires backs { ReadsBelow back_at (c.old.room + 1) (B.pre back.now) (B.post back.now) }
        ensures { Reads (piece_at c.old.room) c.old result c.new }
    { piece_over(c, body, dollar, back) };
    param_of(quoted, c, &inner_subscript, &inner_piece, dollar, back)
}

// What a dollar begins, with what is expanded inside it read by `dollar` and `back`.
#[tactic(auto, using(bash_cursor::proofs::Below::narrower))]
fn dollar_over<
    I: Fn(&mut Cursor<'_>) -> Result<Items, LexErr>,
    O: Fn(&mut Cursor<'_>) -> Result<Body, LexErr>,
    D: Fn(bool, &mut Cursor<'_>) -> Result<Dollar, LexErr>,
    B: Fn(&mut Cursor<'_>) -> Result<Back, LexErr>,
>(
    quoted: bool,
    c: &mut Cursor<'_>,
    items: &I,
    body: &O,
    dollar: &D,
    back: &B,
) -> Result<Dollar, LexErr>
    requires lists { ReadsBelow items_at c.old.room (I.pre items.now) (I.post items.now) }
    requires bodies { ReadsBelow body_at c.old.room (O.pre body.now) (O.post body.now) }
    requires dollars { ReadsBelow (dollar_at quoted) c.old.room (D.pre dollar.now quoted) (D.post dollar.now quoted) }
    requires unquoted { ReadsBelow (dollar_at false) c.old.room (D.pre dollar.now false) (D.post dollar.now false) }
    requires quotes { ReadsBelow (dollar_at true) c.old.room (D.pre dollar.now true) (D.post dollar.now true) }
    requires backs { ReadsBelow back_at c.old.room (B.pre back.now) (B.post back.now) }
    ensures { Reads (dollar_at quoted c.old.room) c.old result c.new }
{
    let inner_arith = |quoted: bool, c: &mut Cursor<'_>| -> Result<ArithText, LexErr>
        requires dollars { ReadsBelow (dollar_at quoted) (c.old.room + 1) (D.pre dollar.now quoted) (D.post dollar.now quoted) }
        requires backs { ReadsBelow back_at (c.old.room + 1) (B.pre back.now) (B.post back.now) }
        ensures { Reads (arith_at quoted c.old.room) c.old result c.new }
    { arith_over(quoted, c, dollar, back) };
    let inner_param = |quoted: bool, c: &mut Cursor<'_>| -> Result<Param, LexErr>
        requires bodies { ReadsBelow body_at c.old.room (O.pre body.now) (O.post body.now) }
        requires dollars { ReadsBelow (dollar_at quoted) (c.old.room + 1) (D.pre dollar.now quoted) (D.post dollar.now quoted) }
        requires unquoted { ReadsBelow (dollar_at false) (c.old.room + 1) (D.pre dollar.now false) (D.post dollar.now false) }
        requires quotes { ReadsBelow (dollar_at true) (c.old.room + 1) (D.pre dollar.now true) (D.post dollar.now true) }
        requires backs { ReadsBelow back_at (c.old.room + 1) (B.pre back.now) (B.post back.now) }
        ensures { Reads (param_at quoted c.old.room) c.old result c.new }
    { param_over(quoted, c, body, dollar, back) };
    dollar_of(quoted, c, items, &inner_arith, &inner_param)
}

/// What a dollar begins, `quoted` inside double quotes and here-documents.
#[cycle(dollars)]
#[tactic(auto, using(bash_cursor::proofs::Below::narrower))]
pub fn dollar<
    I: Fn(&mut Cursor<'_>) -> Result<Items, LexErr>,
    O: Fn(&mut Cursor<'_>) -> Result<Body, LexErr>,
>(quoted: bool, c: &mut Cursor<'_>, items: &I, body: &O) -> Result<Dollar, LexErr>
    requires lists { ReadsBelow items_at c.old.room (I.pre items.now) (I.post items.now) }
    requires bodies { ReadsBelow body_at c.old.room (O.pre body.now) (O.post body.now) }
    ensures { Reads (dollar_at quoted c.old.room) c.old result c.new }
{
    let room = c.room();
    let inner = |quoted: bool, c: &mut Cursor<'_>| -> Result<Dollar, LexErr>
        requires below { c.old.room < room }
        requires lists { ReadsBelow items_at c.old.room (I.pre items.now) (I.post items.now) }
        requires bodies { ReadsBelow body_at c.old.room (O.pre body.now) (O.post body.now) }
        ensures { Reads (dollar_at quoted c.old.room) c.old result c.new }
    {
        let _ = &room;
        dollar(quoted, c, items, body)
    };
    let inner_back = |c: &mut Cursor<'_>| -> Result<Back, LexErr>
        requires lists { ReadsBelow items_at c.old.room (I.pre items.now) (I.post items.now) }
        ensures { Reads (back_at c.old.room) c.old result c.new }
    { back_of(c, items) };
    dollar_over(quoted, c, items, body, &inner, &inner_back)
}
