//! What commands are made of, with the lists of commands in it read by `items` and `body`.

ghost use Rattle.std.specs.Prelude.{◌+◌};
ghost use Rattle.bash_conditions.specs.Parts.{or_lines};
ghost use Rattle.bash_cursor.specs.Reads.{Reads, ReadsBelow, ReadsMarks};
ghost use Rattle.bash_reading.specs.At.{assign_at, body_at, items_at, lines_at, newline_at, piece_at, quoted_at, redir_at, regex_at, subscript_at, word_at};

use bash_cursor::{Cursor, LexErr};
use eb_syntax::{Assign, Body, Items, Or, Piece, QPiece, Redir, Regex, Sub, Word};

/// A newline, with the bodies of the here-documents that wait.
///
/// # Errors
/// `NoParse` exactly where none stands at the place, `TooDeep` exactly where reading it opens more nestings than may be
/// open, `Memory` where there is no room for it. The cursor, with its here-documents, is as it was then.
#[tactic(auto, using(bash_cursor::proofs::Below::narrower))]
pub fn newline<
    I: Fn(&mut Cursor<'_>) -> Result<Items, LexErr>,
    O: Fn(&mut Cursor<'_>) -> Result<Body, LexErr>,
>(c: &mut Cursor<'_>, items: &I, body: &O) -> Result<(), LexErr>
    requires lists { ReadsBelow items_at c.old.room (I.pre items.now) (I.post items.now) }
    requires bodies { ReadsBelow body_at c.old.room (O.pre body.now) (O.post body.now) }
    ensures { ReadsMarks (newline_at c.old.room) c.old result c.new }
{
    let quoted = |c: &mut Cursor<'_>| -> Result<QPiece, LexErr>
        requires lists { ReadsBelow items_at c.old.room (I.pre items.now) (I.post items.now) }
        requires bodies { ReadsBelow body_at c.old.room (O.pre body.now) (O.post body.now) }
        ensures { Reads (quoted_at c.old.room) c.old result c.new }
    { bash_words::quoted_piece(c, items, body) };
    bash_redirs::newline(c, &quoted)
}

/// The blanks, comments and newlines that stand at the place.
///
/// # Errors
/// `TooDeep` exactly where reading the body of a here-document opens more nestings than may be open, `Memory` where there
/// is no room for it. The cursor, with its here-documents, is as it was then.
#[tactic(auto, using(bash_cursor::proofs::Below::narrower))]
pub fn lines<
    I: Fn(&mut Cursor<'_>) -> Result<Items, LexErr>,
    O: Fn(&mut Cursor<'_>) -> Result<Body, LexErr>,
>(c: &mut Cursor<'_>, items: &I, body: &O) -> Result<(), LexErr>
    requires lists { ReadsBelow items_at c.old.room (I.pre items.now) (I.post items.now) }
    requires bodies { ReadsBelow body_at c.old.room (O.pre body.now) (O.post body.now) }
    ensures { ReadsMarks (lines_at c.old.room) c.old result c.new }
{
    let quoted = |c: &mut Cursor<'_>| -> Result<QPiece, LexErr>
        requires lists { ReadsBelow items_at c.old.room (I.pre items.now) (I.post items.now) }
        requires bodies { ReadsBelow body_at c.old.room (O.pre body.now) (O.post body.now) }
        ensures { Reads (quoted_at c.old.room) c.old result c.new }
    { bash_words::quoted_piece(c, items, body) };
    bash_redirs::lines(c, &quoted)
}

/// A redirection.
///
/// # Errors
/// `NoParse` exactly where none stands at the place, `TooDeep` exactly where reading it opens more nestings than may be
/// open, `Memory` where there is no room for it. The cursor, with its here-documents, is as it was then.
#[tactic(auto, using(bash_cursor::proofs::Below::narrower))]
pub fn redir<
    I: Fn(&mut Cursor<'_>) -> Result<Items, LexErr>,
    O: Fn(&mut Cursor<'_>) -> Result<Body, LexErr>,
>(c: &mut Cursor<'_>, items: &I, body: &O) -> Result<Redir, LexErr>
    requires lists { ReadsBelow items_at c.old.room (I.pre items.now) (I.post items.now) }
    requires bodies { ReadsBelow body_at c.old.room (O.pre body.now) (O.post body.now) }
    ensures { ReadsMarks (redir_at c.old.room) c.old result c.new }
{
    let word = |c: &mut Cursor<'_>| -> Result<Word, LexErr>
        requires lists { ReadsBelow items_at c.old.room (I.pre items.now) (I.post items.now) }
        requires bodies { ReadsBelow body_at c.old.room (O.pre body.now) (O.post body.now) }
        ensures { Reads (word_at c.old.room) c.old result c.new }
    { bash_words::word(c, items, body) };
    let piece = |c: &mut Cursor<'_>| -> Result<Piece, LexErr>
        requires lists { ReadsBelow items_at c.old.room (I.pre items.now) (I.post items.now) }
        requires bodies { ReadsBelow body_at c.old.room (O.pre body.now) (O.post body.now) }
        ensures { Reads (piece_at c.old.room) c.old result c.new }
    { bash_words::piece(c, items, body) };
    let quoted = |c: &mut Cursor<'_>| -> Result<QPiece, LexErr>
        requires lists { ReadsBelow items_at c.old.room (I.pre items.now) (I.post items.now) }
        requires bodies { ReadsBelow body_at c.old.room (O.pre body.now) (O.post body.now) }
        ensures { Reads (quoted_at c.old.room) c.old result c.new }
    { bash_words::quoted_piece(c, items, body) };
    bash_redirs::redir(c, &word, &piece, &quoted)
}

/// An assignment.
///
/// # Errors
/// `NoParse` exactly where none stands at the place, `TooDeep` exactly where reading it opens more nestings than may be
/// open, `Memory` where there is no room for it. The cursor, with its here-documents, is as it was then.
#[tactic(auto, using(bash_cursor::proofs::Below::narrower))]
pub fn assign<
    I: Fn(&mut Cursor<'_>) -> Result<Items, LexErr>,
    O: Fn(&mut Cursor<'_>) -> Result<Body, LexErr>,
>(c: &mut Cursor<'_>, items: &I, body: &O) -> Result<Assign, LexErr>
    requires lists { ReadsBelow items_at c.old.room (I.pre items.now) (I.post items.now) }
    requires bodies { ReadsBelow body_at c.old.room (O.pre body.now) (O.post body.now) }
    ensures { ReadsMarks (assign_at c.old.room) c.old result c.new }
{
    let piece = |c: &mut Cursor<'_>| -> Result<Piece, LexErr>
        requires lists { ReadsBelow items_at c.old.room (I.pre items.now) (I.post items.now) }
        requires bodies { ReadsBelow body_at c.old.room (O.pre body.now) (O.post body.now) }
        ensures { Reads (piece_at c.old.room) c.old result c.new }
    { bash_words::piece(c, items, body) };
    let subscript = |c: &mut Cursor<'_>| -> Result<Sub, LexErr>
        requires lists { ReadsBelow items_at c.old.room (I.pre items.now) (I.post items.now) }
        requires bodies { ReadsBelow body_at c.old.room (O.pre body.now) (O.post body.now) }
        ensures { Reads (subscript_at c.old.room) c.old result c.new }
    { bash_words::subscript(c, items, body) };
    let word = |c: &mut Cursor<'_>| -> Result<Word, LexErr>
        requires lists { ReadsBelow items_at c.old.room (I.pre items.now) (I.post items.now) }
        requires bodies { ReadsBelow body_at c.old.room (O.pre body.now) (O.post body.now) }
        ensures { Reads (word_at c.old.room) c.old result c.new }
    { bash_words::word(c, items, body) };
    let lines = |c: &mut Cursor<'_>| -> Result<(), LexErr>
        requires lists { ReadsBelow items_at c.old.room (I.pre items.now) (I.post items.now) }
        requires bodies { ReadsBelow body_at c.old.room (O.pre body.now) (O.post body.now) }
        ensures { ReadsMarks (lines_at c.old.room) c.old result c.new }
    { lines(c, items, body) };
    bash_redirs::assign(c, &piece, &subscript, &word, &lines)
}

/// What stands between `[[` and `]]`, with the lines after it but not those before it.
///
/// # Errors
/// `NoParse` exactly where none stands at the place, `TooDeep` exactly where reading it opens more nestings than may be
/// open, `Memory` where there is no room for it. The cursor, with its here-documents, is as it was then.
#[tactic(auto, using(bash_cursor::proofs::Below::narrower))]
pub fn condition<
    I: Fn(&mut Cursor<'_>) -> Result<Items, LexErr>,
    O: Fn(&mut Cursor<'_>) -> Result<Body, LexErr>,
>(c: &mut Cursor<'_>, items: &I, body: &O) -> Result<Or, LexErr>
    requires lists { ReadsBelow items_at c.old.room (I.pre items.now) (I.post items.now) }
    requires bodies { ReadsBelow body_at c.old.room (O.pre body.now) (O.post body.now) }
    ensures { ReadsMarks (or_lines c.old.room) c.old result c.new }
{
    let word = |c: &mut Cursor<'_>| -> Result<Word, LexErr>
        requires lists { ReadsBelow items_at c.old.room (I.pre items.now) (I.post items.now) }
        requires bodies { ReadsBelow body_at c.old.room (O.pre body.now) (O.post body.now) }
        ensures { Reads (word_at c.old.room) c.old result c.new }
    { bash_words::word(c, items, body) };
    let regex = |c: &mut Cursor<'_>| -> Result<Regex, LexErr>
        requires lists { ReadsBelow items_at c.old.room (I.pre items.now) (I.post items.now) }
        requires bodies { ReadsBelow body_at c.old.room (O.pre body.now) (O.post body.now) }
        ensures { Reads (regex_at c.old.room) c.old result c.new }
    { regex(c, items, body) };
    let lines = |c: &mut Cursor<'_>| -> Result<(), LexErr>
        requires lists { ReadsBelow items_at c.old.room (I.pre items.now) (I.post items.now) }
        requires bodies { ReadsBelow body_at c.old.room (O.pre body.now) (O.post body.now) }
        ensures { ReadsMarks (lines_at c.old.room) c.old result c.new }
    { lines(c, items, body) };
    bash_conditions::condition(c, &word, &regex, &lines)
}

// The regular expression after `=~`.
#[tactic(auto, using(bash_cursor::proofs::Below::narrower))]
fn regex<
    I: Fn(&mut Cursor<'_>) -> Result<Items, LexErr>,
    O: Fn(&mut Cursor<'_>) -> Result<Body, LexErr>,
>(c: &mut Cursor<'_>, items: &I, body: &O) -> Result<Regex, LexErr>
    requires lists { ReadsBelow items_at c.old.room (I.pre items.now) (I.post items.now) }
    requires bodies { ReadsBelow body_at c.old.room (O.pre body.now) (O.post body.now) }
    ensures { Reads (regex_at c.old.room) c.old result c.new }
{
    let piece = |c: &mut Cursor<'_>| -> Result<Piece, LexErr>
        requires lists { ReadsBelow items_at c.old.room (I.pre items.now) (I.post items.now) }
        requires bodies { ReadsBelow body_at c.old.room (O.pre body.now) (O.post body.now) }
        ensures { Reads (piece_at c.old.room) c.old result c.new }
    { bash_words::piece(c, items, body) };
    bash_redirs::regex(c, &piece)
}
