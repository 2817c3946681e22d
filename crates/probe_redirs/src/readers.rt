//! The readers that are handed over. Commands are not read: where some would stand, the readers answer that memory fails,
//! which their rules leave free.

ghost use Rattle.bash_cursor.specs.Reads.{Reads, ReadsMarks};
ghost use Rattle.bash_reading.specs.At.{body_at, items_at};
ghost use Rattle.bash_reading.specs.At.{lines_at, piece_at, quoted_at, subscript_at, word_at};

use bash_cursor::{Cursor, LexErr};
use eb_syntax::{Body, Items, Piece, QPiece, Sub, Word};

fn items(c: &mut Cursor<'_>) -> Result<Items, LexErr>
    ensures { Reads (items_at c.old.room) c.old result c.new }
{
    let _ = c;
    Err(LexErr::Memory)
}

fn body(c: &mut Cursor<'_>) -> Result<Body, LexErr>
    ensures { Reads (body_at c.old.room) c.old result c.new }
{
    let _ = c;
    Err(LexErr::Memory)
}

pub fn word(c: &mut Cursor<'_>) -> Result<Word, LexErr>
    ensures { Reads (word_at c.old.room) c.old result c.new }
{
    bash_words::word(c, &items, &body)
}

pub fn piece(c: &mut Cursor<'_>) -> Result<Piece, LexErr>
    ensures { Reads (piece_at c.old.room) c.old result c.new }
{
    bash_words::piece(c, &items, &body)
}

pub fn quoted(c: &mut Cursor<'_>) -> Result<QPiece, LexErr>
    ensures { Reads (quoted_at c.old.room) c.old result c.new }
{
    bash_words::quoted_piece(c, &items, &body)
}

pub fn subscript(c: &mut Cursor<'_>) -> Result<Sub, LexErr>
    ensures { Reads (subscript_at c.old.room) c.old result c.new }
{
    bash_words::subscript(c, &items, &body)
}

pub fn lines(c: &mut Cursor<'_>) -> Result<(), LexErr>
    ensures { ReadsMarks (lines_at c.old.room) c.old result c.new }
{
    bash_redirs::lines(c, &quoted)
}
