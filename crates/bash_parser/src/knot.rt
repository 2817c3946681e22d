//! Lists of commands, each read by itself wherever fewer nestings may be opened.

ghost use Rattle.std.specs.Prelude.{◌<◌};
ghost use Rattle.bash_cursor.specs.Reads.{Reads};
ghost use Rattle.bash_reading.specs.At.{body_at, items_at};

use crate::commands::{body_over, items_over};
use bash_cursor::{Cursor, LexErr};
use eb_syntax::{Body, Items};

/// A list of commands, which may be empty.
///
/// # Errors
/// `NoParse` exactly where one of its here-documents still waits at its end, `TooDeep` exactly where reading it opens more
/// nestings than may be open, `Memory` where there is no room for it.
#[cycle(lists)]
pub fn items(c: &mut Cursor<'_>) -> Result<Items, LexErr>
    ensures { Reads (items_at c.old.room) c.old result c.new }
{
    let room = c.room();
    let inner_items = |c: &mut Cursor<'_>| -> Result<Items, LexErr>
        requires { c.old.room < room }
        ensures { Reads (items_at c.old.room) c.old result c.new }
    {
        let _ = &room;
        items(c)
    };
    let inner_body = |c: &mut Cursor<'_>| -> Result<Body, LexErr>
        requires { c.old.room < room }
        ensures { Reads (body_at c.old.room) c.old result c.new }
    {
        let _ = &room;
        body(c)
    };
    items_over(c, &inner_items, &inner_body)
}

/// A list of commands of which one has to stand there.
///
/// # Errors
/// `NoParse` exactly where none stands there or one of its here-documents still waits at its end, `TooDeep` exactly where
/// reading it opens more nestings than may be open, `Memory` where there is no room for it.
#[cycle(lists)]
pub fn body(c: &mut Cursor<'_>) -> Result<Body, LexErr>
    ensures { Reads (body_at c.old.room) c.old result c.new }
{
    let room = c.room();
    let inner_items = |c: &mut Cursor<'_>| -> Result<Items, LexErr>
        requires { c.old.room < room }
        ensures { Reads (items_at c.old.room) c.old result c.new }
    {
        let _ = &room;
        items(c)
    };
    let inner_body = |c: &mut Cursor<'_>| -> Result<Body, LexErr>
        requires { c.old.room < room }
        ensures { Reads (body_at c.old.room) c.old result c.new }
    {
        let _ = &room;
        body(c)
    };
    body_over(c, &inner_items, &inner_body)
}
