//! Commands and lists of commands, with the lists of commands inside them read by `items` and `body`.

ghost use Rattle.std.specs.Prelude.{◌+◌, false};
ghost use Rattle.bash_compounds.specs.Forms.{choices_at, groups_at, if_at, loops_at, or_lines_at};
ghost use Rattle.bash_cursor.specs.Reads.{Reads, ReadsBelow, ReadsMarks};
ghost use Rattle.bash_reading.specs.At.{arith_part_at, arith_text_at, assign_at, body_at, command_at, compound_at, items_at, lines_at, newline_at, redir_at, word_at};
ghost use Rattle.eb_grammar.specs.Commands as commands;
ghost use Rattle.eb_grammar.specs.Grammar.{inside};
ghost use Rattle.eb_grammar.specs.Peg.{gather};

use crate::parts::{assign, condition, lines, newline, redir};
use bash_compounds::{choices_of, compound_of, groups_of, if_of, loops_of};
use bash_cursor::{Cursor, LexErr};
use bash_drafts::{Draft, ItemDraft};
use eb_syntax::{ArithText, Assign, Body, Compound, Items, Or, Redir, Word};
use sqlite_items::Items as List;

// `{ .. }`, `(( .. ))` or `( .. )`, whose nesting is open.
#[tactic(auto, using(bash_cursor::proofs::Below::narrower))]
fn group<
    I: Fn(&mut Cursor<'_>) -> Result<Items, LexErr>,
    O: Fn(&mut Cursor<'_>) -> Result<Body, LexErr>,
>(c: &mut Cursor<'_>, items: &I, body: &O) -> Result<Compound, LexErr>
    requires lists { ReadsBelow items_at (c.old.room + 1) (I.pre items.now) (I.post items.now) }
    requires bodies { ReadsBelow body_at (c.old.room + 1) (O.pre body.now) (O.post body.now) }
    ensures { Reads (groups_at c.old.room) c.old result c.new }
{
    let arith = |c: &mut Cursor<'_>| -> Result<ArithText, LexErr>
        requires lists { ReadsBelow items_at c.old.room (I.pre items.now) (I.post items.now) }
        requires bodies { ReadsBelow body_at c.old.room (O.pre body.now) (O.post body.now) }
        ensures { Reads (arith_text_at c.old.room) c.old result c.new }
    { bash_words::arith(c, items, body) };
    groups_of(c, body, &arith)
}

// `if`, whose nesting is open. Its parts are all read by `body`; it takes `items` too, as the other three forms do.
fn conditional<
    I: Fn(&mut Cursor<'_>) -> Result<Items, LexErr>,
    O: Fn(&mut Cursor<'_>) -> Result<Body, LexErr>,
>(c: &mut Cursor<'_>, _items: &I, body: &O) -> Result<Compound, LexErr>
    requires { ReadsBelow body_at (c.old.room + 1) (O.pre body.now) (O.post body.now) }
    ensures { Reads (if_at c.old.room) c.old result c.new }
{
    if_of(c, body)
}

// A loop or `select`, whose nesting is open.
#[tactic(auto, using(bash_cursor::proofs::Below::narrower))]
fn looped<
    I: Fn(&mut Cursor<'_>) -> Result<Items, LexErr>,
    O: Fn(&mut Cursor<'_>) -> Result<Body, LexErr>,
>(c: &mut Cursor<'_>, items: &I, body: &O) -> Result<Compound, LexErr>
    requires lists { ReadsBelow items_at (c.old.room + 1) (I.pre items.now) (I.post items.now) }
    requires bodies { ReadsBelow body_at (c.old.room + 1) (O.pre body.now) (O.post body.now) }
    ensures { ReadsMarks (loops_at c.old.room) c.old result c.new }
{
    let lines = |c: &mut Cursor<'_>| -> Result<(), LexErr>
        requires lists { ReadsBelow items_at c.old.room (I.pre items.now) (I.post items.now) }
        requires bodies { ReadsBelow body_at c.old.room (O.pre body.now) (O.post body.now) }
        ensures { ReadsMarks (lines_at c.old.room) c.old result c.new }
    { lines(c, items, body) };
    let word = |c: &mut Cursor<'_>| -> Result<Word, LexErr>
        requires lists { ReadsBelow items_at c.old.room (I.pre items.now) (I.post items.now) }
        requires bodies { ReadsBelow body_at c.old.room (O.pre body.now) (O.post body.now) }
        ensures { Reads (word_at c.old.room) c.old result c.new }
    { bash_words::word(c, items, body) };
    let arith_part = |c: &mut Cursor<'_>| -> Result<ArithText, LexErr>
        requires lists { ReadsBelow items_at c.old.room (I.pre items.now) (I.post items.now) }
        requires bodies { ReadsBelow body_at c.old.room (O.pre body.now) (O.post body.now) }
        ensures { Reads (arith_part_at c.old.room) c.old result c.new }
    { bash_words::arith_part(c, items, body) };
    loops_of(c, body, &lines, &word, &arith_part)
}

// `case` or `[[`, whose nesting is open.
#[tactic(auto, using(bash_cursor::proofs::Below::narrower), unfolding(bash_conditions::specs::Parts::or_lines, bash_compounds::specs::Forms::or_lines_at))]
fn choice<
    I: Fn(&mut Cursor<'_>) -> Result<Items, LexErr>,
    O: Fn(&mut Cursor<'_>) -> Result<Body, LexErr>,
>(c: &mut Cursor<'_>, items: &I, body: &O) -> Result<Compound, LexErr>
    requires lists { ReadsBelow items_at (c.old.room + 1) (I.pre items.now) (I.post items.now) }
    requires bodies { ReadsBelow body_at (c.old.room + 1) (O.pre body.now) (O.post body.now) }
    ensures { ReadsMarks (choices_at c.old.room) c.old result c.new }
{
    let lines = |c: &mut Cursor<'_>| -> Result<(), LexErr>
        requires lists { ReadsBelow items_at c.old.room (I.pre items.now) (I.post items.now) }
        requires bodies { ReadsBelow body_at c.old.room (O.pre body.now) (O.post body.now) }
        ensures { ReadsMarks (lines_at c.old.room) c.old result c.new }
    { lines(c, items, body) };
    let word = |c: &mut Cursor<'_>| -> Result<Word, LexErr>
        requires lists { ReadsBelow items_at c.old.room (I.pre items.now) (I.post items.now) }
        requires bodies { ReadsBelow body_at c.old.room (O.pre body.now) (O.post body.now) }
        ensures { Reads (word_at c.old.room) c.old result c.new }
    { bash_words::word(c, items, body) };
    let condition = |c: &mut Cursor<'_>| -> Result<Or, LexErr>
        requires lists { ReadsBelow items_at c.old.room (I.pre items.now) (I.post items.now) }
        requires bodies { ReadsBelow body_at c.old.room (O.pre body.now) (O.post body.now) }
        ensures { ReadsMarks (or_lines_at c.old.room) c.old result c.new }
    { condition(c, items, body) };
    choices_of(c, items, &lines, &word, &condition)
}

// A compound command.
#[tactic(auto, using(bash_cursor::proofs::Below::narrower))]
fn compound<
    I: Fn(&mut Cursor<'_>) -> Result<Items, LexErr>,
    O: Fn(&mut Cursor<'_>) -> Result<Body, LexErr>,
>(c: &mut Cursor<'_>, items: &I, body: &O) -> Result<Compound, LexErr>
    requires lists { ReadsBelow items_at c.old.room (I.pre items.now) (I.post items.now) }
    requires bodies { ReadsBelow body_at c.old.room (O.pre body.now) (O.post body.now) }
    ensures { ReadsMarks (compound_at c.old.room) c.old result c.new }
{
    let grouped = |c: &mut Cursor<'_>| -> Result<Compound, LexErr>
        requires lists { ReadsBelow items_at (c.old.room + 1) (I.pre items.now) (I.post items.now) }
        requires bodies { ReadsBelow body_at (c.old.room + 1) (O.pre body.now) (O.post body.now) }
        ensures { Reads (groups_at c.old.room) c.old result c.new }
    { group(c, items, body) };
    let if_form = |c: &mut Cursor<'_>| -> Result<Compound, LexErr>
        requires { ReadsBelow body_at (c.old.room + 1) (O.pre body.now) (O.post body.now) }
        ensures { Reads (if_at c.old.room) c.old result c.new }
    { conditional(c, items, body) };
    let in_loop = |c: &mut Cursor<'_>| -> Result<Compound, LexErr>
        requires lists { ReadsBelow items_at (c.old.room + 1) (I.pre items.now) (I.post items.now) }
        requires bodies { ReadsBelow body_at (c.old.room + 1) (O.pre body.now) (O.post body.now) }
        ensures { ReadsMarks (loops_at c.old.room) c.old result c.new }
    { looped(c, items, body) };
    let chosen = |c: &mut Cursor<'_>| -> Result<Compound, LexErr>
        requires lists { ReadsBelow items_at (c.old.room + 1) (I.pre items.now) (I.post items.now) }
        requires bodies { ReadsBelow body_at (c.old.room + 1) (O.pre body.now) (O.post body.now) }
        ensures { ReadsMarks (choices_at c.old.room) c.old result c.new }
    { choice(c, items, body) };
    compound_of(c, &grouped, &if_form, &in_loop, &chosen)
}

// A command.
#[tactic(auto, using(bash_cursor::proofs::Below::narrower))]
fn command<
    I: Fn(&mut Cursor<'_>) -> Result<Items, LexErr>,
    O: Fn(&mut Cursor<'_>) -> Result<Body, LexErr>,
>(c: &mut Cursor<'_>, items: &I, body: &O) -> Result<Draft, LexErr>
    requires lists { ReadsBelow items_at c.old.room (I.pre items.now) (I.post items.now) }
    requires bodies { ReadsBelow body_at c.old.room (O.pre body.now) (O.post body.now) }
    ensures { ReadsMarks (command_at c.old.room) c.old result c.new }
{
    let word = |c: &mut Cursor<'_>| -> Result<Word, LexErr>
        requires lists { ReadsBelow items_at c.old.room (I.pre items.now) (I.post items.now) }
        requires bodies { ReadsBelow body_at c.old.room (O.pre body.now) (O.post body.now) }
        ensures { Reads (word_at c.old.room) c.old result c.new }
    { bash_words::word(c, items, body) };
    let assign_here = |c: &mut Cursor<'_>| -> Result<Assign, LexErr>
        requires lists { ReadsBelow items_at c.old.room (I.pre items.now) (I.post items.now) }
        requires bodies { ReadsBelow body_at c.old.room (O.pre body.now) (O.post body.now) }
        ensures { ReadsMarks (assign_at c.old.room) c.old result c.new }
    { assign(c, items, body) };
    let redir_here = |c: &mut Cursor<'_>| -> Result<Redir, LexErr>
        requires lists { ReadsBelow items_at c.old.room (I.pre items.now) (I.post items.now) }
        requires bodies { ReadsBelow body_at c.old.room (O.pre body.now) (O.post body.now) }
        ensures { ReadsMarks (redir_at c.old.room) c.old result c.new }
    { redir(c, items, body) };
    let lines_here = |c: &mut Cursor<'_>| -> Result<(), LexErr>
        requires lists { ReadsBelow items_at c.old.room (I.pre items.now) (I.post items.now) }
        requires bodies { ReadsBelow body_at c.old.room (O.pre body.now) (O.post body.now) }
        ensures { ReadsMarks (lines_at c.old.room) c.old result c.new }
    { lines(c, items, body) };
    let compound_here = |c: &mut Cursor<'_>| -> Result<Compound, LexErr>
        requires lists { ReadsBelow items_at c.old.room (I.pre items.now) (I.post items.now) }
        requires bodies { ReadsBelow body_at c.old.room (O.pre body.now) (O.post body.now) }
        ensures { ReadsMarks (compound_at c.old.room) c.old result c.new }
    { compound(c, items, body) };
    bash_commands::command_of(
        c,
        &word,
        &assign_here,
        &redir_here,
        &lines_here,
        &compound_here,
    )
}

/// All items that stand at the place, before the bodies of their here-documents are put into them.
///
/// # Errors
/// `TooDeep` exactly where reading them opens more nestings than may be open, `Memory` where there is no room for them. The
/// cursor, with its here-documents, is as it was then.
#[tactic(auto, using(bash_cursor::proofs::Below::narrower))]
pub fn turns<
    I: Fn(&mut Cursor<'_>) -> Result<Items, LexErr>,
    O: Fn(&mut Cursor<'_>) -> Result<Body, LexErr>,
>(c: &mut Cursor<'_>, items: &I, body: &O) -> Result<List<ItemDraft>, LexErr>
    requires lists { ReadsBelow items_at c.old.room (I.pre items.now) (I.post items.now) }
    requires bodies { ReadsBelow body_at c.old.room (O.pre body.now) (O.post body.now) }
    ensures { ReadsMarks (gather (commands.turn (inside c.old.room))) c.old result c.new }
{
    let lines_here = |c: &mut Cursor<'_>| -> Result<(), LexErr>
        requires lists { ReadsBelow items_at c.old.room (I.pre items.now) (I.post items.now) }
        requires bodies { ReadsBelow body_at c.old.room (O.pre body.now) (O.post body.now) }
        ensures { ReadsMarks (lines_at c.old.room) c.old result c.new }
    { lines(c, items, body) };
    let newline_here = |c: &mut Cursor<'_>| -> Result<(), LexErr>
        requires lists { ReadsBelow items_at c.old.room (I.pre items.now) (I.post items.now) }
        requires bodies { ReadsBelow body_at c.old.room (O.pre body.now) (O.post body.now) }
        ensures { ReadsMarks (newline_at c.old.room) c.old result c.new }
    { newline(c, items, body) };
    let command_here = |c: &mut Cursor<'_>| -> Result<Draft, LexErr>
        requires lists { ReadsBelow items_at c.old.room (I.pre items.now) (I.post items.now) }
        requires bodies { ReadsBelow body_at c.old.room (O.pre body.now) (O.post body.now) }
        ensures { ReadsMarks (command_at c.old.room) c.old result c.new }
    { command(c, items, body) };
    bash_bodies::turns(c, &lines_here, &newline_here, &command_here)
}

/// A list of commands, which may be empty, with here-documents of its own.
///
/// # Errors
/// `NoParse` exactly where one of these still waits at its end, `TooDeep` exactly where reading it opens more nestings than
/// may be open, `Memory` where there is no room for it.
#[tactic(auto, using(bash_cursor::proofs::Below::narrower))]
pub fn items_over<
    I: Fn(&mut Cursor<'_>) -> Result<Items, LexErr>,
    O: Fn(&mut Cursor<'_>) -> Result<Body, LexErr>,
>(c: &mut Cursor<'_>, items: &I, body: &O) -> Result<Items, LexErr>
    requires lists { ReadsBelow items_at c.old.room (I.pre items.now) (I.post items.now) }
    requires bodies { ReadsBelow body_at c.old.room (O.pre body.now) (O.post body.now) }
    ensures { Reads (items_at c.old.room) c.old result c.new }
{
    let lines_here = |c: &mut Cursor<'_>| -> Result<(), LexErr>
        requires lists { ReadsBelow items_at c.old.room (I.pre items.now) (I.post items.now) }
        requires bodies { ReadsBelow body_at c.old.room (O.pre body.now) (O.post body.now) }
        ensures { ReadsMarks (lines_at c.old.room) c.old result c.new }
    { lines(c, items, body) };
    let newline_here = |c: &mut Cursor<'_>| -> Result<(), LexErr>
        requires lists { ReadsBelow items_at c.old.room (I.pre items.now) (I.post items.now) }
        requires bodies { ReadsBelow body_at c.old.room (O.pre body.now) (O.post body.now) }
        ensures { ReadsMarks (newline_at c.old.room) c.old result c.new }
    { newline(c, items, body) };
    let command_here = |c: &mut Cursor<'_>| -> Result<Draft, LexErr>
        requires lists { ReadsBelow items_at c.old.room (I.pre items.now) (I.post items.now) }
        requires bodies { ReadsBelow body_at c.old.room (O.pre body.now) (O.post body.now) }
        ensures { ReadsMarks (command_at c.old.room) c.old result c.new }
    { command(c, items, body) };
    bash_bodies::items_of(c, &lines_here, &newline_here, &command_here)
}

/// A list of commands of which one has to stand there, with here-documents of its own.
///
/// # Errors
/// `NoParse` exactly where none stands there or one of these still waits at its end, `TooDeep` exactly where reading it
/// opens more nestings than may be open, `Memory` where there is no room for it.
#[tactic(auto, using(bash_cursor::proofs::Below::narrower))]
pub fn body_over<
    I: Fn(&mut Cursor<'_>) -> Result<Items, LexErr>,
    O: Fn(&mut Cursor<'_>) -> Result<Body, LexErr>,
>(c: &mut Cursor<'_>, items: &I, body: &O) -> Result<Body, LexErr>
    requires lists { ReadsBelow items_at c.old.room (I.pre items.now) (I.post items.now) }
    requires bodies { ReadsBelow body_at c.old.room (O.pre body.now) (O.post body.now) }
    ensures { Reads (body_at c.old.room) c.old result c.new }
{
    let lines_here = |c: &mut Cursor<'_>| -> Result<(), LexErr>
        requires lists { ReadsBelow items_at c.old.room (I.pre items.now) (I.post items.now) }
        requires bodies { ReadsBelow body_at c.old.room (O.pre body.now) (O.post body.now) }
        ensures { ReadsMarks (lines_at c.old.room) c.old result c.new }
    { lines(c, items, body) };
    let newline_here = |c: &mut Cursor<'_>| -> Result<(), LexErr>
        requires lists { ReadsBelow items_at c.old.room (I.pre items.now) (I.post items.now) }
        requires bodies { ReadsBelow body_at c.old.room (O.pre body.now) (O.post body.now) }
        ensures { ReadsMarks (newline_at c.old.room) c.old result c.new }
    { newline(c, items, body) };
    let command_here = |c: &mut Cursor<'_>| -> Result<Draft, LexErr>
        requires lists { ReadsBelow items_at c.old.room (I.pre items.now) (I.post items.now) }
        requires bodies { ReadsBelow body_at c.old.room (O.pre body.now) (O.post body.now) }
        ensures { ReadsMarks (command_at c.old.room) c.old result c.new }
    { command(c, items, body) };
    bash_bodies::body_of(c, &lines_here, &newline_here, &command_here)
}
