//! What ends an item of a list (Bash Reference Manual, "Lists of Commands").

ghost use Rattle.bash_bodies.specs.Parts.{last_stop, lone_ampersand, lone_semicolon};
ghost use Rattle.bash_cursor.specs.Reads.{Eats, Finds, Stands};
ghost use Rattle.eb_grammar.specs.Commands as commands;

use bash_cursor::Cursor;
use eb_syntax::ItemEnd;

// A semicolon that begins no longer operator, and says whether one stands at the place.
#[tactic(auto, unfolding(eb_grammar::specs::Peg::word_of))]
fn semicolon(c: &mut Cursor<'_>) -> bool
    ensures { Eats lone_semicolon c.old result c.new }
{
    let start = c.here();
    if !c.eat(b";") {
        return false;
    }
    if c.sees(b";") || c.sees(b"&") {
        c.back_to(start);
        return false;
    }
    true
}

// An ampersand that begins no longer operator, and says whether one stands at the place.
#[tactic(auto, unfolding(eb_grammar::specs::Peg::word_of))]
fn ampersand(c: &mut Cursor<'_>) -> bool
    ensures { Eats lone_ampersand c.old result c.new }
{
    let start = c.here();
    if !c.eat(b"&") {
        return false;
    }
    if c.sees(b"&") || c.sees(b">") {
        c.back_to(start);
        return false;
    }
    true
}

// Whether a list of commands ends at the place: before a reserved word that closes it, or with the text.
#[tactic(auto, using(crate::proofs::Stops::closer_stands, crate::proofs::Stops::end_of_text))]
fn sees_last_stop(c: &Cursor<'_>) -> bool
    ensures { Stands last_stop c.now result }
{
    if c.sees_closer() {
        return true;
    }
    c.at_end()
}

// Whether an item may end at the place with nothing taken.
#[tactic(auto, unfolding(eb_grammar::specs::Commands::stop, eb_grammar::specs::Peg::word_of))]
fn sees_stop(c: &Cursor<'_>) -> bool
    ensures { Stands commands.stop c.now result }
{
    c.sees(b"\n")
        || c.sees(b"#")
        || c.sees(b")")
        || c.sees(b";;")
        || c.sees(b";&")
        || sees_last_stop(c)
}

/// What ends an item. `None` where it cannot end at the place.
#[tactic(auto, unfolding(eb_grammar::specs::Commands::item_end))]
pub fn item_end(c: &mut Cursor<'_>) -> Option<ItemEnd>
    ensures { Finds commands.item_end c.old result c.new }
{
    if semicolon(c) {
        return Some(ItemEnd::Semicolon);
    }
    if ampersand(c) {
        return Some(ItemEnd::Ampersand);
    }
    if sees_stop(c) {
        return Some(ItemEnd::Ahead);
    }
    None
}
