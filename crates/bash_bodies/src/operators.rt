//! What stands before and between the commands of a list (Bash Reference Manual, "Pipelines" and "Lists of Commands").

ghost use Rattle.bash_bodies.specs.Parts.{lone_bar};
ghost use Rattle.bash_cursor.specs.Reads.{Eats, Finds, Reads};
ghost use Rattle.eb_grammar.specs.Commands as commands;
ghost use Rattle.eb_grammar.specs.Peg.{many};

use bash_cursor::{Cursor, LexErr, or_back};
use bash_reading::put;
use eb_syntax::{Bar, Junction, PipeMark};
use sqlite_items::Items as List;

// `time`, perhaps with `-p`.
#[tactic(auto, unfolding(eb_grammar::specs::Commands::time_mark))]
fn time_mark(c: &mut Cursor<'_>) -> Option<PipeMark>
    ensures { Finds commands.time_mark c.old result c.new }
{
    if !c.keyword(b"time") {
        return None;
    }
    c.blanks();
    if c.keyword(b"-p") {
        c.blanks();
        return Some(PipeMark::TimePosix);
    }
    Some(PipeMark::Time)
}

// `!` or `time`.
#[tactic(auto, unfolding(eb_grammar::specs::Commands::pipe_mark))]
fn pipe_mark(c: &mut Cursor<'_>) -> Option<PipeMark>
    ensures { Finds commands.pipe_mark c.old result c.new }
{
    if c.keyword(b"!") {
        c.blanks();
        return Some(PipeMark::Not);
    }
    time_mark(c)
}

/// All that stands before the first command of a pipeline.
///
/// # Errors
/// `Memory` where there is no room for it.
#[tactic(auto, using(bash_cursor::proofs::Turns::turn_go, bash_cursor::proofs::Turns::turn_no, bash_cursor::proofs::Turns::turn_out))]
pub fn pipe_marks(c: &mut Cursor<'_>) -> Result<List<PipeMark>, LexErr>
    ensures { Reads (many commands.pipe_mark) c.old result c.new }
{
    let start = c.here();
    let mut found = List::new(c.alloc());
    for _turn in 0..c.left() {
        let Some(mark) = pipe_mark(c) else {
            return Ok(found);
        };
        or_back!(c, start, put(&mut found, mark));
    }
    Ok(found)
}

// A bar that is not the first of `||`, and says whether one stands at the place.
#[tactic(auto, unfolding(eb_grammar::specs::Peg::word_of))]
fn lone_bar(c: &mut Cursor<'_>) -> bool
    ensures { Eats lone_bar c.old result c.new }
{
    let start = c.here();
    if !c.eat(b"|") {
        return false;
    }
    if c.sees(b"|") {
        c.back_to(start);
        return false;
    }
    true
}

/// `|&` or `|`. `None` where neither stands at the place.
#[tactic(auto, unfolding(eb_grammar::specs::Commands::bar))]
pub fn bar(c: &mut Cursor<'_>) -> Option<Bar>
    ensures { Finds commands.bar c.old result c.new }
{
    if c.eat(b"|&") {
        return Some(Bar::Both);
    }
    if lone_bar(c) {
        return Some(Bar::Plain);
    }
    None
}

/// `&&` or `||`. `None` where neither stands at the place.
#[tactic(auto, unfolding(eb_grammar::specs::Commands::junction))]
pub fn junction(c: &mut Cursor<'_>) -> Option<Junction>
    ensures { Finds commands.junction c.old result c.new }
{
    if c.eat(b"&&") {
        return Some(Junction::And);
    }
    if c.eat(b"||") {
        return Some(Junction::Or);
    }
    None
}
