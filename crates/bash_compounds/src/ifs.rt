//! `if` (Bash Reference Manual, "Conditional Constructs").

ghost use Rattle.std.specs.Prelude.{◌+◌};
ghost use Rattle.bash_cursor.specs.Reads.{Reads, ReadsBelow};
ghost use Rattle.bash_compounds.specs.Forms.{else_body, if_at};
ghost use Rattle.bash_reading.specs.At.{body_at};
ghost use Rattle.eb_grammar.specs.Compounds as compounds;
ghost use Rattle.eb_grammar.specs.Grammar.{inside, rules_in};
ghost use Rattle.eb_grammar.specs.Peg.{many, maybe};

use bash_cursor::{Cursor, LexErr, or_back};
use bash_reading::{attempt, put, reserved_word};
use eb_syntax::{Body, Compound, Elif, ElifOf};
use sqlite_items::Items as List;

// `elif`, a test, and what is run where it holds.
#[tactic(auto, unfolding(eb_grammar::specs::Compounds::elif))]
fn elif<B: Fn(&mut Cursor<'_>) -> Result<Body, LexErr>>(
    c: &mut Cursor<'_>,
    body: &B,
) -> Result<Elif, LexErr>
    requires { ReadsBelow body_at (c.old.room + 1) (B.pre body.now) (B.post body.now) }
    ensures { Reads (compounds.elif (rules_in (inside c.old.room))) c.old result c.new }
{
    let start = c.here();
    reserved_word(c, b"elif")?;
    let test = or_back!(c, start, body(c));
    or_back!(c, start, reserved_word(c, b"then"));
    let found = or_back!(c, start, body(c));
    Ok(ElifOf { test, body: found })
}

#[tactic(auto, using(bash_cursor::proofs::Turns::turn_go, bash_cursor::proofs::Turns::turn_no, bash_cursor::proofs::Turns::turn_deep, bash_cursor::proofs::Turns::turn_out))]
fn elifs<B: Fn(&mut Cursor<'_>) -> Result<Body, LexErr>>(
    c: &mut Cursor<'_>,
    body: &B,
) -> Result<List<Elif>, LexErr>
    requires { ReadsBelow body_at (c.old.room + 1) (B.pre body.now) (B.post body.now) }
    ensures { Reads (many (compounds.elif (rules_in (inside c.old.room)))) c.old result c.new }
{
    repeat!(c, elif(c, body))
}

// `else`, and what is run where no test holds.
fn else_body<B: Fn(&mut Cursor<'_>) -> Result<Body, LexErr>>(
    c: &mut Cursor<'_>,
    body: &B,
) -> Result<Body, LexErr>
    requires { ReadsBelow body_at (c.old.room + 1) (B.pre body.now) (B.post body.now) }
    ensures { Reads (else_body (rules_in (inside c.old.room))) c.old result c.new }
{
    let start = c.here();
    reserved_word(c, b"else")?;
    Ok(or_back!(c, start, body(c)))
}

// The same, where it stands.
fn other_body<B: Fn(&mut Cursor<'_>) -> Result<Body, LexErr>>(
    c: &mut Cursor<'_>,
    body: &B,
) -> Result<Option<Body>, LexErr>
    requires { ReadsBelow body_at (c.old.room + 1) (B.pre body.now) (B.post body.now) }
    ensures { Reads (maybe (else_body (rules_in (inside c.old.room)))) c.old result c.new }
{
    Ok(attempt!(else_body(c, body)))
}

/// `if`, whose nesting is open, with its lists of commands read by `body`.
///
/// # Errors
/// `NoParse` exactly where none stands at the place, `TooDeep` exactly where reading it opens more nestings than may be
/// open, `Memory` where there is no room for it.
#[tactic(auto, unfolding(eb_grammar::specs::Compounds::if_command))]
pub fn if_of<B: Fn(&mut Cursor<'_>) -> Result<Body, LexErr>>(
    c: &mut Cursor<'_>,
    body: &B,
) -> Result<Compound, LexErr>
    requires { ReadsBelow body_at (c.old.room + 1) (B.pre body.now) (B.post body.now) }
    ensures { Reads (if_at c.old.room) c.old result c.new }
{
    let start = c.here();
    reserved_word(c, b"if")?;
    let test = or_back!(c, start, body(c));
    or_back!(c, start, reserved_word(c, b"then"));
    let found = or_back!(c, start, body(c));
    let elifs = or_back!(c, start, elifs(c, body));
    let other = or_back!(c, start, other_body(c, body));
    or_back!(c, start, reserved_word(c, b"fi"));
    Ok(Compound::If(test, found, elifs, other))
}
