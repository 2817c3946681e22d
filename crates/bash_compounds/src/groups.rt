//! Groups, subshells and arithmetic commands (Bash Reference Manual, "Command Grouping" and "Conditional Constructs").

ghost use Rattle.std.specs.Prelude.{◌+◌};
ghost use Rattle.bash_cursor.specs.Reads.{Reads, ReadsBelow};
ghost use Rattle.bash_compounds.specs.Forms.{groups_at};
ghost use Rattle.bash_reading.specs.At.{arith_text_at, body_at};
ghost use Rattle.eb_grammar.specs.Compounds as compounds;
ghost use Rattle.eb_grammar.specs.Grammar.{inside, rules_in};

use bash_cursor::{Cursor, LexErr, or_back};
use bash_reading::{attempt, must, reserved_word};
use eb_syntax::{ArithText, Body, Compound};

// `{ .. }`
#[tactic(auto, unfolding(eb_grammar::specs::Compounds::braces))]
fn braces<B: Fn(&mut Cursor<'_>) -> Result<Body, LexErr>>(
    c: &mut Cursor<'_>,
    body: &B,
) -> Result<Compound, LexErr>
    requires { ReadsBelow body_at (c.old.room + 1) (B.pre body.now) (B.post body.now) }
    ensures { Reads (compounds.braces (rules_in (inside c.old.room))) c.old result c.new }
{
    let start = c.here();
    reserved_word(c, b"{")?;
    let found = or_back!(c, start, body(c));
    or_back!(c, start, reserved_word(c, b"}"));
    Ok(Compound::Group(found))
}

// `(( .. ))`
#[tactic(auto, unfolding(eb_grammar::specs::Compounds::arith_command))]
fn arith_command<A: Fn(&mut Cursor<'_>) -> Result<ArithText, LexErr>>(
    c: &mut Cursor<'_>,
    arith: &A,
) -> Result<Compound, LexErr>
    requires { ReadsBelow arith_text_at (c.old.room + 1) (A.pre arith.now) (A.post arith.now) }
    ensures { Reads (compounds.arith_command (rules_in (inside c.old.room))) c.old result c.new }
{
    let start = c.here();
    c.literal(b"((")?;
    let text = or_back!(c, start, arith(c));
    or_back!(c, start, c.literal(b"))"));
    Ok(Compound::Arith(text))
}

// `( .. )`
#[tactic(auto, unfolding(eb_grammar::specs::Compounds::subshell, eb_grammar::specs::Peg::word_of))]
fn subshell<B: Fn(&mut Cursor<'_>) -> Result<Body, LexErr>>(
    c: &mut Cursor<'_>,
    body: &B,
) -> Result<Compound, LexErr>
    requires { ReadsBelow body_at (c.old.room + 1) (B.pre body.now) (B.post body.now) }
    ensures { Reads (compounds.subshell (rules_in (inside c.old.room))) c.old result c.new }
{
    let start = c.here();
    c.literal(b"(")?;
    must!(c, start, !c.sees(b"("));
    let found = or_back!(c, start, body(c));
    or_back!(c, start, c.literal(b")"));
    Ok(Compound::Subshell(found))
}

/// `{ .. }`, `(( .. ))` or `( .. )`, whose nesting is open: the commands are read by `body`, an expression by `arith`.
///
/// # Errors
/// `NoParse` exactly where none of these stands at the place, `TooDeep` exactly where reading it opens more nestings than
/// may be open, `Memory` where there is no room for it.
#[tactic(auto, unfolding(crate::specs::Forms::groups))]
pub fn groups_of<
    B: Fn(&mut Cursor<'_>) -> Result<Body, LexErr>,
    A: Fn(&mut Cursor<'_>) -> Result<ArithText, LexErr>,
>(c: &mut Cursor<'_>, body: &B, arith: &A) -> Result<Compound, LexErr>
    requires bodies { ReadsBelow body_at (c.old.room + 1) (B.pre body.now) (B.post body.now) }
    requires texts { ReadsBelow arith_text_at (c.old.room + 1) (A.pre arith.now) (A.post arith.now) }
    ensures { Reads (groups_at c.old.room) c.old result c.new }
{
    if let Some(found) = attempt!(braces(c, body)) {
        return Ok(found);
    }
    if let Some(found) = attempt!(arith_command(c, arith)) {
        return Ok(found);
    }
    subshell(c, body)
}
