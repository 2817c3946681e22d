//! Conditions (Bash Reference Manual, "Conditional Constructs").

ghost use Rattle.std.specs.Prelude.{◌+◌, ◌<◌};
ghost use Rattle.bash_cursor.specs.Reads.{ReadsBelow, ReadsMarks};
ghost use Rattle.bash_conditions.specs.Parts.{and_lines, and_step, group_at, negation_at, or_lines, or_step};
ghost use Rattle.bash_reading.specs.At.{lines_at, negatable_at, regex_at, word_at};
ghost use Rattle.bash_reading.specs.Marks.{ReadsMarksBelow};
ghost use Rattle.eb_grammar.specs.Conditions as conditions;
ghost use Rattle.eb_grammar.specs.Grammar.{inside, rules_in};
ghost use Rattle.eb_grammar.specs.Peg.{many};

use crate::primaries::{unary_test, word_test};
use bash_cursor::{Cursor, LexErr, or_back};
use bash_reading::{attempt, boxed, must_or_restore, or_restore, put, sees_blank};
use eb_syntax::{And, Not, Or, Primary, Regex, Word};
use sqlite_items::Items as List;

// A condition in parentheses whose nesting is open.
#[tactic(auto, using(crate::proofs::Joined::group_is))]
fn group_inside<
    L: Fn(&mut Cursor<'_>) -> Result<(), LexErr>,
    O: Fn(&mut Cursor<'_>) -> Result<Or, LexErr>,
>(c: &mut Cursor<'_>, lines: &L, or: &O) -> Result<Or, LexErr>
    requires between { ReadsMarksBelow lines_at (c.old.room + 1) (L.pre lines.now) (L.post lines.now) }
    requires conditions { ReadsMarksBelow or_lines (c.old.room + 1) (O.pre or.now) (O.post or.now) }
    ensures { ReadsMarks (conditions.condition_group (rules_in (inside c.old.room))) c.old result c.new }
{
    let saved = c.save()?;
    c.literal(b"(")?;
    or_restore!(c, saved, lines(c));
    let found = or_restore!(c, saved, or(c));
    or_restore!(c, saved, c.literal(b")"));
    Ok(found)
}

// A condition in parentheses.
#[tactic(auto, using(bash_cursor::proofs::Nesting::nest_no, bash_cursor::proofs::Nesting::nest_deep, bash_cursor::proofs::Nesting::nest_in))]
fn group<
    L: Fn(&mut Cursor<'_>) -> Result<(), LexErr>,
    O: Fn(&mut Cursor<'_>) -> Result<Or, LexErr>,
>(c: &mut Cursor<'_>, lines: &L, or: &O) -> Result<Or, LexErr>
    requires between { ReadsMarksBelow lines_at c.old.room (L.pre lines.now) (L.post lines.now) }
    requires conditions { ReadsMarksBelow or_lines c.old.room (O.pre or.now) (O.post or.now) }
    ensures { ReadsMarks (group_at c.old.room) c.old result c.new }
{
    if !c.sees(b"(") {
        return Err(LexErr::NoParse);
    }
    let start = c.here();
    c.enter()?;
    let found = or_back!(c, start, group_inside(c, lines, or));
    c.leave();
    Ok(found)
}

// A condition with `!` before it, whose nesting is open.
#[tactic(auto, unfolding(eb_grammar::specs::Conditions::negation))]
fn negation_inside<
    L: Fn(&mut Cursor<'_>) -> Result<(), LexErr>,
    N: Fn(&mut Cursor<'_>) -> Result<Not, LexErr>,
>(c: &mut Cursor<'_>, lines: &L, negated: &N) -> Result<Not, LexErr>
    requires between { ReadsMarksBelow lines_at (c.old.room + 1) (L.pre lines.now) (L.post lines.now) }
    requires conditions { ReadsMarksBelow negatable_at (c.old.room + 1) (N.pre negated.now) (N.post negated.now) }
    ensures { ReadsMarks (conditions.negation (rules_in (inside c.old.room))) c.old result c.new }
{
    let saved = c.save()?;
    c.literal(b"!")?;
    must_or_restore!(c, saved, sees_blank(c));
    or_restore!(c, saved, lines(c));
    Ok(or_restore!(c, saved, negated(c)))
}

// A condition with `!` before it.
#[tactic(auto, using(bash_cursor::proofs::Nesting::nest_no, bash_cursor::proofs::Nesting::nest_deep, bash_cursor::proofs::Nesting::nest_in))]
fn negation<
    L: Fn(&mut Cursor<'_>) -> Result<(), LexErr>,
    N: Fn(&mut Cursor<'_>) -> Result<Not, LexErr>,
>(c: &mut Cursor<'_>, lines: &L, negated: &N) -> Result<Not, LexErr>
    requires between { ReadsMarksBelow lines_at c.old.room (L.pre lines.now) (L.post lines.now) }
    requires conditions { ReadsMarksBelow negatable_at c.old.room (N.pre negated.now) (N.post negated.now) }
    ensures { ReadsMarks (negation_at c.old.room) c.old result c.new }
{
    if !c.sees(b"!") {
        return Err(LexErr::NoParse);
    }
    let start = c.here();
    c.enter()?;
    let found = or_back!(c, start, negation_inside(c, lines, negated));
    c.leave();
    Ok(found)
}

// A condition in parentheses, a word with an operator, or a word and what it is matched or compared with.
#[tactic(auto, unfolding(eb_grammar::specs::Conditions::prim))]
fn primary<
    W: Fn(&mut Cursor<'_>) -> Result<Word, LexErr>,
    R: Fn(&mut Cursor<'_>) -> Result<Regex, LexErr>,
    L: Fn(&mut Cursor<'_>) -> Result<(), LexErr>,
    O: Fn(&mut Cursor<'_>) -> Result<Or, LexErr>,
>(c: &mut Cursor<'_>, word: &W, regex: &R, lines: &L, or: &O) -> Result<Primary, LexErr>
    requires words { ReadsBelow word_at (c.old.room + 1) (W.pre word.now) (W.post word.now) }
    requires regexes { ReadsBelow regex_at (c.old.room + 1) (R.pre regex.now) (R.post regex.now) }
    requires between { ReadsMarksBelow lines_at c.old.room (L.pre lines.now) (L.post lines.now) }
    requires conditions { ReadsMarksBelow or_lines c.old.room (O.pre or.now) (O.post or.now) }
    ensures { ReadsMarks (conditions.prim (inside c.old.room)) c.old result c.new }
{
    let saved = c.save()?;
    if let Some(found) = attempt!(group(c, lines, or)) {
        return Ok(Primary::Group(or_restore!(c, saved, boxed(c.alloc(), found))));
    }
    if let Some(found) = attempt!(unary_test(c, word)) {
        return Ok(found);
    }
    word_test(c, word, regex)
}

// A condition, with `!` before it or without.
#[tactic(auto, unfolding(eb_grammar::specs::Conditions::not))]
fn not_by<
    W: Fn(&mut Cursor<'_>) -> Result<Word, LexErr>,
    R: Fn(&mut Cursor<'_>) -> Result<Regex, LexErr>,
    L: Fn(&mut Cursor<'_>) -> Result<(), LexErr>,
    O: Fn(&mut Cursor<'_>) -> Result<Or, LexErr>,
    N: Fn(&mut Cursor<'_>) -> Result<Not, LexErr>,
>(c: &mut Cursor<'_>, word: &W, regex: &R, lines: &L, or: &O, negated: &N) -> Result<Not, LexErr>
    requires words { ReadsBelow word_at (c.old.room + 1) (W.pre word.now) (W.post word.now) }
    requires regexes { ReadsBelow regex_at (c.old.room + 1) (R.pre regex.now) (R.post regex.now) }
    requires between { ReadsMarksBelow lines_at c.old.room (L.pre lines.now) (L.post lines.now) }
    requires conditions { ReadsMarksBelow or_lines c.old.room (O.pre or.now) (O.post or.now) }
    requires negations { ReadsMarksBelow negatable_at c.old.room (N.pre negated.now) (N.post negated.now) }
    ensures { ReadsMarks (negatable_at c.old.room) c.old result c.new }
{
    let saved = c.save()?;
    if let Some(found) = attempt!(negation(c, lines, negated)) {
        return Ok(Not::Not(or_restore!(c, saved, boxed(c.alloc(), found))));
    }
    Ok(Not::Prim(primary(c, word, regex, lines, or)?))
}

// `&&` and the condition after it, with the lines round it.
#[tactic(auto, unfolding(crate::specs::Parts::and_step))]
fn and_step<
    L: Fn(&mut Cursor<'_>) -> Result<(), LexErr>,
    N: Fn(&mut Cursor<'_>) -> Result<Not, LexErr>,
>(c: &mut Cursor<'_>, lines: &L, not: &N) -> Result<Not, LexErr>
    requires between { ReadsMarksBelow lines_at (c.old.room + 1) (L.pre lines.now) (L.post lines.now) }
    requires conditions { ReadsMarksBelow negatable_at (c.old.room + 1) (N.pre not.now) (N.post not.now) }
    ensures { ReadsMarks (and_step c.old.room) c.old result c.new }
{
    let saved = c.save()?;
    c.literal(b"&&")?;
    or_restore!(c, saved, lines(c));
    let found = or_restore!(c, saved, not(c));
    or_restore!(c, saved, lines(c));
    Ok(found)
}

#[tactic(auto, using(bash_cursor::proofs::Turns::turn_go, bash_cursor::proofs::Turns::turn_no, bash_cursor::proofs::Turns::turn_deep, bash_cursor::proofs::Turns::turn_out))]
fn and_steps<
    L: Fn(&mut Cursor<'_>) -> Result<(), LexErr>,
    N: Fn(&mut Cursor<'_>) -> Result<Not, LexErr>,
>(c: &mut Cursor<'_>, lines: &L, not: &N) -> Result<List<Not>, LexErr>
    requires between { ReadsMarksBelow lines_at (c.old.room + 1) (L.pre lines.now) (L.post lines.now) }
    requires conditions { ReadsMarksBelow negatable_at (c.old.room + 1) (N.pre not.now) (N.post not.now) }
    ensures { ReadsMarks (many (and_step c.old.room)) c.old result c.new }
{
    repeat_marks!(c, and_step(c, lines, not))
}

// Conditions joined by `&&`, with the lines after them.
#[tactic(auto, using(crate::proofs::Joined::and_lines_is, crate::proofs::Joined::and_lines_found))]
fn and_lines<
    L: Fn(&mut Cursor<'_>) -> Result<(), LexErr>,
    N: Fn(&mut Cursor<'_>) -> Result<Not, LexErr>,
>(c: &mut Cursor<'_>, lines: &L, not: &N) -> Result<And, LexErr>
    requires between { ReadsMarksBelow lines_at (c.old.room + 1) (L.pre lines.now) (L.post lines.now) }
    requires conditions { ReadsMarksBelow negatable_at (c.old.room + 1) (N.pre not.now) (N.post not.now) }
    ensures { ReadsMarks (and_lines c.old.room) c.old result c.new }
{
    let saved = c.save()?;
    let first = not(c)?;
    or_restore!(c, saved, lines(c));
    let others = or_restore!(c, saved, and_steps(c, lines, not));
    Ok(And { first, others })
}

// `||` and the conditions after it, with the lines round them.
#[tactic(auto, using(crate::proofs::Joined::or_step_is))]
fn or_step<
    L: Fn(&mut Cursor<'_>) -> Result<(), LexErr>,
    N: Fn(&mut Cursor<'_>) -> Result<Not, LexErr>,
>(c: &mut Cursor<'_>, lines: &L, not: &N) -> Result<And, LexErr>
    requires between { ReadsMarksBelow lines_at (c.old.room + 1) (L.pre lines.now) (L.post lines.now) }
    requires conditions { ReadsMarksBelow negatable_at (c.old.room + 1) (N.pre not.now) (N.post not.now) }
    ensures { ReadsMarks (or_step c.old.room) c.old result c.new }
{
    let saved = c.save()?;
    c.literal(b"||")?;
    or_restore!(c, saved, lines(c));
    Ok(or_restore!(c, saved, and_lines(c, lines, not)))
}

#[tactic(auto, using(bash_cursor::proofs::Turns::turn_go, bash_cursor::proofs::Turns::turn_no, bash_cursor::proofs::Turns::turn_deep, bash_cursor::proofs::Turns::turn_out))]
fn or_steps<
    L: Fn(&mut Cursor<'_>) -> Result<(), LexErr>,
    N: Fn(&mut Cursor<'_>) -> Result<Not, LexErr>,
>(c: &mut Cursor<'_>, lines: &L, not: &N) -> Result<List<And>, LexErr>
    requires between { ReadsMarksBelow lines_at (c.old.room + 1) (L.pre lines.now) (L.post lines.now) }
    requires conditions { ReadsMarksBelow negatable_at (c.old.room + 1) (N.pre not.now) (N.post not.now) }
    ensures { ReadsMarks (many (or_step c.old.room)) c.old result c.new }
{
    repeat_marks!(c, or_step(c, lines, not))
}

// Conditions joined by `&&` and `||`, with the lines after them.
#[tactic(auto, using(crate::proofs::Joined::or_lines_is))]
fn or_lines<
    L: Fn(&mut Cursor<'_>) -> Result<(), LexErr>,
    N: Fn(&mut Cursor<'_>) -> Result<Not, LexErr>,
>(c: &mut Cursor<'_>, lines: &L, not: &N) -> Result<Or, LexErr>
    requires between { ReadsMarksBelow lines_at (c.old.room + 1) (L.pre lines.now) (L.post lines.now) }
    requires conditions { ReadsMarksBelow negatable_at (c.old.room + 1) (N.pre not.now) (N.post not.now) }
    ensures { ReadsMarks (or_lines c.old.room) c.old result c.new }
{
    let saved = c.save()?;
    let first = and_lines(c, lines, not)?;
    let others = or_restore!(c, saved, or_steps(c, lines, not));
    Ok(Or { first, others })
}

// A condition, with `!` before it or without, and all that stands inside it.
#[cycle(conditions)]
#[tactic(auto, using(bash_cursor::proofs::Below::narrower, bash_reading::proofs::Below::narrower_marks))]
fn negatable<
    W: Fn(&mut Cursor<'_>) -> Result<Word, LexErr>,
    R: Fn(&mut Cursor<'_>) -> Result<Regex, LexErr>,
    L: Fn(&mut Cursor<'_>) -> Result<(), LexErr>,
>(c: &mut Cursor<'_>, word: &W, regex: &R, lines: &L) -> Result<Not, LexErr>
    requires words { ReadsBelow word_at (c.old.room + 1) (W.pre word.now) (W.post word.now) }
    requires regexes { ReadsBelow regex_at (c.old.room + 1) (R.pre regex.now) (R.post regex.now) }
    requires between { ReadsMarksBelow lines_at (c.old.room + 1) (L.pre lines.now) (L.post lines.now) }
    ensures { ReadsMarks (negatable_at c.old.room) c.old result c.new }
{
    let room = c.room();
    let inner = |c: &mut Cursor<'_>| -> Result<Or, LexErr>
        requires below { c.old.room < room }
        requires words { ReadsBelow word_at (c.old.room + 1) (W.pre word.now) (W.post word.now) }
        requires regexes { ReadsBelow regex_at (c.old.room + 1) (R.pre regex.now) (R.post regex.now) }
        requires between { ReadsMarksBelow lines_at (c.old.room + 1) (L.pre lines.now) (L.post lines.now) }
        ensures { ReadsMarks (or_lines c.old.room) c.old result c.new }
    {
        let _ = &room;
        condition(c, word, regex, lines)
    };
    let negated = |c: &mut Cursor<'_>| -> Result<Not, LexErr>
        requires below { c.old.room < room }
        requires words { ReadsBelow word_at (c.old.room + 1) (W.pre word.now) (W.post word.now) }
        requires regexes { ReadsBelow regex_at (c.old.room + 1) (R.pre regex.now) (R.post regex.now) }
        requires between { ReadsMarksBelow lines_at (c.old.room + 1) (L.pre lines.now) (L.post lines.now) }
        ensures { ReadsMarks (negatable_at c.old.room) c.old result c.new }
    {
        let _ = &room;
        negatable(c, word, regex, lines)
    };
    not_by(c, word, regex, lines, &inner, &negated)
}

/// What stands between `[[` and `]]`, with the lines after it but not those before it (Bash Reference Manual, "Conditional
/// Constructs"). Words, regular expressions and the lines between them are read by `word`, `regex` and `lines`. Lines are
/// read once, whatever stands after them: the bodies of here-documents may stand in them.
///
/// # Errors
/// `NoParse` exactly where no condition stands at the place, `TooDeep` exactly where reading one would open more nestings
/// than may be open, `Memory` where there is no room for it.
#[cycle(conditions)]
#[tactic(auto, using(bash_cursor::proofs::Below::narrower, bash_reading::proofs::Below::narrower_marks))]
pub fn condition<
    W: Fn(&mut Cursor<'_>) -> Result<Word, LexErr>,
    R: Fn(&mut Cursor<'_>) -> Result<Regex, LexErr>,
    L: Fn(&mut Cursor<'_>) -> Result<(), LexErr>,
>(c: &mut Cursor<'_>, word: &W, regex: &R, lines: &L) -> Result<Or, LexErr>
    requires words { ReadsBelow word_at (c.old.room + 1) (W.pre word.now) (W.post word.now) }
    requires regexes { ReadsBelow regex_at (c.old.room + 1) (R.pre regex.now) (R.post regex.now) }
    requires between { ReadsMarksBelow lines_at (c.old.room + 1) (L.pre lines.now) (L.post lines.now) }
    ensures { ReadsMarks (or_lines c.old.room) c.old result c.new }
{
    let room = c.room();
    let one = |c: &mut Cursor<'_>| -> Result<Not, LexErr>
        requires below { c.old.room < room + 1 }
        requires words { ReadsBelow word_at (c.old.room + 1) (W.pre word.now) (W.post word.now) }
        requires regexes { ReadsBelow regex_at (c.old.room + 1) (R.pre regex.now) (R.post regex.now) }
        requires between { ReadsMarksBelow lines_at (c.old.room + 1) (L.pre lines.now) (L.post lines.now) }
        ensures { ReadsMarks (negatable_at c.old.room) c.old result c.new }
    {
        let _ = &room;
        negatable(c, word, regex, lines)
    };
    or_lines(c, lines, &one)
}
