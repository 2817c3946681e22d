//! `case` and `[[` (Bash Reference Manual, "Conditional Constructs").

ghost use Rattle.std.specs.Prelude.{◌≡◌, ◌+◌, Ok};
ghost use Rattle.bash_cursor.specs.Reads.{Finds, Reads, ReadsBelow, ReadsMarks, Stands};
ghost use Rattle.bash_compounds.specs.Forms.{case_head, choices_at, open_pattern, or_lines_at, other_pattern, patterns};
ghost use Rattle.bash_reading.specs.At.{items_at, lines_at, word_at};
ghost use Rattle.bash_reading.specs.Marks.{ReadsMarksBelow, mapped};
ghost use Rattle.eb_grammar.specs.Compounds as compounds;
ghost use Rattle.eb_grammar.specs.Grammar.{inside, rules_in};
ghost use Rattle.eb_grammar.specs.Names.{kw};
ghost use Rattle.eb_grammar.specs.Peg.{many, stands};

use bash_cursor::{Cursor, LexErr, or_back};
use bash_reading::{attempt, must_or_restore, or_restore, put, reserved_word};
use eb_syntax::{Clause, ClauseEnd, Compound, Items, Or, Word};
use sqlite_items::Items as List;

// Whether `esac` stands at the place.
fn sees_esac(c: &mut Cursor<'_>) -> bool
    ensures stands { Stands (kw "esac") c.old result }
    ensures same { c.new ≡ c.old }
{
    let start = c.here();
    if !c.keyword(b"esac") {
        return false;
    }
    c.back_to(start);
    true
}

// `;;&`, `;;` or `;&`, or nothing before `esac`.
#[tactic(auto, unfolding(eb_grammar::specs::Compounds::clause_end))]
fn clause_end(c: &mut Cursor<'_>) -> Option<ClauseEnd>
    ensures { Finds compounds.clause_end c.old result c.new }
{
    if c.eat(b";;&") {
        return Some(ClauseEnd::Continue);
    }
    if c.eat(b";;") {
        return Some(ClauseEnd::Break);
    }
    if c.eat(b";&") {
        return Some(ClauseEnd::FallThrough);
    }
    if sees_esac(c) {
        return Some(ClauseEnd::Ahead);
    }
    None
}

// The parenthesis that may stand before the patterns of a clause, with the blanks after it, and whether it stands there.
#[tactic(auto, unfolding(crate::specs::Forms::open_pattern))]
fn open_pattern(c: &mut Cursor<'_>) -> bool
    ensures { Reads (stands open_pattern) c.old (Ok result) c.new }
{
    if !c.eat(b"(") {
        return false;
    }
    c.blanks();
    true
}

// A bar, and a further pattern.
#[tactic(auto, unfolding(crate::specs::Forms::other_pattern))]
fn other_pattern<W: Fn(&mut Cursor<'_>) -> Result<Word, LexErr>>(
    c: &mut Cursor<'_>,
    word: &W,
) -> Result<Word, LexErr>
    requires { ReadsBelow word_at (c.old.room + 1) (W.pre word.now) (W.post word.now) }
    ensures { Reads (other_pattern (rules_in (inside c.old.room))) c.old result c.new }
{
    let start = c.here();
    c.blanks();
    or_back!(c, start, c.literal(b"|"));
    c.blanks();
    Ok(or_back!(c, start, word(c)))
}

#[tactic(auto, using(bash_cursor::proofs::Turns::turn_go, bash_cursor::proofs::Turns::turn_no, bash_cursor::proofs::Turns::turn_deep, bash_cursor::proofs::Turns::turn_out))]
fn other_patterns<W: Fn(&mut Cursor<'_>) -> Result<Word, LexErr>>(
    c: &mut Cursor<'_>,
    word: &W,
) -> Result<List<Word>, LexErr>
    requires { ReadsBelow word_at (c.old.room + 1) (W.pre word.now) (W.post word.now) }
    ensures { Reads (many (other_pattern (rules_in (inside c.old.room)))) c.old result c.new }
{
    repeat!(c, other_pattern(c, word))
}

// The patterns of a clause, up to their closing parenthesis.
#[tactic(auto, unfolding(crate::specs::Forms::patterns))]
fn patterns<W: Fn(&mut Cursor<'_>) -> Result<Word, LexErr>>(
    c: &mut Cursor<'_>,
    word: &W,
) -> Result<(Word, List<Word>), LexErr>
    requires { ReadsBelow word_at (c.old.room + 1) (W.pre word.now) (W.post word.now) }
    ensures { Reads (patterns (rules_in (inside c.old.room))) c.old (mapped (λ x. record { first = x.0; others = x.1 }) result) c.new }
{
    let start = c.here();
    open_pattern(c);
    let first = or_back!(c, start, word(c));
    let others = or_back!(c, start, other_patterns(c, word));
    c.blanks();
    or_back!(c, start, c.literal(b")"));
    Ok((first, others))
}

#[tactic(auto, using(crate::proofs::Forms::clause_is))]
fn clause<
    I: Fn(&mut Cursor<'_>) -> Result<Items, LexErr>,
    L: Fn(&mut Cursor<'_>) -> Result<(), LexErr>,
    W: Fn(&mut Cursor<'_>) -> Result<Word, LexErr>,
>(c: &mut Cursor<'_>, items: &I, lines: &L, word: &W) -> Result<Clause, LexErr>
    requires lists { ReadsBelow items_at (c.old.room + 1) (I.pre items.now) (I.post items.now) }
    requires between { ReadsMarksBelow lines_at (c.old.room + 1) (L.pre lines.now) (L.post lines.now) }
    requires words { ReadsBelow word_at (c.old.room + 1) (W.pre word.now) (W.post word.now) }
    ensures { ReadsMarks (compounds.clause (rules_in (inside c.old.room))) c.old result c.new }
{
    if sees_esac(c) {
        return Err(LexErr::NoParse);
    }
    let start = c.here();
    let (first, others) = patterns(c, word)?;
    let found = or_back!(c, start, items(c));
    let Some(end) = clause_end(c) else {
        c.back_to(start);
        return Err(LexErr::NoParse);
    };
    or_back!(c, start, lines(c));
    Ok(Clause {
        first,
        others,
        items: found,
        end,
    })
}

#[tactic(auto, using(bash_cursor::proofs::Turns::turn_go, bash_cursor::proofs::Turns::turn_no, bash_cursor::proofs::Turns::turn_deep, bash_cursor::proofs::Turns::turn_out))]
fn clauses<
    I: Fn(&mut Cursor<'_>) -> Result<Items, LexErr>,
    L: Fn(&mut Cursor<'_>) -> Result<(), LexErr>,
    W: Fn(&mut Cursor<'_>) -> Result<Word, LexErr>,
>(c: &mut Cursor<'_>, items: &I, lines: &L, word: &W) -> Result<List<Clause>, LexErr>
    requires lists { ReadsBelow items_at (c.old.room + 1) (I.pre items.now) (I.post items.now) }
    requires between { ReadsMarksBelow lines_at (c.old.room + 1) (L.pre lines.now) (L.post lines.now) }
    requires words { ReadsBelow word_at (c.old.room + 1) (W.pre word.now) (W.post word.now) }
    ensures { ReadsMarks (many (compounds.clause (rules_in (inside c.old.room)))) c.old result c.new }
{
    repeat_marks!(c, clause(c, items, lines, word))
}

// `case`, the word, and `in`, with the lines round it.
#[tactic(auto, unfolding(crate::specs::Forms::case_head))]
fn case_head<
    L: Fn(&mut Cursor<'_>) -> Result<(), LexErr>,
    W: Fn(&mut Cursor<'_>) -> Result<Word, LexErr>,
>(c: &mut Cursor<'_>, lines: &L, word: &W) -> Result<Word, LexErr>
    requires between { ReadsMarksBelow lines_at (c.old.room + 1) (L.pre lines.now) (L.post lines.now) }
    requires words { ReadsBelow word_at (c.old.room + 1) (W.pre word.now) (W.post word.now) }
    ensures { ReadsMarks (case_head (rules_in (inside c.old.room))) c.old result c.new }
{
    let saved = c.save()?;
    reserved_word(c, b"case")?;
    c.blanks();
    let found = or_restore!(c, saved, word(c));
    or_restore!(c, saved, lines(c));
    or_restore!(c, saved, reserved_word(c, b"in"));
    or_restore!(c, saved, lines(c));
    Ok(found)
}

#[tactic(auto, using(crate::proofs::Forms::case_is))]
fn case_command<
    I: Fn(&mut Cursor<'_>) -> Result<Items, LexErr>,
    L: Fn(&mut Cursor<'_>) -> Result<(), LexErr>,
    W: Fn(&mut Cursor<'_>) -> Result<Word, LexErr>,
>(c: &mut Cursor<'_>, items: &I, lines: &L, word: &W) -> Result<Compound, LexErr>
    requires lists { ReadsBelow items_at (c.old.room + 1) (I.pre items.now) (I.post items.now) }
    requires between { ReadsMarksBelow lines_at (c.old.room + 1) (L.pre lines.now) (L.post lines.now) }
    requires words { ReadsBelow word_at (c.old.room + 1) (W.pre word.now) (W.post word.now) }
    ensures { ReadsMarks (compounds.case_command (rules_in (inside c.old.room))) c.old result c.new }
{
    let saved = c.save()?;
    let head = case_head(c, lines, word)?;
    let found = or_restore!(c, saved, clauses(c, items, lines, word));
    must_or_restore!(c, saved, c.keyword(b"esac"));
    Ok(Compound::Case(head, found))
}

// `[[ .. ]]`
#[tactic(auto, using(crate::proofs::Tests::test_is))]
fn test_command<
    L: Fn(&mut Cursor<'_>) -> Result<(), LexErr>,
    O: Fn(&mut Cursor<'_>) -> Result<Or, LexErr>,
>(c: &mut Cursor<'_>, lines: &L, condition: &O) -> Result<Compound, LexErr>
    requires between { ReadsMarksBelow lines_at (c.old.room + 1) (L.pre lines.now) (L.post lines.now) }
    requires conditions { ReadsMarksBelow or_lines_at (c.old.room + 1) (O.pre condition.now) (O.post condition.now) }
    ensures { ReadsMarks (compounds.test_command (rules_in (inside c.old.room))) c.old result c.new }
{
    let saved = c.save()?;
    reserved_word(c, b"[[")?;
    or_restore!(c, saved, lines(c));
    let found = or_restore!(c, saved, condition(c));
    or_restore!(c, saved, reserved_word(c, b"]]"));
    Ok(Compound::Test(found))
}

/// `case` or `[[`, whose nesting is open: the commands of a clause are read by `items`, words by `word`, a condition and
/// the lines after it by `condition`, and what else may stand between these by `lines`.
///
/// # Errors
/// `NoParse` exactly where none of these stands at the place, `TooDeep` exactly where reading it opens more nestings than
/// may be open, `Memory` where there is no room for it. The cursor, with its here-documents, is as it was then.
#[tactic(auto, unfolding(crate::specs::Forms::choices))]
pub fn choices_of<
    I: Fn(&mut Cursor<'_>) -> Result<Items, LexErr>,
    L: Fn(&mut Cursor<'_>) -> Result<(), LexErr>,
    W: Fn(&mut Cursor<'_>) -> Result<Word, LexErr>,
    O: Fn(&mut Cursor<'_>) -> Result<Or, LexErr>,
>(c: &mut Cursor<'_>, items: &I, lines: &L, word: &W, condition: &O) -> Result<Compound, LexErr>
    requires lists { ReadsBelow items_at (c.old.room + 1) (I.pre items.now) (I.post items.now) }
    requires between { ReadsMarksBelow lines_at (c.old.room + 1) (L.pre lines.now) (L.post lines.now) }
    requires words { ReadsBelow word_at (c.old.room + 1) (W.pre word.now) (W.post word.now) }
    requires conditions { ReadsMarksBelow or_lines_at (c.old.room + 1) (O.pre condition.now) (O.post condition.now) }
    ensures { ReadsMarks (choices_at c.old.room) c.old result c.new }
{
    if let Some(found) = attempt!(case_command(c, items, lines, word)) {
        return Ok(found);
    }
    test_command(c, lines, condition)
}
