//! Compound commands (Bash Reference Manual, "Compound Commands").

ghost use Rattle.std.specs.Prelude.{◌+◌};
ghost use Rattle.bash_cursor.specs.Reads.{Eats, ReadsBelow, ReadsMarks};
ghost use Rattle.bash_compounds.specs.Forms.{choices_at, groups_at, if_at, loops_at};
ghost use Rattle.bash_reading.specs.At.{compound_at};
ghost use Rattle.bash_reading.specs.Marks.{ReadsMarksBelow};
ghost use Rattle.eb_grammar.specs.Compounds as compounds;
ghost use Rattle.eb_grammar.specs.Grammar.{inside, rules_in};

use bash_cursor::{Cursor, LexErr, or_back};
use bash_reading::attempt;
use eb_syntax::Compound;

// Goes past what a compound command begins with, and says whether one begins at the place.
#[tactic(auto, unfolding(eb_grammar::specs::Compounds::compound_start))]
fn compound_start(c: &mut Cursor<'_>) -> bool
    ensures { Eats compounds.compound_start c.old result c.new }
{
    c.keyword(b"{")
        || c.eat(b"(")
        || c.keyword(b"if")
        || c.keyword(b"while")
        || c.keyword(b"until")
        || c.keyword(b"for")
        || c.keyword(b"select")
        || c.keyword(b"case")
        || c.keyword(b"[[")
}

// The forms of a compound command, whose nesting is open.
#[tactic(auto, using(crate::proofs::Forms::forms_are))]
fn compound_forms<
    G: Fn(&mut Cursor<'_>) -> Result<Compound, LexErr>,
    F: Fn(&mut Cursor<'_>) -> Result<Compound, LexErr>,
    L: Fn(&mut Cursor<'_>) -> Result<Compound, LexErr>,
    C: Fn(&mut Cursor<'_>) -> Result<Compound, LexErr>,
>(c: &mut Cursor<'_>, group: &G, if_form: &F, looped: &L, choice: &C) -> Result<Compound, LexErr>
    requires groups { ReadsBelow groups_at (c.old.room + 1) (G.pre group.now) (G.post group.now) }
    requires ifs { ReadsBelow if_at (c.old.room + 1) (F.pre if_form.now) (F.post if_form.now) }
    requires loops { ReadsMarksBelow loops_at (c.old.room + 1) (L.pre looped.now) (L.post looped.now) }
    requires choices { ReadsMarksBelow choices_at (c.old.room + 1) (C.pre choice.now) (C.post choice.now) }
    ensures { ReadsMarks (compounds.compound_forms (rules_in (inside c.old.room))) c.old result c.new }
{
    if let Some(found) = attempt!(group(c)) {
        return Ok(found);
    }
    if let Some(found) = attempt!(if_form(c)) {
        return Ok(found);
    }
    if let Some(found) = attempt!(looped(c)) {
        return Ok(found);
    }
    choice(c)
}

/// A compound command: its forms are read by `group`, `if_form`, `looped` and `choice` (`groups_of`, `if_of`, `loops_of`
/// and `choices_of`).
///
/// # Errors
/// `NoParse` exactly where none stands at the place, `TooDeep` exactly where reading it opens more nestings than may be
/// open, `Memory` where there is no room for it. The cursor, with its here-documents, is as it was then.
#[tactic(auto, using(bash_cursor::proofs::Nesting::nest_first_err, bash_cursor::proofs::Nesting::nest_first_deep, bash_cursor::proofs::Nesting::nest_first_in), unfolding(eb_grammar::specs::Compounds::compound))]
pub fn compound_of<
    G: Fn(&mut Cursor<'_>) -> Result<Compound, LexErr>,
    F: Fn(&mut Cursor<'_>) -> Result<Compound, LexErr>,
    L: Fn(&mut Cursor<'_>) -> Result<Compound, LexErr>,
    C: Fn(&mut Cursor<'_>) -> Result<Compound, LexErr>,
>(c: &mut Cursor<'_>, group: &G, if_form: &F, looped: &L, choice: &C) -> Result<Compound, LexErr>
    requires groups { ReadsBelow groups_at c.old.room (G.pre group.now) (G.post group.now) }
    requires ifs { ReadsBelow if_at c.old.room (F.pre if_form.now) (F.post if_form.now) }
    requires loops { ReadsMarksBelow loops_at c.old.room (L.pre looped.now) (L.post looped.now) }
    requires choices { ReadsMarksBelow choices_at c.old.room (C.pre choice.now) (C.post choice.now) }
    ensures { ReadsMarks (compound_at c.old.room) c.old result c.new }
{
    let front = c.here();
    if !compound_start(c) {
        return Err(LexErr::NoParse);
    }
    c.back_to(front);
    let start = c.here();
    c.enter()?;
    let found = or_back!(c, start, compound_forms(c, group, if_form, looped, choice));
    c.leave();
    Ok(found)
}
