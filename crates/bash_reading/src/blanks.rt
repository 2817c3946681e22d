//! Blanks (Bash Reference Manual, "Definitions": blank).

ghost use Rattle.bash_cursor.specs.Reads.{Stands};
ghost use Rattle.bash_reading.specs.Marks.{SkipsIf};
ghost use Rattle.eb_grammar.specs.Names as names;

use bash_cursor::Cursor;

/// Whether a blank stands at the place.
#[tactic(auto, unfolding(eb_grammar::specs::Names::blank, eb_grammar::specs::Peg::word_of))]
pub fn sees_blank(c: &Cursor<'_>) -> bool
    ensures { Stands names.blank c.now result }
{
    c.sees(b" ") || c.sees(b"\t") || c.sees(b"\\\n")
}

/// Goes past all blanks at the place, and says whether one stands there.
#[tactic(auto, using(crate::proofs::SkipsAfter::blanks_after), unfolding(eb_grammar::specs::Names::some_blanks))]
pub fn some_blanks(c: &mut Cursor<'_>) -> bool
    ensures { SkipsIf names.some_blanks c.old result c.new }
{
    match c.blank() {
        Some(_) => {
            c.blanks();
            true
        }
        None => false,
    }
}
