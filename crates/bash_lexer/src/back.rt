//! Backquotes (Bash Reference Manual, "Command Substitution").

ghost use Rattle.std.specs.Prelude.{◌≡◌, ◌+◌, ◌≤◌, ◌++◌, ◌∷◌, [], length, IfOk, MatchResult};
ghost use Rattle.bash_cursor.specs.Reads.{Reads, ReadsBelow};
ghost use Rattle.bash_lexer.specs.At.{back_at};
ghost use Rattle.bash_reading.specs.At.{items_at};
ghost use Rattle.eb_grammar.specs.Grammar.{inside, rules_in};
ghost use Rattle.eb_grammar.specs.Peg.{gather, within};
ghost use Rattle.eb_grammar.specs.Words as words;

use bash_cursor::{Cursor, LexErr, backslash, is_in, or_back, or_remember};
use bash_reading::must;
use eb_bytes::Bytes;
use eb_grammar::Class;
use eb_syntax::{Back, Items};
use grammar_laws::Nesting;

/// A command in backquotes, which is read by `items`.
#[tactic(auto, using(bash_cursor::proofs::Nesting::nest_no, bash_cursor::proofs::Nesting::nest_deep, bash_cursor::proofs::Nesting::nest_in), unfolding(eb_grammar::specs::Words::backquoted))]
pub fn back_of<I: Fn(&mut Cursor<'_>) -> Result<Items, LexErr>>(
    c: &mut Cursor<'_>,
    items: &I,
) -> Result<Back, LexErr>
    requires { ReadsBelow items_at c.old.room (I.pre items.now) (I.post items.now) }
    ensures { Reads (back_at c.old.room) c.old result c.new }
{
    nested!(c, Nesting::Backquotes, b"`", backquotes(c, items))
}

// The same, whose nesting is open. Its lines are those of the text that it stands in.
#[tactic(auto, unfolding(eb_grammar::specs::Words::backquotes))]
fn backquotes<I: Fn(&mut Cursor<'_>) -> Result<Items, LexErr>>(
    c: &mut Cursor<'_>,
    items: &I,
) -> Result<Back, LexErr>
    requires { ReadsBelow items_at (c.old.room + 1) (I.pre items.now) (I.post items.now) }
    ensures { Reads (words.backquotes (rules_in (inside c.old.room))) c.old result c.new }
{
    let start = c.here();
    c.literal(b"`")?;
    let line = c.line();
    let text = or_back!(c, start, short_text(c));
    must!(c, start, c.eat(b"`"));
    Ok(or_back!(c, start, script_in(c, text.as_slice(), line, items)))
}

// The commands that a text is, of which they take every byte.
#[tactic(auto, unfolding(eb_grammar::specs::Peg::within))]
fn script_in<I: Fn(&mut Cursor<'_>) -> Result<Items, LexErr>>(
    c: &mut Cursor<'_>,
    text: &[u8],
    line: u32,
    items: &I,
) -> Result<Items, LexErr>
    requires lines { line + length text.now ≤ 4294967295 }
    requires items { ReadsBelow items_at (c.old.room + 1) (I.pre items.now) (I.post items.now) }
    ensures { Reads (within text.now line (items_at c.old.room)) c.old result c.new }
{
    let mut inner = c.over(text, line);
    let found = items(&mut inner)?;
    if inner.at_end() {
        Ok(found)
    } else {
        Err(LexErr::NoParse)
    }
}

// What stands between backquotes, which is no longer than what it is written as.
fn short_text(c: &mut Cursor<'_>) -> Result<Bytes, LexErr>
    ensures reads { Reads (gather words.back_part) c.old result c.new }
    ensures short { IfOk result (λ text. length text ≤ length c.old.spot.rest) }
{
    let text = back_text(c)?;
    Ok(text)
}

// Puts a byte after a backslash at the end of a text. The backslash goes before `$`, a backquote and a backslash.
fn put_unescaped(text: &mut Bytes, byte: u8) -> Result<(), LexErr>
    ensures { MatchResult result (λ _. text.new ≡ text.old ++ words.unescaped byte) (λ e. e ≡ LexErr.Memory) }
{
    if is_in(Class::Unescaped, byte) {
        text.push(byte)?;
    } else {
        text.extend(&[b'\\', byte])?;
    }
    Ok(())
}

// Puts a byte at the end of a text.
fn put_byte(text: &mut Bytes, byte: u8) -> Result<(), LexErr>
    ensures { MatchResult result (λ _. text.new ≡ text.old ++ byte ∷ []) (λ e. e ≡ LexErr.Memory) }
{
    text.push(byte)?;
    Ok(())
}

// What stands between backquotes, without the backslashes that go.
#[tactic(auto, using(bash_cursor::proofs::Turns::turn_go, bash_cursor::proofs::Turns::turn_no, bash_cursor::proofs::Turns::turn_out), unfolding(eb_grammar::specs::Words::back_part))]
fn back_text(c: &mut Cursor<'_>) -> Result<Bytes, LexErr>
    ensures { Reads (gather words.back_part) c.old result c.new }
{
    let start = c.here();
    let mut text = Bytes::new(c.alloc());
    for _turn in 0..c.left() {
        if let Some(byte) = backslash(c) {
            or_back!(c, start, put_unescaped(&mut text, byte));
        } else if let Some(byte) = c.byte(Class::Back) {
            or_back!(c, start, put_byte(&mut text, byte));
        } else {
            return Ok(text);
        }
    }
    Ok(text)
}
