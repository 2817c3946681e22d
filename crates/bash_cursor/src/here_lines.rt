//! The lines of a here-document's body (Bash Reference Manual, "Here Documents").

ghost use Rattle.std.specs.Prelude.{◌≡◌, ◌≤◌, ◌==◌, true, [], ◌∷◌, ◌++◌, length, MatchOption, MatchResult};
ghost use Rattle.std.specs.List.{prefix_len};
ghost use Rattle.bash_cursor.specs.Reads.{Eats, FindsNone, FindsSome, Reads};
ghost use Rattle.eb_grammar.specs.HereDocuments as here;
ghost use Rattle.eb_grammar.specs.Peg.{gather};

use crate::cursor::Cursor;
use crate::error::LexErr;
use crate::marks::HereMark;
use eb_bytes::Bytes;
use eb_grammar::Class;

// How many tabs a line begins with.
fn tab_count(line: &[u8]) -> usize
    ensures value { result ≡ prefix_len (λ b. b == 9) line.now }
    ensures within { result ≤ length line.now }
{
    line.iter().take_while(|byte| **byte == b'\t').count()
}

// The line after the tabs that it begins with.
fn after_tabs(line: &[u8]) -> &[u8]
    ensures { result.now ≡ here.without_tabs true line.now }
{
    line.split_at(tab_count(line)).1
}

// The line without the tabs that it begins with, where these are removed.
fn without_tabs(strips: bool, line: &[u8]) -> &[u8]
    ensures { result.now ≡ here.without_tabs strips line.now }
{
    if strips { after_tabs(line) } else { line }
}

// Whether two texts are the same.
fn is_same(text: &[u8], other: &[u8]) -> bool
    ensures { result ≡ here.same_text text.now other.now }
{
    text.starts_with(other) && other.starts_with(text)
}

// Goes past a line and its newline, and gives it without the tabs that are removed. `None` at the text's end, and where
// the byte 0 stands in the line.
#[tactic(auto, unfolding(eb_grammar::specs::HereDocuments::here_line, eb_grammar::specs::Peg::end))]
fn here_line<'a>(c: &mut Cursor<'a>, mark: &HereMark) -> Option<&'a [u8]>
    ensures { MatchOption result (FindsNone (here.here_line mark.now) c.old c.new) (λ line. FindsSome (here.here_line mark.now) c.old line.now c.new) }
{
    if c.at_end() {
        return None;
    }
    let start = c.here();
    let line = c.run(Class::NotNewline);
    if !c.eat(b"\n") && !c.at_end() {
        c.back_to(start);
        return None;
    }
    Some(without_tabs(mark.strips_tabs(), line))
}

// Goes past the line that ends the body, and says whether it stands at the place.
#[tactic(auto, unfolding(eb_grammar::specs::HereDocuments::last_line))]
fn last_line(c: &mut Cursor<'_>, mark: &HereMark) -> bool
    ensures { Eats (here.last_line mark.now) c.old result c.new }
{
    let start = c.here();
    let Some(line) = here_line(c, mark) else {
        return false;
    };
    if !is_same(line, mark.delimiter()) {
        c.back_to(start);
        return false;
    }
    true
}

// Goes past a line of the body, and gives it. `None` at the line that ends the body, and where no line stands.
#[tactic(auto, unfolding(eb_grammar::specs::HereDocuments::body_line, eb_grammar::specs::HereDocuments::last_line))]
fn body_line<'a>(c: &mut Cursor<'a>, mark: &HereMark) -> Option<&'a [u8]>
    ensures { MatchOption result (FindsNone (here.body_line mark.now) c.old c.new) (λ line. FindsSome (here.body_line mark.now) c.old (line.now ++ 10 ∷ []) c.new) }
{
    let start = c.here();
    let Some(line) = here_line(c, mark) else {
        return None;
    };
    if is_same(line, mark.delimiter()) {
        c.back_to(start);
        return None;
    }
    Some(line)
}

// Puts a line and its newline at the end of a text.
fn put_line(text: &mut Bytes, line: &[u8]) -> Result<(), LexErr>
    ensures { MatchResult result (λ _. text.new ≡ text.old ++ line.now ++ 10 ∷ []) (λ e. e ≡ LexErr.Memory) }
{
    text.extend(line)?;
    text.push(b'\n')?;
    Ok(())
}

// The lines up to the one that ends the body.
#[tactic(auto, using(crate::proofs::Turns::turn_go, crate::proofs::Turns::turn_no, crate::proofs::Turns::turn_out))]
fn body_lines(c: &mut Cursor<'_>, mark: &HereMark) -> Result<Bytes, LexErr>
    ensures { Reads (gather (here.body_line mark.now)) c.old result c.new }
{
    let start = c.here();
    let mut text = Bytes::new(c.alloc());
    for _turn in 0..c.left() {
        let Some(line) = body_line(c, mark) else {
            return Ok(text);
        };
        or_back!(c, start, put_line(&mut text, line));
    }
    Ok(text)
}

/// The body of a here-document, with the line that ends it: its lines, each with a newline, without the tabs that are
/// removed.
///
/// # Errors
/// `NoParse` exactly where no line at or after the place ends it, or the byte 0 stands before that line; `Memory`
/// where there is no room for it.
#[tactic(auto, unfolding(eb_grammar::specs::HereDocuments::here_text))]
pub fn here_text(c: &mut Cursor<'_>, mark: &HereMark) -> Result<Bytes, LexErr>
    ensures { Reads (here.here_text mark.now) c.old result c.new }
{
    let start = c.here();
    let text = body_lines(c, mark)?;
    if !last_line(c, mark) {
        c.back_to(start);
        return Err(LexErr::NoParse);
    }
    Ok(text)
}
