//! Loops (Bash Reference Manual, "Looping Constructs"), and `select` ("Conditional Constructs").

ghost use Rattle.std.specs.Prelude.{◌+◌};
ghost use Rattle.bash_cursor.specs.Reads.{Eats, Reads, ReadsBelow, ReadsMarks};
ghost use Rattle.bash_compounds.specs.Forms.{arith_head, blank_word, given_or_none, given_words, loop_end, loops_at, words_and_lines, words_end};
ghost use Rattle.bash_reading.specs.At.{arith_part_at, body_at, lines_at, word_at};
ghost use Rattle.bash_reading.specs.Marks.{ReadsMarksBelow, mapped};
ghost use Rattle.eb_grammar.specs.Compounds as compounds;
ghost use Rattle.eb_grammar.specs.Grammar.{inside, rules_in};
ghost use Rattle.eb_grammar.specs.Peg.{many};

use bash_cursor::{Cursor, LexErr, name, or_back};
use bash_reading::{attempt, may_eat, must, or_restore, put, reserved_word};
use eb_grammar::Class;
use eb_syntax::{ArithText, Body, Compound, Name, Word};
use sqlite_items::Items as List;

// `do .. done`
#[tactic(auto, unfolding(eb_grammar::specs::Compounds::do_done))]
fn do_done<B: Fn(&mut Cursor<'_>) -> Result<Body, LexErr>>(
    c: &mut Cursor<'_>,
    body: &B,
) -> Result<Body, LexErr>
    requires { ReadsBelow body_at (c.old.room + 1) (B.pre body.now) (B.post body.now) }
    ensures { Reads (compounds.do_done (rules_in (inside c.old.room))) c.old result c.new }
{
    let start = c.here();
    reserved_word(c, b"do")?;
    let found = or_back!(c, start, body(c));
    or_back!(c, start, reserved_word(c, b"done"));
    Ok(found)
}

#[tactic(auto, unfolding(eb_grammar::specs::Compounds::while_loop))]
fn while_loop<B: Fn(&mut Cursor<'_>) -> Result<Body, LexErr>>(
    c: &mut Cursor<'_>,
    body: &B,
) -> Result<Compound, LexErr>
    requires { ReadsBelow body_at (c.old.room + 1) (B.pre body.now) (B.post body.now) }
    ensures { Reads (compounds.while_loop (rules_in (inside c.old.room))) c.old result c.new }
{
    let start = c.here();
    reserved_word(c, b"while")?;
    let test = or_back!(c, start, body(c));
    let found = or_back!(c, start, do_done(c, body));
    Ok(Compound::While(test, found))
}

#[tactic(auto, unfolding(eb_grammar::specs::Compounds::until_loop))]
fn until_loop<B: Fn(&mut Cursor<'_>) -> Result<Body, LexErr>>(
    c: &mut Cursor<'_>,
    body: &B,
) -> Result<Compound, LexErr>
    requires { ReadsBelow body_at (c.old.room + 1) (B.pre body.now) (B.post body.now) }
    ensures { Reads (compounds.until_loop (rules_in (inside c.old.room))) c.old result c.new }
{
    let start = c.here();
    reserved_word(c, b"until")?;
    let test = or_back!(c, start, body(c));
    let found = or_back!(c, start, do_done(c, body));
    Ok(Compound::Until(test, found))
}

// The expressions of `for ((`, up to `))`.
#[tactic(auto, unfolding(crate::specs::Forms::arith_head))]
fn arith_head<P: Fn(&mut Cursor<'_>) -> Result<ArithText, LexErr>>(
    c: &mut Cursor<'_>,
    arith_part: &P,
) -> Result<(ArithText, ArithText, ArithText), LexErr>
    requires { ReadsBelow arith_part_at (c.old.room + 1) (P.pre arith_part.now) (P.post arith_part.now) }
    ensures { Reads (arith_head (rules_in (inside c.old.room))) c.old (mapped (λ x. record { first = x.0; test = x.1; next = x.2 }) result) c.new }
{
    let start = c.here();
    let first = arith_part(c)?;
    or_back!(c, start, c.literal(b";"));
    let test = or_back!(c, start, arith_part(c));
    or_back!(c, start, c.literal(b";"));
    let next = or_back!(c, start, arith_part(c));
    or_back!(c, start, c.literal(b"))"));
    Ok((first, test, next))
}

// What stands after the expressions of `for ((`.
#[tactic(auto, unfolding(crate::specs::Forms::loop_end))]
fn loop_end<
    B: Fn(&mut Cursor<'_>) -> Result<Body, LexErr>,
    L: Fn(&mut Cursor<'_>) -> Result<(), LexErr>,
>(c: &mut Cursor<'_>, body: &B, lines: &L) -> Result<Body, LexErr>
    requires bodies { ReadsBelow body_at (c.old.room + 1) (B.pre body.now) (B.post body.now) }
    requires between { ReadsMarksBelow lines_at (c.old.room + 1) (L.pre lines.now) (L.post lines.now) }
    ensures { ReadsMarks (loop_end (rules_in (inside c.old.room))) c.old result c.new }
{
    let saved = c.save()?;
    c.blanks();
    may_eat(c, b";");
    or_restore!(c, saved, lines(c));
    Ok(or_restore!(c, saved, do_done(c, body)))
}

#[tactic(auto, using(crate::proofs::Forms::arith_for_is))]
fn arith_for<
    B: Fn(&mut Cursor<'_>) -> Result<Body, LexErr>,
    L: Fn(&mut Cursor<'_>) -> Result<(), LexErr>,
    P: Fn(&mut Cursor<'_>) -> Result<ArithText, LexErr>,
>(c: &mut Cursor<'_>, body: &B, lines: &L, arith_part: &P) -> Result<Compound, LexErr>
    requires bodies { ReadsBelow body_at (c.old.room + 1) (B.pre body.now) (B.post body.now) }
    requires between { ReadsMarksBelow lines_at (c.old.room + 1) (L.pre lines.now) (L.post lines.now) }
    requires texts { ReadsBelow arith_part_at (c.old.room + 1) (P.pre arith_part.now) (P.post arith_part.now) }
    ensures { ReadsMarks (compounds.arith_for (rules_in (inside c.old.room))) c.old result c.new }
{
    let start = c.here();
    reserved_word(c, b"for")?;
    c.blanks();
    or_back!(c, start, c.literal(b"(("));
    let (first, test, next) = or_back!(c, start, arith_head(c, arith_part));
    let found = or_back!(c, start, loop_end(c, body, lines));
    Ok(Compound::ForArith(first, test, next, found))
}

fn blank_word<W: Fn(&mut Cursor<'_>) -> Result<Word, LexErr>>(
    c: &mut Cursor<'_>,
    word: &W,
) -> Result<Word, LexErr>
    requires { ReadsBelow word_at (c.old.room + 1) (W.pre word.now) (W.post word.now) }
    ensures { Reads (blank_word (rules_in (inside c.old.room))) c.old result c.new }
{
    let start = c.here();
    c.blanks();
    Ok(or_back!(c, start, word(c)))
}

#[tactic(auto, using(bash_cursor::proofs::Turns::turn_go, bash_cursor::proofs::Turns::turn_no, bash_cursor::proofs::Turns::turn_deep, bash_cursor::proofs::Turns::turn_out))]
fn blank_words<W: Fn(&mut Cursor<'_>) -> Result<Word, LexErr>>(
    c: &mut Cursor<'_>,
    word: &W,
) -> Result<List<Word>, LexErr>
    requires { ReadsBelow word_at (c.old.room + 1) (W.pre word.now) (W.post word.now) }
    ensures { Reads (many (blank_word (rules_in (inside c.old.room)))) c.old result c.new }
{
    repeat!(c, blank_word(c, word))
}

// What ends the words of a loop, and says whether it stands at the place.
fn words_end(c: &mut Cursor<'_>) -> bool
    ensures { Eats words_end c.old result c.new }
{
    c.eat(b";") || c.sees_byte(Class::LineEnd)
}

// `in` and the words after it.
#[tactic(auto, unfolding(crate::specs::Forms::given_words))]
fn given_words<W: Fn(&mut Cursor<'_>) -> Result<Word, LexErr>>(
    c: &mut Cursor<'_>,
    word: &W,
) -> Result<List<Word>, LexErr>
    requires { ReadsBelow word_at (c.old.room + 1) (W.pre word.now) (W.post word.now) }
    ensures { Reads (given_words (rules_in (inside c.old.room))) c.old result c.new }
{
    let start = c.here();
    reserved_word(c, b"in")?;
    let words = or_back!(c, start, blank_words(c, word));
    c.blanks();
    must!(c, start, words_end(c));
    Ok(words)
}

// The same and the lines after it; where no words are given, nothing.
#[tactic(auto, unfolding(crate::specs::Forms::given_or_none))]
fn given_or_none<
    L: Fn(&mut Cursor<'_>) -> Result<(), LexErr>,
    W: Fn(&mut Cursor<'_>) -> Result<Word, LexErr>,
>(c: &mut Cursor<'_>, lines: &L, word: &W) -> Result<Option<List<Word>>, LexErr>
    requires between { ReadsMarksBelow lines_at (c.old.room + 1) (L.pre lines.now) (L.post lines.now) }
    requires words { ReadsBelow word_at (c.old.room + 1) (W.pre word.now) (W.post word.now) }
    ensures { ReadsMarks (given_or_none (rules_in (inside c.old.room))) c.old result c.new }
{
    let start = c.here();
    let Some(words) = attempt!(given_words(c, word)) else {
        return Ok(None);
    };
    or_back!(c, start, lines(c));
    Ok(Some(words))
}

// The words of a loop, or the semicolon in their place, with the lines before and after. Lines are read once, whatever
// stands after them.
#[tactic(auto, using(crate::proofs::LoopWords::words_some))]
fn words_and_lines<
    L: Fn(&mut Cursor<'_>) -> Result<(), LexErr>,
    W: Fn(&mut Cursor<'_>) -> Result<Word, LexErr>,
>(c: &mut Cursor<'_>, lines: &L, word: &W) -> Result<Option<List<Word>>, LexErr>
    requires between { ReadsMarksBelow lines_at (c.old.room + 1) (L.pre lines.now) (L.post lines.now) }
    requires words { ReadsBelow word_at (c.old.room + 1) (W.pre word.now) (W.post word.now) }
    ensures { ReadsMarks (words_and_lines c.old.room) c.old result c.new }
{
    let start = c.here();
    c.blanks();
    if c.eat(b";") {
        or_back!(c, start, lines(c));
        return Ok(None);
    }
    c.back_to(start);
    let saved = c.save()?;
    lines(c)?;
    Ok(or_restore!(c, saved, given_or_none(c, lines, word)))
}

// What stands after `for` or `select`: the name, the words, and what is run.
#[tactic(auto, using(crate::proofs::LoopWords::loop_over_is))]
fn loop_over<
    B: Fn(&mut Cursor<'_>) -> Result<Body, LexErr>,
    L: Fn(&mut Cursor<'_>) -> Result<(), LexErr>,
    W: Fn(&mut Cursor<'_>) -> Result<Word, LexErr>,
>(
    c: &mut Cursor<'_>,
    body: &B,
    lines: &L,
    word: &W,
) -> Result<(Name, Option<List<Word>>, Body), LexErr>
    requires bodies { ReadsBelow body_at (c.old.room + 1) (B.pre body.now) (B.post body.now) }
    requires between { ReadsMarksBelow lines_at (c.old.room + 1) (L.pre lines.now) (L.post lines.now) }
    requires words { ReadsBelow word_at (c.old.room + 1) (W.pre word.now) (W.post word.now) }
    ensures { ReadsMarks (compounds.loop_over (rules_in (inside c.old.room))) c.old (mapped (λ x. record { name = x.0; words = x.1; body = x.2 }) result) c.new }
{
    let saved = c.save()?;
    c.blanks();
    let called = or_restore!(c, saved, name(c));
    let words = or_restore!(c, saved, words_and_lines(c, lines, word));
    let found = or_restore!(c, saved, do_done(c, body));
    Ok((called, words, found))
}

#[tactic(auto, unfolding(eb_grammar::specs::Compounds::for_loop))]
fn for_loop<
    B: Fn(&mut Cursor<'_>) -> Result<Body, LexErr>,
    L: Fn(&mut Cursor<'_>) -> Result<(), LexErr>,
    W: Fn(&mut Cursor<'_>) -> Result<Word, LexErr>,
>(c: &mut Cursor<'_>, body: &B, lines: &L, word: &W) -> Result<Compound, LexErr>
    requires bodies { ReadsBelow body_at (c.old.room + 1) (B.pre body.now) (B.post body.now) }
    requires between { ReadsMarksBelow lines_at (c.old.room + 1) (L.pre lines.now) (L.post lines.now) }
    requires words { ReadsBelow word_at (c.old.room + 1) (W.pre word.now) (W.post word.now) }
    ensures { ReadsMarks (compounds.for_loop (rules_in (inside c.old.room))) c.old result c.new }
{
    let start = c.here();
    reserved_word(c, b"for")?;
    let (called, words, found) = or_back!(c, start, loop_over(c, body, lines, word));
    Ok(Compound::For(called, words, found))
}

#[tactic(auto, unfolding(eb_grammar::specs::Compounds::select_loop))]
fn select_loop<
    B: Fn(&mut Cursor<'_>) -> Result<Body, LexErr>,
    L: Fn(&mut Cursor<'_>) -> Result<(), LexErr>,
    W: Fn(&mut Cursor<'_>) -> Result<Word, LexErr>,
>(c: &mut Cursor<'_>, body: &B, lines: &L, word: &W) -> Result<Compound, LexErr>
    requires bodies { ReadsBelow body_at (c.old.room + 1) (B.pre body.now) (B.post body.now) }
    requires between { ReadsMarksBelow lines_at (c.old.room + 1) (L.pre lines.now) (L.post lines.now) }
    requires words { ReadsBelow word_at (c.old.room + 1) (W.pre word.now) (W.post word.now) }
    ensures { ReadsMarks (compounds.select_loop (rules_in (inside c.old.room))) c.old result c.new }
{
    let start = c.here();
    reserved_word(c, b"select")?;
    let (called, words, found) = or_back!(c, start, loop_over(c, body, lines, word));
    Ok(Compound::Select(called, words, found))
}

/// `while`, `until`, `for` or `select`, whose nesting is open: the commands are read by `body`, words by `word`, the
/// expressions of `for ((` by `arith_part`, and what may stand before `in` and `do` by `lines`.
///
/// # Errors
/// `NoParse` exactly where none of these stands at the place, `TooDeep` exactly where reading it opens more nestings than
/// may be open, `Memory` where there is no room for it. The cursor, with its here-documents, is as it was then.
#[tactic(auto, unfolding(crate::specs::Forms::loops))]
pub fn loops_of<
    B: Fn(&mut Cursor<'_>) -> Result<Body, LexErr>,
    L: Fn(&mut Cursor<'_>) -> Result<(), LexErr>,
    W: Fn(&mut Cursor<'_>) -> Result<Word, LexErr>,
    P: Fn(&mut Cursor<'_>) -> Result<ArithText, LexErr>,
>(c: &mut Cursor<'_>, body: &B, lines: &L, word: &W, arith_part: &P) -> Result<Compound, LexErr>
    requires bodies { ReadsBelow body_at (c.old.room + 1) (B.pre body.now) (B.post body.now) }
    requires between { ReadsMarksBelow lines_at (c.old.room + 1) (L.pre lines.now) (L.post lines.now) }
    requires words { ReadsBelow word_at (c.old.room + 1) (W.pre word.now) (W.post word.now) }
    requires texts { ReadsBelow arith_part_at (c.old.room + 1) (P.pre arith_part.now) (P.post arith_part.now) }
    ensures { ReadsMarks (loops_at c.old.room) c.old result c.new }
{
    if let Some(found) = attempt!(while_loop(c, body)) {
        return Ok(found);
    }
    if let Some(found) = attempt!(until_loop(c, body)) {
        return Ok(found);
    }
    if let Some(found) = attempt!(arith_for(c, body, lines, arith_part)) {
        return Ok(found);
    }
    if let Some(found) = attempt!(for_loop(c, body, lines, word)) {
        return Ok(found);
    }
    select_loop(c, body, lines, word)
}
