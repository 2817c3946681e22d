ghost use Rattle.std.specs.Prelude.{◌≡◌, ◌≤◌, ◌<◌, ℕ, suc, length, IfSome};
ghost use Rattle.std.specs.Option.{option_map};
ghost use Rattle.bash_cond.specs.Reading.{read_of, verdict_of};
ghost use Rattle.bash_cond.specs.Verdict.{Gives};
ghost use Rattle.bash_cond.specs.Words.{and_in, closed as closed_of, group as group_of, not_in, or_in, prim as prim_of, rules, truth, whole as whole_of};

use crate::test_words::{Answer, Read, behind, binary_at, lone, unary_at};
use eb_bytes::Bytes;
use shell_state::{Fault, Stop};
use shell_vars::Vars;
use std::alloc::Global;

// and ("-o" or)?
#[cycle(words)]
fn or_words<'a>(words: &'a [Bytes], vars: &Vars) -> Read<'a>
    requires { 0 < length words.now }
    ensures means { (n : ℕ) → length words.now ≤ suc n → read_of result ≡ or_in vars.now.present (rules vars.now.present n) words.now }
    ensures shorter { length result.rest.now < length words.now }
{
    let first = and_words(words, vars);
    match behind(b"-o", first.rest) {
        Some(rest) => {
            let second = or_words(rest, vars);
            let value = first.value.or(second.value);
            Read {
                value,
                rest: second.rest,
            }
        }
        None => first,
    }
}

// not ("-a" and)?
#[cycle(words)]
fn and_words<'a>(words: &'a [Bytes], vars: &Vars) -> Read<'a>
    requires { 0 < length words.now }
    ensures means { (n : ℕ) → length words.now ≤ suc n → read_of result ≡ and_in vars.now.present (rules vars.now.present n) words.now }
    ensures shorter { length result.rest.now < length words.now }
{
    let first = not_words(words, vars);
    match behind(b"-a", first.rest) {
        Some(rest) => {
            let second = and_words(rest, vars);
            let value = first.value.and(second.value);
            Read {
                value,
                rest: second.rest,
            }
        }
        None => first,
    }
}

// "!" not / prim
#[cycle(words)]
fn not_words<'a>(words: &'a [Bytes], vars: &Vars) -> Read<'a>
    requires { 0 < length words.now }
    ensures means { (n : ℕ) → length words.now ≤ suc n → read_of result ≡ not_in vars.now.present (rules vars.now.present n) words.now }
    ensures shorter { length result.rest.now < length words.now }
{
    match behind(b"!", words) {
        Some(rest) => {
            let read = not_words(rest, vars);
            let value = read.value.negated();
            Read {
                value,
                rest: read.rest,
            }
        }
        None => prim(words, vars),
    }
}

// word binary word / unary word / "(" or ")" / word
#[cycle(words)]
fn prim<'a>(words: &'a [Bytes], vars: &Vars) -> Read<'a>
    requires { 0 < length words.now }
    ensures means { (n : ℕ) → length words.now ≤ suc n → read_of result ≡ prim_of vars.now.present (rules vars.now.present n) words.now }
    ensures shorter { length result.rest.now < length words.now }
{
    if let Some(read) = binary_at(words) {
        return read;
    }
    if let Some(read) = unary_at(words, vars) {
        return read;
    }
    if let Some(read) = group(words, vars) {
        return read;
    }
    lone(words)
}

// "(" or ")"
#[cycle(words)]
fn group<'a>(words: &'a [Bytes], vars: &Vars) -> Option<Read<'a>>
    ensures means { (n : ℕ) → length words.now ≤ suc n → option_map read_of result ≡ group_of (rules vars.now.present n).or_rule words.now }
    ensures shorter { IfSome result (λ read. length read.rest.now < length words.now) }
{
    match behind(b"(", words) {
        Some(rest) => {
            let read = or_words(rest, vars);
            closed(read)
        }
        None => None,
    }
}

// ")" after what was read.
fn closed<'a>(read: Read<'a>) -> Option<Read<'a>>
    ensures means { option_map read_of result ≡ closed_of (verdict_of read.entry.value) read.entry.rest.now }
    ensures shorter { IfSome result (λ closed. length closed.rest.now < length read.entry.rest.now) }
{
    match read.rest {
        [word, rest @ ..] => {
            if word.as_slice() == b")".as_slice() {
                Some(Read {
                    value: read.value,
                    rest,
                })
            } else {
                None
            }
        }
        [] => None,
    }
}

// What an answer is to a script.
fn told(alloc: Global, answer: Answer<'_>) -> Result<bool, Stop>
    ensures { Gives result (verdict_of answer.entry) }
{
    let fault = match answer {
        Answer::Is(value) => return Ok(value),
        Answer::Unread(word) => Fault::BadTest(Bytes::from_slice(alloc, word)?),
        Answer::NoName(word) => Fault::BadName(Bytes::from_slice(alloc, word)?),
        Answer::Refused(name) => Fault::Unsupported(Bytes::from_slice(alloc, name)?),
        Answer::OfFile(operator) => Fault::FileTest(Bytes::from_slice(alloc, operator)?),
    };
    Err(Stop::Fault(fault))
}

// Where a word is not read, the first of them is at fault.
fn whole<'a>(read: Read<'a>) -> Answer<'a>
    ensures { verdict_of result ≡ whole_of (verdict_of read.entry.value) read.entry.rest.now }
{
    match read.rest {
        [word, ..] => Answer::Unread(word.as_slice()),
        [] => read.value,
    }
}

/// The truth of the words of `test`, or of `[` without its `]` (Bash Reference Manual, "Bourne Shell Builtins", `test`). All
/// are read before anything is asked, by these rules, whose choices are tried as they are written:
///
///     or   <- and ("-o" and)*
///     and  <- not ("-a" not)*
///     not  <- "!" not / prim
///     prim <- word binary word / unary word / "(" or ")" / word
///
/// No word is false, and a lone word is true where it is not empty. A side that `-a` or `-o` does not need is not asked.
///
/// # Errors
/// `BadTest` with the first word that is not read, or with a text that is no number where a number is compared; `FileTest`
/// with an operator on files, or a unary word other than `-z`, `-n` and `-v`; `BadName` where `-v` has no name;
/// `Unsupported` where it has the name of a variable whose value a shell makes up; and `Memory`.
pub fn test_args(alloc: Global, args: &[Bytes], vars: &Vars) -> Result<bool, Stop>
    ensures { Gives result (truth vars.now.present args.now) }
{
    match args {
        [] => Ok(false),
        _ => some_args(alloc, args, vars),
    }
}

// The truth of words, of which there are some.
fn some_args(alloc: Global, args: &[Bytes], vars: &Vars) -> Result<bool, Stop>
    requires { 0 < length args.now }
    ensures { Gives result (truth vars.now.present args.now) }
{
    let read = or_words(args, vars);
    told(alloc, whole(read))
}
