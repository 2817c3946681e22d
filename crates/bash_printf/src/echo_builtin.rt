ghost use Rattle.std.specs.Prelude.{◌≡◌, ◌≢◌, ◌+◌, ◌≤◌, ◌++◌, [], codes, drop, Err, IfOk, OnErr, fold};
ghost use Rattle.std.specs.List.{join_with_byte, list_all};
ghost use Rattle.printf_format.specs.Fields.{shown};
ghost use Rattle.shell_state.specs.Outcome.{Tells};
ghost use Rattle.shell_state.specs.Spending.{left};
ghost use Rattle.shell_state.specs.State.{State};
ghost use Rattle.bash_printf.specs.Echo.{echo as echoes, echoed, is_letter as is_letter_of, is_option as is_option_of, line as line_of, meant as meant_by, operands, options as options_read, options_from, with_letter, with_word};

use crate::output::judge;
use eb_bytes::{Budget, Bytes, Memory, Steps};
use printf_format::{Ending, Spelled, put_shown, spell};
use shell_state::{Io, Stop};
use std::alloc::Global;
use std::sync::ledger::Ledger;

/// The options of `echo`.
#[doc(hidden)]
#[derive(Clone, Copy)]
pub struct Options {
    /// Whether a newline is printed at the end: not with `-n`.
    pub newline: bool,
    /// Whether the words have escapes: with `-e`.
    pub escapes: bool,
}

/// `echo`: prints its words joined by blanks, and a newline (Bash Reference Manual, "Bash Builtin Commands"). The
/// options `-n`, `-e` and `-E`, joined or apart, stand before the words. It answers the status 0. What is printed costs
/// its bytes and 1, divided by 64, also where it goes nowhere.
///
/// # Errors
/// `Unsupported` with `quoting` where an escape `\u` or `\U` is met; `StepsSpent`; `ValueSize` where a command
/// substitution would capture more than 1,048,576 bytes; and `Memory`. Nothing was printed then.
#[tactic(auto, unfolding(crate::specs::Echo::echo), using(crate::proofs::Told::told_ok, crate::proofs::Told::told_err, crate::proofs::Told::told_fault, crate::proofs::Told::told_left))]
pub fn echo<L: Ledger>(
    alloc: Global,
    words: &[Bytes],
    io: &mut Io,
    budget: &mut Budget,
    steps: &mut Steps<L>,
) -> Result<u8, Stop>
    ensures means { (at : State) → at.io ≡ io.old → at.left ≡ left budget.old →
        Tells result (echoes words.now at) (record at { io = io.new; left = left budget.new }) }
    ensures no_file { result ≢ Err Stop.Failed }
    ensures unprinted { OnErr result (io.new ≡ io.old) }
    ensures limit { budget.new.limit ≡ budget.old.limit }
    ensures used { budget.old.used ≤ budget.new.used }
    ensures ticks { steps.new + budget.old.used ≡ steps.old + budget.new.used }
{
    let echoed = echoed(alloc, words)?;
    judge(alloc, b"echo", echoed.ending)?;
    io.print(echoed.text.as_slice(), budget, steps)?;
    Ok(0)
}

// What it prints.
fn echoed(alloc: Global, words: &[Bytes]) -> Result<Spelled, Memory>
    ensures text { IfOk result (λ s. s.text ≡ (echoed words.now).text) }
    ensures ending { IfOk result (λ s. s.ending ≡ (echoed words.now).ending) }
{
    let (options, words) = read_options(words);
    let line = line(alloc, options.newline, words)?;
    meant(alloc, options.escapes, line)
}

// The options, and the words after them.
fn read_options(words: &[Bytes]) -> (Options, &[Bytes])
    ensures options { result.0 ≡ options_read words.now }
    ensures rest { result.1.now ≡ operands words.now }
{
    let mut options = Options {
        newline: true,
        escapes: false,
    };
    for (index, word) in words.iter().enumerate() {
        if !is_option(word.as_slice()) {
            return (options, &words[index..]);
        }
        options = with_word(options, word.as_slice());
    }
    (options, &[])
}

fn is_option(word: &[u8]) -> bool
    ensures { result ≡ is_option_of word.now }
{
    match word {
        [b'-', letters @ ..] => !letters.is_empty() && are_letters(letters),
        _ => false,
    }
}

fn are_letters(text: &[u8]) -> bool
    ensures { result ≡ list_all is_letter_of text.now }
{
    text.iter().all(|byte| is_letter(*byte))
}

fn is_letter(byte: u8) -> bool
    ensures { result ≡ is_letter_of byte }
{
    matches!(byte, b'n' | b'e' | b'E')
}

// With the letters of an option.
fn with_word(options: Options, word: &[u8]) -> Options
    ensures { result ≡ with_word options word.now }
{
    with_letters(options, after_first(word))
}

fn with_letters(options: Options, letters: &[u8]) -> Options
    ensures { result ≡ fold with_letter options letters.now }
{
    let mut options = options;
    for letter in letters {
        options = with_letter(options, *letter);
    }
    options
}

fn after_first(word: &[u8]) -> &[u8]
    ensures { result.now ≡ drop 1 word.now }
{
    match word {
        [] => word,
        [_, rest @ ..] => rest,
    }
}

fn with_letter(options: Options, letter: u8) -> Options
    ensures { result ≡ with_letter options letter }
{
    if letter == b'n' {
        Options {
            newline: false,
            ..options
        }
    } else {
        Options {
            escapes: letter == b'e',
            ..options
        }
    }
}

// Words joined by blanks, and a newline.
fn line(alloc: Global, newline: bool, words: &[Bytes]) -> Result<Bytes, Memory>
    ensures { IfOk result (λ text. text ≡ line_of newline words.now) }
{
    let mut line = joined(alloc, words)?;
    if newline {
        line.extend(b"\n")?;
    }
    Ok(line)
}

fn joined(alloc: Global, words: &[Bytes]) -> Result<Bytes, Memory>
    ensures { IfOk result (λ text. text ≡ join_with_byte 32 words.now) }
{
    let [first, others @ ..] = words else {
        return Ok(Bytes::new(alloc));
    };
    let mut joined = first.copy(alloc)?;
    for word in others {
        joined.extend(b" ")?;
        joined.extend(word.as_slice())?;
    }
    Ok(joined)
}

// What a line stands for.
fn meant(alloc: Global, escapes: bool, line: Bytes) -> Result<Spelled, Memory>
    ensures text { IfOk result (λ s. s.text ≡ (meant_by escapes line).text) }
    ensures ending { IfOk result (λ s. s.ending ≡ (meant_by escapes line).ending) }
{
    if !escapes {
        return Ok(Spelled {
            text: line,
            ending: Ending::Through,
        });
    }
    let spelled = spell(alloc, line.as_slice())?;
    Ok(Spelled {
        text: without_nul(alloc, spelled.text.as_slice())?,
        ending: spelled.ending,
    })
}

fn without_nul(alloc: Global, text: &[u8]) -> Result<Bytes, Memory>
    ensures { IfOk result (λ left. left ≡ shown text.now) }
{
    let mut left = Bytes::new(alloc);
    put_shown(&mut left, text)?;
    Ok(left)
}
