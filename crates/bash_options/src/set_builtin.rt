ghost use Rattle.std.specs.Prelude.{◌≡◌, ◌≢◌, Err, IfErr, IfOk, List, MatchOption, None, OnErr, Option, Some, find, fold, option_copied};
ghost use Rattle.eb_bytes.specs.Text.{Text};
ghost use Rattle.shell_state.specs.Outcome.{Ended, Tells};
ghost use Rattle.shell_state.specs.State.{State};
ghost use Rattle.bash_options.specs.Seen.{seen_set};
ghost use Rattle.bash_options.specs.Set.{set_options as sets, is_no_letter as is_no_letter_of, option_of, read_from, with_letter as with_letter_of};

use crate::refused::bad_option;
use eb_bytes::Bytes;
use shell_state::{Opts, Stop};
use std::alloc::Global;

/// What the words of `set` say.
#[doc(hidden)]
#[derive(Clone, Copy)]
pub enum Job<'a> {
    /// Whether `set -f` holds then, and the positional parameters that are given.
    Sets(bool, Option<&'a [Bytes]>),
    /// It has no option of this sign and this letter.
    BadLetter(u8, u8),
}

/// `set`: its options, and the words after them, which are the new positional parameters; `None` where these stay (Bash
/// Reference Manual, "The Set Builtin"). `-f` keeps fields with a pattern as they are, and `+f` ends that; `-x` and `+x`
/// have no effect. Letters may be joined. `--` ends the options, and a word that is none does.
///
/// # Errors
/// `BadOption` where it has no option of a letter, with the sign and that letter; and `Memory`. Nothing was switched then.
#[tactic(auto, unfolding(crate::specs::Set::set_options))]
pub fn set_options<'a>(
    alloc: Global,
    words: &'a [Bytes],
    opts: &mut Opts,
) -> Result<Option<&'a [Bytes]>, Stop>
    ensures means { (at : State) → at.opts ≡ opts.old →
        IfOk result (λ args. sets words.now at ≡ Ended (option_copied args) (record at { opts = opts.new })) }
    ensures error { (at : State) → at.opts ≡ opts.old →
        IfErr result (λ why. Tells {A = Option (List Text)} (Err why) (sets words.now at) at) }
    ensures no_file { IfErr result (λ why. why ≢ Stop.Failed) }
    ensures unswitched { OnErr result (opts.new ≡ opts.old) }
{
    match read_words(opts.noglob, words) {
        Job::Sets(noglob, args) => {
            opts.noglob = noglob;
            Ok(args)
        }
        Job::BadLetter(sign, letter) => Err(bad_option(alloc, b"set", &[sign, letter])),
    }
}

// Reads the options, and what stands after them.
fn read_words(noglob: bool, words: &[Bytes]) -> Job<'_>
    ensures { seen_set result ≡ read_from noglob words.now }
{
    let mut noglob = noglob;
    for (index, word) in words.iter().enumerate() {
        let word = word.as_slice();
        if word == b"--".as_slice() {
            return Job::Sets(noglob, Some(&words[index + 1..]));
        }
        let Some((sign, letters)) = option(word) else {
            return Job::Sets(noglob, Some(&words[index..]));
        };
        if let Some(letter) = unknown_letter(letters) {
            return Job::BadLetter(sign, letter);
        }
        noglob = with_letters(sign, noglob, letters);
    }
    Job::Sets(noglob, None)
}

// The sign and the letters of an option.
fn option(word: &[u8]) -> Option<(u8, &[u8])>
    ensures { MatchOption result (option_of word.now ≡ None) (λ o. option_of word.now ≡ Some (o.0, o.1.now)) }
{
    match word {
        [sign @ (b'-' | b'+'), letters @ ..] if !letters.is_empty() => Some((*sign, letters)),
        _ => None,
    }
}

// The first letter that is no option.
fn unknown_letter(letters: &[u8]) -> Option<u8>
    ensures { result ≡ find is_no_letter_of letters.now }
{
    letters.iter().copied().find(|letter| is_no_letter(*letter))
}

fn is_no_letter(letter: u8) -> bool
    ensures { result ≡ is_no_letter_of letter }
{
    !matches!(letter, b'f' | b'x')
}

fn with_letters(sign: u8, noglob: bool, letters: &[u8]) -> bool
    ensures { result ≡ fold (with_letter_of sign) noglob letters.now }
{
    let mut noglob = noglob;
    for letter in letters {
        noglob = with_letter(sign, noglob, *letter);
    }
    noglob
}

fn with_letter(sign: u8, noglob: bool, letter: u8) -> bool
    ensures { result ≡ with_letter_of sign noglob letter }
{
    if letter == b'f' { sign == b'-' } else { noglob }
}
