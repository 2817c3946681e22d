ghost use Rattle.std.specs.Prelude.{◌≡◌, ◌≢◌, ◌∷◌, [], drop, filter, find, IfNone, IfOk, IfSome};
ghost use Rattle.std.specs.List.{list_any};
ghost use Rattle.std.specs.Option.{option_map};
ghost use Rattle.bash_read.specs.Options.{first_byte as first_byte_of, is_no_name, is_option as is_option_of, is_raw as is_raw_of, is_unknown, job, names as names_said, takes_word as takes_word_of, with_letters as with_letters_of, with_word as with_word_of};
ghost use Rattle.bash_read.specs.Seen.{IsWrong, seen, seen_fault, seen_options};

use byte_class::is_name;
use eb_bytes::{Bytes, Memory};
use shell_state::{Fault, Stop};
use std::alloc::Global;

/// The options of `read`.
#[doc(hidden)]
#[derive(Clone, Copy)]
pub struct Options<'a> {
    /// Whether no backslash quotes: `-r`.
    pub raw: bool,
    /// The array that takes all fields: `-a`.
    pub array: Option<&'a [u8]>,
    /// The byte that ends the line, if there is one: `-d`.
    pub delimiter: Option<u8>,
}

/// Why words are not what `read` takes.
#[doc(hidden)]
#[derive(Clone, Copy)]
pub enum Wrong<'a> {
    /// There is no word after an option that takes one.
    BadUse,
    /// This word is no name.
    BadName(&'a [u8]),
    /// There is no option of this letter.
    BadOption(u8),
}

/// What the words say.
#[doc(hidden)]
#[derive(Clone, Copy)]
pub enum Job<'a> {
    /// A line is read for these names.
    Reads(Options<'a>, &'a [Bytes]),
    /// They are at fault.
    Refused(Wrong<'a>),
}

// Reads the options and the names.
pub(crate) fn read_words(words: &[Bytes]) -> Job<'_>
    ensures { seen result ≡ job words.now }
{
    let mut options = Options {
        raw: false,
        array: None,
        delimiter: Some(b'\n'),
    };
    let mut taking: &[u8] = &[];
    for (index, word) in words.iter().enumerate() {
        let word = word.as_slice();
        if let Some((letter, others)) = next_letter(taking) {
            let Some(more) = with_word(letter, word, options) else {
                return Job::Refused(Wrong::BadName(word));
            };
            options = more;
            taking = others;
        } else if word == b"--".as_slice() {
            return named(options, &words[index + 1..]);
        } else if is_option(word) {
            let letters = after_first(word);
            if let Some(letter) = unknown(letters) {
                return Job::Refused(Wrong::BadOption(letter));
            }
            options = with_letters(letters, options);
            taking = letters;
        } else {
            return named(options, &words[index..]);
        }
    }
    match next_letter(taking) {
        Some(_) => Job::Refused(Wrong::BadUse),
        None => named(options, &[]),
    }
}

fn is_option(word: &[u8]) -> bool
    ensures { result ≡ is_option_of word.now }
{
    match word {
        [b'-', letters @ ..] => !letters.is_empty(),
        _ => false,
    }
}

fn after_first(word: &[u8]) -> &[u8]
    ensures { result.now ≡ drop 1 word.now }
{
    match word {
        [] => word,
        [_, rest @ ..] => rest,
    }
}

fn takes_word(letter: u8) -> bool
    ensures { result ≡ takes_word_of letter }
{
    matches!(letter, b'a' | b'd' | b'p')
}

// The first letter that takes a word, and the letters after it.
fn next_letter(letters: &[u8]) -> Option<(u8, &[u8])>
    ensures some { IfSome result (λ p. filter takes_word_of letters.now ≡ p.0 ∷ filter takes_word_of p.1.now) }
    ensures none { IfNone result (filter takes_word_of letters.now ≡ []) }
{
    for (index, letter) in letters.iter().enumerate() {
        if takes_word(*letter) {
            return Some((*letter, &letters[index + 1..]));
        }
    }
    None
}

// The first letter that is no option.
fn unknown(letters: &[u8]) -> Option<u8>
    ensures { result ≡ find is_unknown letters.now }
{
    letters
        .iter()
        .copied()
        .find(|letter| !matches!(*letter, b'r' | b'a' | b'd' | b'p'))
}

// With the letters of an option that take no word.
fn with_letters<'a>(letters: &[u8], options: Options<'a>) -> Options<'a>
    ensures { seen_options result ≡ with_letters_of letters.now (seen_options options.entry) }
{
    let raw = options.raw || has_raw(letters);
    Options { raw, ..options }
}

fn has_raw(letters: &[u8]) -> bool
    ensures { result ≡ list_any is_raw_of letters.now }
{
    letters.iter().any(|letter| is_raw(*letter))
}

fn is_raw(letter: u8) -> bool
    ensures { result ≡ is_raw_of letter }
{
    letter == b'r'
}

// With a letter and its word; none where the word is to be a name and is none.
fn with_word<'a>(letter: u8, word: &'a [u8], options: Options<'a>) -> Option<Options<'a>>
    ensures { option_map seen_options result ≡ with_word_of letter word.now (seen_options options.entry) }
{
    match letter {
        b'a' => is_name(word).then_some(Options {
            array: Some(word),
            ..options
        }),
        b'd' => Some(Options {
            delimiter: first_byte(word),
            ..options
        }),
        _ => Some(options),
    }
}

fn first_byte(word: &[u8]) -> Option<u8>
    ensures { result ≡ first_byte_of word.now }
{
    match word {
        [] => None,
        [byte, ..] => Some(*byte),
    }
}

// After the options: the names.
fn named<'a>(options: Options<'a>, names: &'a [Bytes]) -> Job<'a>
    ensures { seen result ≡ names_said (seen_options options.entry) names.now }
{
    match no_name(names) {
        Some(word) => Job::Refused(Wrong::BadName(word)),
        None => Job::Reads(options, names),
    }
}

// The first word that is no name.
fn no_name(words: &[Bytes]) -> Option<&[u8]>
    ensures { option_map (λ word. word.now) result ≡ find is_no_name words.now }
{
    for word in words {
        if !is_name(word.as_slice()) {
            return Some(word.as_slice());
        }
    }
    None
}

// What the words being wrong so is to a script: the fault, or out of memory.
pub(crate) fn refusal(alloc: Global, why: Wrong<'_>) -> Stop
    ensures { IsWrong result (seen_fault why.entry) }
{
    match fault_of(alloc, why) {
        Ok(fault) => Stop::Fault(fault),
        Err(Memory) => Stop::Memory,
    }
}

fn fault_of(alloc: Global, why: Wrong<'_>) -> Result<Fault, Memory>
    ensures { IfOk result (λ fault. fault ≡ seen_fault why.entry) }
{
    match why {
        Wrong::BadUse => Ok(Fault::BadUse(Bytes::from_slice(alloc, b"read")?)),
        Wrong::BadName(word) => Ok(Fault::BadName(Bytes::from_slice(alloc, word)?)),
        Wrong::BadOption(letter) => {
            let command = Bytes::from_slice(alloc, b"read")?;
            let option = Bytes::from_slice(alloc, &[b'-', letter])?;
            Ok(Fault::BadOption(command, option))
        }
    }
}
