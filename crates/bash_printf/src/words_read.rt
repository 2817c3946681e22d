ghost use Rattle.std.specs.Prelude.{◌≡◌, ◌≤◌, drop, find, length};
ghost use Rattle.std.specs.List.{position_or_len};
ghost use Rattle.std.specs.Option.{option_copied, option_map};
ghost use Rattle.bash_printf.specs.Seen.{seen, seen_destination};
ghost use Rattle.bash_printf.specs.Use.{begun as begun_by, is_open, is_option as is_option_of, named as named_by, other_than_v, subscript as subscript_of, target as target_of, use_of};

use byte_class::is_name;
use eb_bytes::Bytes;

/// A variable, or an element of one.
#[doc(hidden)]
#[derive(Clone, Copy)]
pub struct Destination<'a> {
    pub name: &'a [u8],
    pub subscript: Option<&'a [u8]>,
}

/// Why words are not what `printf` takes.
#[doc(hidden)]
#[derive(Clone, Copy)]
pub enum Wrong<'a> {
    /// There is no format, or no word after `-v`.
    BadUse,
    /// This word names neither a variable nor an element.
    BadName(&'a [u8]),
    /// There is no option of this letter.
    BadOption(u8),
}

/// What the words say.
#[doc(hidden)]
#[derive(Clone, Copy)]
pub enum Job<'a> {
    /// A format with its words, which is printed or given to a variable.
    Formats(Option<Destination<'a>>, &'a [u8], &'a [Bytes]),
    /// They are at fault.
    Refused(Wrong<'a>),
}

// Reads the options, the format and its words.
#[tactic(auto, unfolding(crate::specs::Use::use_of))]
pub(crate) fn read_words(words: &[Bytes]) -> Job<'_>
    ensures { seen result ≡ use_of words.now }
{
    let mut taken = 0;
    let mut to = None;
    for (index, word) in words.iter().enumerate() {
        let word = word.as_slice();
        if taken > 0 {
            let Some(target) = target(word) else {
                return Job::Refused(Wrong::BadName(word));
            };
            to = Some(target);
            taken -= 1;
        } else if word == b"--".as_slice() {
            return begun(to, &words[index + 1..]);
        } else if is_option(word) {
            if let Some(letter) = unknown(after_first(word)) {
                return Job::Refused(Wrong::BadOption(letter));
            }
            taken = word.len() - 1;
        } else {
            return begun(to, &words[index..]);
        }
    }
    Job::Refused(Wrong::BadUse)
}

fn is_option(word: &[u8]) -> bool
    ensures { result ≡ is_option_of word.now }
{
    match word {
        [b'-', letters @ ..] => !letters.is_empty(),
        _ => false,
    }
}

fn after_first(word: &[u8]) -> &[u8]
    ensures { result.now ≡ drop 1 word.now }
{
    match word {
        [] => word,
        [_, rest @ ..] => rest,
    }
}

// The first letter that is no option.
fn unknown(letters: &[u8]) -> Option<u8>
    ensures { result ≡ find other_than_v letters.now }
{
    letters.iter().copied().find(|letter| *letter != b'v')
}

// After the options: a format and its words.
fn begun<'a>(to: Option<Destination<'a>>, words: &'a [Bytes]) -> Job<'a>
    ensures { seen result ≡ begun_by (option_map seen_destination to.entry) words.now }
{
    match words {
        [] => Job::Refused(Wrong::BadUse),
        [format, others @ ..] => Job::Formats(to, format.as_slice(), others),
    }
}

// The variable or the element that a word names.
fn target(word: &[u8]) -> Option<Destination<'_>>
    ensures { option_map seen_destination result ≡ target_of word.now }
{
    let place = name_len(word);
    named(&word[..place], subscript(&word[place..]))
}

fn name_len(word: &[u8]) -> usize
    ensures value { result ≡ position_or_len is_open word.now }
    ensures within { result ≤ length word.now }
{
    word.iter().take_while(|byte| **byte != b'[').count()
}

fn named<'a>(name: &'a [u8], subscript: Option<Option<&'a [u8]>>) -> Option<Destination<'a>>
    ensures { option_map seen_destination result ≡ named_by name.now (option_map option_copied subscript.entry) }
{
    match subscript {
        Some(subscript) if is_name(name) => Some(Destination { name, subscript }),
        _ => None,
    }
}

// The subscript of `[`, one byte or more, and `]`; none of nothing.
fn subscript(text: &[u8]) -> Option<Option<&[u8]>>
    ensures { option_map option_copied result ≡ subscript_of text.now }
{
    match text {
        [] => Some(None),
        [b'[', inside @ .., b']'] if !inside.is_empty() => Some(Some(inside)),
        _ => None,
    }
}
