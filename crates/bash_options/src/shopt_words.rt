ghost use Rattle.std.specs.Prelude.{◌≡◌, drop, find, fold};
ghost use Rattle.std.specs.Option.{option_copied};
ghost use Rattle.bash_options.specs.Options.{is_name as is_name_of};
ghost use Rattle.bash_options.specs.Seen.{seen};
ghost use Rattle.bash_options.specs.Use.{asks, is_no_letter as is_no_letter_of, is_no_name, is_option as is_option_of, with_letter as with_letter_of, use_of};

use eb_bytes::Bytes;

/// What the options of `shopt` ask for.
#[derive(Clone, Copy)]
pub struct Asked {
    /// That the options of a shell are on: `-s`.
    pub sets: bool,
    /// That they are off: `-u`.
    pub unsets: bool,
    /// That the status tells whether all are on: `-q`.
    pub quiet: bool,
    /// That they are printed: `-p`.
    pub prints: bool,
}

/// Why words are not what `shopt` takes.
#[derive(Clone, Copy)]
pub enum Wrong<'a> {
    /// There is no name, or `-s` stands with `-u`.
    BadUse,
    /// It has no option of this letter.
    BadLetter(u8),
    /// A shell has no option of this name.
    BadName(&'a [u8]),
}

/// What the words of `shopt` say.
#[derive(Clone, Copy)]
pub enum Job<'a> {
    /// What is asked of the options of these names.
    Asks(Asked, &'a [Bytes]),
    /// They are at fault.
    Refused(Wrong<'a>),
}

// Reads the options and the names.
#[tactic(auto, unfolding(crate::specs::Use::use_of))]
pub(crate) fn read_words(words: &[Bytes]) -> Job<'_>
    ensures { seen result ≡ use_of words.now }
{
    let mut asked = Asked {
        sets: false,
        unsets: false,
        quiet: false,
        prints: false,
    };
    for (index, word) in words.iter().enumerate() {
        let word = word.as_slice();
        if word == b"--".as_slice() {
            return asks(asked, &words[index + 1..]);
        }
        if !is_option(word) {
            return asks(asked, &words[index..]);
        }
        let letters = after_first(word);
        if let Some(letter) = unknown_letter(letters) {
            return Job::Refused(Wrong::BadLetter(letter));
        }
        asked = with_letters(asked, letters);
    }
    asks(asked, &[])
}

fn is_option(word: &[u8]) -> bool
    ensures { result ≡ is_option_of word.now }
{
    match word {
        [b'-', letters @ ..] => !letters.is_empty(),
        _ => false,
    }
}

fn after_first(word: &[u8]) -> &[u8]
    ensures { result.now ≡ drop 1 word.now }
{
    match word {
        [] => word,
        [_, rest @ ..] => rest,
    }
}

// The first letter that is no option.
fn unknown_letter(letters: &[u8]) -> Option<u8>
    ensures { result ≡ find is_no_letter_of letters.now }
{
    letters.iter().copied().find(|letter| is_no_letter(*letter))
}

fn is_no_letter(letter: u8) -> bool
    ensures { result ≡ is_no_letter_of letter }
{
    !matches!(letter, b's' | b'u' | b'q' | b'p')
}

fn with_letters(asked: Asked, letters: &[u8]) -> Asked
    ensures { result ≡ fold with_letter_of asked letters.now }
{
    let mut asked = asked;
    for letter in letters {
        asked = with_letter(asked, *letter);
    }
    asked
}

fn with_letter(asked: Asked, letter: u8) -> Asked
    ensures { result ≡ with_letter_of asked letter }
{
    let mut asked = asked;
    match letter {
        b's' => asked.sets = true,
        b'u' => asked.unsets = true,
        b'q' => asked.quiet = true,
        _ => asked.prints = true,
    }
    asked
}

// After the options: one name or more.
fn asks(asked: Asked, names: &[Bytes]) -> Job<'_>
    ensures { seen result ≡ asks asked names.now }
{
    if names.is_empty() || asked.sets && asked.unsets {
        return Job::Refused(Wrong::BadUse);
    }
    match unknown_name(names) {
        Some(name) => Job::Refused(Wrong::BadName(name)),
        None => Job::Asks(asked, names),
    }
}

// The first name that no option has.
fn unknown_name(names: &[Bytes]) -> Option<&[u8]>
    ensures { option_copied result ≡ find is_no_name names.now }
{
    for name in names {
        if !is_name(name.as_slice()) {
            return Some(name.as_slice());
        }
    }
    None
}

fn is_name(name: &[u8]) -> bool
    ensures { result ≡ is_name_of name.now }
{
    name == b"extglob".as_slice()
        || name == b"nullglob".as_slice()
        || name == b"failglob".as_slice()
}
