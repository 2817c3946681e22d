ghost use Rattle.std.specs.Prelude.{◌≡◌, ◌<◌, [], ◌∷◌, length, IfSome};
ghost use Rattle.std.specs.Option.{option_map};
ghost use Rattle.bash_cond.specs.Reading.{read_of, verdict_of};
ghost use Rattle.bash_cond.specs.Words as words_of;

use crate::operator::{Question, Relation, asks, is_before};
use byte_class::{is_letter, is_name};
use eb_bytes::Bytes;
use eb_syntax::BinOp;
use shell_vars::{Vars, is_refused};
use signed_numbers::read_signed;

/// What words answer. A fault shows a word of them.
#[derive(Clone, Copy)]
pub(crate) enum Answer<'a> {
    Is(bool),
    /// `BadTest`
    Unread(&'a [u8]),
    /// `BadName`
    NoName(&'a [u8]),
    /// `Unsupported`
    Refused(&'a [u8]),
    /// `FileTest`
    OfFile(&'a [u8]),
}

/// What a rule reads: its answer, and the words after it.
#[derive(Clone, Copy)]
pub(crate) struct Read<'a> {
    pub(crate) value: Answer<'a>,
    pub(crate) rest: &'a [Bytes],
}

impl<'a> Answer<'a> {
    /// `-o`: the right side does not count where the left one is true.
    pub(crate) fn or(self, right: Answer<'a>) -> Answer<'a>
        ensures { verdict_of result ≡ words_of.either (verdict_of self.entry) (verdict_of right.entry) }
    {
        match self {
            Answer::Is(false) => right,
            _ => self,
        }
    }

    /// `-a`: the right side does not count where the left one is false.
    pub(crate) fn and(self, right: Answer<'a>) -> Answer<'a>
        ensures { verdict_of result ≡ words_of.both (verdict_of self.entry) (verdict_of right.entry) }
    {
        match self {
            Answer::Is(true) => right,
            _ => self,
        }
    }

    /// `!`
    pub(crate) fn negated(self) -> Answer<'a>
        ensures { verdict_of result ≡ words_of.negated (verdict_of self.entry) }
    {
        match self {
            Answer::Is(value) => Answer::Is(!value),
            _ => self,
        }
    }
}

// The operator that a word between two others is.
fn binary_named(word: &[u8]) -> Option<BinOp>
    ensures { result ≡ words_of.binary_named word.now }
{
    if word == b"=".as_slice() {
        Some(BinOp::Equal)
    } else if word == b"==".as_slice() {
        Some(BinOp::DoubleEqual)
    } else if word == b"!=".as_slice() {
        Some(BinOp::NotEqual)
    } else if word == b"<".as_slice() {
        Some(BinOp::Before)
    } else if word == b">".as_slice() {
        Some(BinOp::After)
    } else if word == b"-eq".as_slice() {
        Some(BinOp::NumberEqual)
    } else if word == b"-ne".as_slice() {
        Some(BinOp::NumberNotEqual)
    } else if word == b"-lt".as_slice() {
        Some(BinOp::NumberLess)
    } else if word == b"-le".as_slice() {
        Some(BinOp::NumberAtMost)
    } else if word == b"-gt".as_slice() {
        Some(BinOp::NumberGreater)
    } else if word == b"-ge".as_slice() {
        Some(BinOp::NumberAtLeast)
    } else if word == b"-nt".as_slice() {
        Some(BinOp::NewerFile)
    } else if word == b"-ot".as_slice() {
        Some(BinOp::OlderFile)
    } else if word == b"-ef".as_slice() {
        Some(BinOp::SameFile)
    } else {
        None
    }
}

// Decimal digits with a `-` or no sign, in 64 bits.
fn number_of(text: &[u8]) -> Option<i64>
    ensures { result ≡ words_of.number_of text.now }
{
    match text {
        [b'+', ..] => None,
        _ => read_signed(text),
    }
}

fn numbers_stand<'a>(relation: Relation, left: &'a [u8], right: &'a [u8]) -> Answer<'a>
    ensures { verdict_of result ≡ words_of.numbers_stand relation left.now (words_of.number_of left.now) right.now (words_of.number_of right.now) }
{
    let Some(first) = number_of(left) else {
        return Answer::Unread(left);
    };
    match number_of(right) {
        Some(second) => Answer::Is(relation.holds(first, second)),
        None => Answer::Unread(right),
    }
}

fn compared<'a>(question: Question, left: &'a [u8], right: &'a [u8]) -> Answer<'a>
    ensures { verdict_of result ≡ words_of.compared question left.now right.now }
{
    match question {
        Question::Same => Answer::Is(left == right),
        Question::Different => Answer::Is(left != right),
        Question::Before => Answer::Is(is_before(left, right)),
        Question::After => Answer::Is(is_before(right, left)),
        Question::Numbers(relation) => numbers_stand(relation, left, right),
        Question::Files(relation) => Answer::OfFile(relation.operator()),
    }
}

// `-v`: whether the variable of this name has a text, or an element 0.
fn is_set<'a>(vars: &Vars, name: &'a [u8]) -> Answer<'a>
    ensures { verdict_of result ≡ words_of.is_set vars.now.present name.now }
{
    if !is_name(name) {
        return Answer::NoName(name);
    }
    if is_refused(name) {
        return Answer::Refused(name);
    }
    match vars.element(name, None) {
        Ok(text) => Answer::Is(text.is_some()),
        Err(_) => Answer::Is(false),
    }
}

// The answer of a word that is `-` and a letter, to its text.
fn unary<'a>(vars: &Vars, word: &'a [u8], letter: u8, text: &'a [u8]) -> Answer<'a>
    requires { word.now ≡ 45 ∷ letter ∷ [] }
    ensures { verdict_of result ≡ words_of.unary vars.now.present letter text.now }
{
    match letter {
        b'v' => is_set(vars, text),
        b'z' => Answer::Is(text.is_empty()),
        b'n' => Answer::Is(!text.is_empty()),
        _ => Answer::OfFile(word),
    }
}

/// word binary word
pub(crate) fn binary_at<'a>(words: &'a [Bytes]) -> Option<Read<'a>>
    ensures means { option_map read_of result ≡ words_of.comparison words.now }
    ensures shorter { IfSome result (λ read. length read.rest.now < length words.now) }
{
    match words {
        [left, word, right, rest @ ..] => match binary_named(word.as_slice()) {
            Some(op) => {
                let value = compared(asks(op), left.as_slice(), right.as_slice());
                Some(Read { value, rest })
            }
            None => None,
        },
        _ => None,
    }
}

// Whether a letter may stand after the `-` of a unary word.
fn is_unary(sign: u8, letter: u8) -> bool
    ensures { result ≡ words_of.is_unary sign letter }
{
    sign == b'-' && is_letter(letter) && !(letter == b'a' || letter == b'o')
}

/// unary word
pub(crate) fn unary_at<'a>(words: &'a [Bytes], vars: &Vars) -> Option<Read<'a>>
    ensures means { option_map read_of result ≡ words_of.question vars.now.present words.now }
    ensures shorter { IfSome result (λ read. length read.rest.now < length words.now) }
{
    match words {
        [word, text, rest @ ..] => match word.as_slice() {
            [sign, letter] => {
                if !is_unary(*sign, *letter) {
                    return None;
                }
                let value = unary(vars, word.as_slice(), *letter, text.as_slice());
                Some(Read { value, rest })
            }
            _ => None,
        },
        _ => None,
    }
}

/// A word by itself, which is true where it is not empty.
pub(crate) fn lone<'a>(words: &'a [Bytes]) -> Read<'a>
    requires { 0 < length words.now }
    ensures means { read_of result ≡ words_of.lone words.now }
    ensures shorter { length result.rest.now < length words.now }
{
    match words {
        [word, rest @ ..] => {
            let value = Answer::Is(!word.is_empty());
            Read { value, rest }
        }
        [] => {
            let value = Answer::Is(false);
            Read { value, rest: words }
        }
    }
}

/// The words after one that is the first of them, where there is a word after it.
pub(crate) fn behind<'a>(operator: &[u8], words: &'a [Bytes]) -> Option<&'a [Bytes]>
    ensures words { option_map (λ rest. rest.now) result ≡ words_of.behind operator.now words.now }
    ensures some { IfSome result (λ rest. 0 < length rest.now) }
    ensures shorter { IfSome result (λ rest. length rest.now < length words.now) }
{
    match words {
        [word, rest @ ..] => {
            if !rest.is_empty() && word.as_slice() == operator {
                Some(rest)
            } else {
                None
            }
        }
        [] => None,
    }
}
