ghost use Rattle.std.specs.Prelude.{◌≡◌, ◌↔◌, IsTrue};
ghost use Rattle.std.specs.List.{list_all};
ghost use Rattle.std.specs.Option.{option_map};
ghost use Rattle.version_funcs.specs.Version.{is_number as is_number_text, IsVersionText};
ghost use Rattle.version_funcs.specs.Walk.{begins_piece as begins_piece_text, after_components, after_letter, first_text, is_revision as is_revision_text, is_suffix_text, is_version_text, later_text, letter_of, after_marks, revision_text, suffix_of, suffixes_text};
ghost use Rattle.version_funcs.specs.Read.{seen_suffix};

use crate::class::{Class, is_all, next_piece, split_run};
use crate::kind::{SuffixKind, kind_named};

// The parts of a text, which say what the version is where the text is one.
#[derive(Clone, Copy)]
pub(crate) struct VersionParts<'a> {
    // The digits of the first component.
    pub(crate) first: &'a [u8],
    // The later components, each after its dot.
    pub(crate) later: &'a [u8],
    pub(crate) letter: Option<u8>,
    // The suffixes, each after its underscore.
    pub(crate) suffixes: &'a [u8],
    // `-r` and the digits of the revision, or nothing.
    pub(crate) revision: &'a [u8],
}

// A suffix, by its kind and the digits of its number.
#[derive(Clone, Copy)]
pub(crate) struct SuffixText<'a> {
    pub(crate) kind: SuffixKind,
    pub(crate) number: &'a [u8],
}

// Cuts a text into the parts of a version.
pub(crate) fn version_parts(text: &[u8]) -> VersionParts<'_>
    ensures first { result.first.now ≡ first_text text.now }
    ensures later { result.later.now ≡ later_text text.now }
    ensures letter { result.letter ≡ letter_of (after_components text.now) }
    ensures suffixes { result.suffixes.now ≡ suffixes_text text.now }
    ensures revision { result.revision.now ≡ revision_text text.now }
{
    let (first, after) = split_run(Class::Digit, text);
    let (later, after) = split_run(Class::DigitOrDot, after);
    let (letter, after) = split_letter(after);
    let (suffixes, revision) = split_run(Class::AllBut(b'-'), after);
    VersionParts {
        first,
        later,
        letter,
        suffixes,
        revision,
    }
}

// The letter at the front, if there is one, and what stands after it.
fn split_letter(text: &[u8]) -> (Option<u8>, &[u8])
    ensures letter { result.0 ≡ letter_of text.now }
    ensures after { result.1.now ≡ after_letter text.now }
{
    match text {
        [letter @ b'a'..=b'z', after @ ..] => (Some(*letter), after),
        _ => (None, text),
    }
}

/// Whether the text is a version (Package Manager Specification, "Version Specifications"): digits, then any number of
/// dots with digits after them, at most one letter from a to z, any number of `_alpha`, `_beta`, `_pre`, `_rc` and `_p`
/// with or without digits after them, and at most one `-r` with digits. Takes no memory.
pub fn read_version(text: &[u8]) -> bool
    ensures { IsTrue result ↔ IsVersionText text.now }
{
    reads_version(text)
}

// Whether each part of the text is as it is in a version.
fn reads_version(text: &[u8]) -> bool
    ensures { result ≡ is_version_text text.now }
{
    let parts = version_parts(text);
    is_number(parts.first)
        && are_numbers(parts.later)
        && begins_piece(b'_', parts.suffixes)
        && are_suffixes(parts.suffixes)
        && is_revision(parts.revision)
}

// Whether the text is one digit or more.
fn is_number(text: &[u8]) -> bool
    ensures { result ≡ is_number_text text.now }
{
    !text.is_empty() && is_all(Class::Digit, text)
}

// Whether a number stands after each dot.
fn are_numbers(text: &[u8]) -> bool
    ensures { result ≡ list_all is_number_text (after_marks 46 text.now) }
{
    let mut left = text;
    while let Some((piece, rest)) = next_piece(b'.', left) {
        if !is_number(piece) {
            return false;
        }
        left = rest;
    }
    true
}

// Whether the text begins with the mark, or is empty.
fn begins_piece(mark: u8, text: &[u8]) -> bool
    ensures { result ≡ begins_piece_text mark text.now }
{
    match text {
        [] => true,
        [first, ..] => *first == mark,
    }
}

// Whether a suffix stands after each underscore.
fn are_suffixes(text: &[u8]) -> bool
    ensures { result ≡ list_all is_suffix_text (after_marks 95 text.now) }
{
    let mut left = text;
    while let Some((piece, rest)) = next_piece(b'_', left) {
        if read_suffix(piece).is_none() {
            return false;
        }
        left = rest;
    }
    true
}

// Reads what stands after an underscore as a suffix.
pub(crate) fn read_suffix(piece: &[u8]) -> Option<SuffixText<'_>>
    ensures { option_map seen_suffix result ≡ suffix_of piece.now }
{
    let (name, number) = split_run(Class::Lower, piece);
    match kind_named(name) {
        Some(kind) if is_all(Class::Digit, number) => Some(SuffixText { kind, number }),
        _ => None,
    }
}

// Whether the text is a revision, or empty.
fn is_revision(text: &[u8]) -> bool
    ensures { result ≡ is_revision_text text.now }
{
    match text {
        [] => true,
        [b'-', b'r', digits @ ..] => is_number(digits),
        _ => false,
    }
}
