ghost use Rattle.std.specs.Prelude.{◌≡◌, ◌++◌, IfOk, OnOk};
ghost use Rattle.word_meaning.specs.Marks.{apart, between as between_of, element, listed, stay_apart as stay_apart_of, together};

use crate::texts::{put_quoted, put_text};
use eb_bytes::{Bytes, Memory};
use shell_marks::{Mark, Marked};
use std::alloc::Global;
use word_meaning::Mode;

/// The elements of a list as one text, with a blank between each two; those of `*` with the first byte of IFS.
///
/// # Errors
/// `Memory` where there is no room for it.
pub fn join(
    alloc: Global,
    star: bool,
    first_of_ifs: &[u8],
    texts: &[Bytes],
) -> Result<Bytes, Memory>
    ensures { IfOk result (λ text. text ≡ together star first_of_ifs.now texts.now) }
{
    let mut joined = Bytes::new(alloc);
    let [first, others @ ..] = texts else {
        return Ok(joined);
    };
    joined.extend(first.as_slice())?;
    for text in others {
        joined.extend(between(star, first_of_ifs))?;
        joined.extend(text.as_slice())?;
    }
    Ok(joined)
}

// What stands between joined elements.
fn between<'a>(star: bool, first_of_ifs: &'a [u8]) -> &'a [u8]
    ensures { result.now ≡ between_of star first_of_ifs.now }
{
    if star { first_of_ifs } else { b" " }
}

// Puts an element that stays apart at the end.
fn put_element(marks: &mut Marked, quoted: bool, text: &[u8]) -> Result<(), Memory>
    ensures { OnOk result (marks.new ≡ marks.old ++ element quoted text.now) }
{
    if quoted {
        put_quoted(marks, text)
    } else {
        put_text(marks, false, text)
    }
}

// Puts the elements at the end, with a border between each two.
fn put_apart(marks: &mut Marked, quoted: bool, texts: &[Bytes]) -> Result<(), Memory>
    ensures { OnOk result (marks.new ≡ marks.old ++ apart quoted texts.now) }
{
    let [first, others @ ..] = texts else {
        return Ok(());
    };
    put_element(marks, quoted, first.as_slice())?;
    for text in others {
        marks.push(Mark::Break)?;
        put_element(marks, quoted, text.as_slice())?;
    }
    Ok(())
}

// Whether the elements stay apart.
fn stay_apart(mode: Mode, quoted: bool, star: bool) -> bool
    ensures { result ≡ stay_apart_of mode quoted star }
{
    match mode {
        Mode::Fields => !(quoted && star),
        Mode::Text => false,
    }
}

/// How a list stands in a word.
#[derive(Clone, Copy)]
pub struct Listing<'a> {
    /// Whether its elements may be fields.
    pub mode: Mode,
    /// Whether it stands in double quotes.
    pub quoted: bool,
    /// Whether it is one of `*`.
    pub star: bool,
    /// The first byte of IFS, or nothing.
    pub first_of_ifs: &'a [u8],
}

/// Puts a list at the end, and answers whether it is one in double quotes that has no elements.
///
/// # Errors
/// `Memory` where there is no room for it.
pub fn put_list(
    alloc: Global,
    marks: &mut Marked,
    listing: &Listing<'_>,
    texts: &[Bytes],
) -> Result<bool, Memory>
    ensures marks { OnOk result (marks.new ≡ marks.old ++ (listed listing.now.mode listing.now.quoted listing.now.star listing.now.first_of_ifs.now texts.now).marks) }
    ensures none { IfOk result (λ none. none ≡ (listed listing.now.mode listing.now.quoted listing.now.star listing.now.first_of_ifs.now texts.now).has_no_elements) }
{
    if stay_apart(listing.mode, listing.quoted, listing.star) {
        put_apart(marks, listing.quoted, texts)?;
    } else {
        let joined = join(alloc, listing.star, listing.first_of_ifs, texts)?;
        put_text(marks, listing.quoted, joined.as_slice())?;
    }
    Ok(listing.quoted && !listing.star && texts.is_empty())
}
