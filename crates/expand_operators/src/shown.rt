ghost use Rattle.std.specs.Prelude.{◌≡◌, IfOk, map, decimal as decimal_text};
ghost use Rattle.std.specs.FinMap as finite;
ghost use Rattle.shell_state.specs.Outcome.{Ended};
ghost use Rattle.shell_state.specs.State.{State};
ghost use Rattle.word_meaning.specs.Operators.{length_of as length_in, shown, with_indices};
ghost use Rattle.word_meaning.specs.References.{texts as texts_of};
ghost use Rattle.expand_marks.specs.Seen.{given_of};
ghost use Rattle.expand_values.specs.Seen.{found_of, source_of};

use eb_bytes::{Bytes, Memory, decimal};
use expand_marks::{Given, Listing};
use expand_values::{Found, Source, first_of_ifs};
use shell_vars::{Elements, Vars};
use sqlite_items::Items as List;
use std::alloc::Global;
use word_meaning::Mode;

// The texts of an array, in the order of their indices.
fn values(alloc: Global, elements: &Elements) -> Result<List<Bytes>, Memory>
    ensures { IfOk result (λ texts. texts ≡ finite.values elements.now) }
{
    let mut texts = List::new(alloc);
    for (_, text) in elements.iter() {
        texts.push(text.copy(alloc)?)?;
    }
    Ok(texts)
}

// Copies of texts.
fn copies(alloc: Global, texts: &[Bytes]) -> Result<List<Bytes>, Memory>
    ensures { IfOk result (λ copies. copies ≡ texts.now) }
{
    let mut copies = List::new(alloc);
    for text in texts {
        copies.push(text.copy(alloc)?)?;
    }
    Ok(copies)
}

/// The texts of a list, in order.
///
/// # Errors
/// `Memory` where there is no room for them.
pub fn texts(alloc: Global, source: &Source) -> Result<List<Bytes>, Memory>
    ensures { IfOk result (λ texts. texts ≡ texts_of (source_of source.now)) }
{
    match source {
        Source::Array(elements) => values(alloc, elements),
        Source::Arguments(texts) => copies(alloc, texts.as_slice()),
    }
}

/// What is found, as its text or its elements.
///
/// # Errors
/// `Memory` where there is no room for it.
pub fn show(
    alloc: Global,
    vars: &Vars,
    mode: Mode,
    quoted: bool,
    found: &Found,
) -> Result<Given, Memory>
    ensures { (at : State) → at.store ≡ vars.now.present →
        IfOk result (λ g. shown mode quoted (found_of found.now) at ≡ Ended (given_of g) at) }
{
    match found {
        Found::One(Some(text), _) => Given::of_text(alloc, quoted, text.as_slice()),
        Found::One(None, _) => Given::of_text(alloc, quoted, b""),
        Found::Many(star, source) => {
            let texts = texts(alloc, source)?;
            let listing = Listing {
                mode,
                quoted,
                star: *star,
                first_of_ifs: first_of_ifs(vars),
            };
            Given::of_list(alloc, &listing, texts.as_slice())
        }
    }
}

/// `${#..}`: the bytes of a text, the elements of a list.
#[tactic(auto, using(crate::proofs::Counted::counted))]
pub fn length_of(found: &Found) -> usize
    ensures { result ≡ length_in (found_of found.now) }
{
    match found {
        Found::One(Some(text), _) => text.len(),
        Found::One(None, _) => 0,
        Found::Many(_, Source::Array(elements)) => elements.len(),
        Found::Many(_, Source::Arguments(texts)) => texts.len(),
    }
}

// The indices of an array, as texts.
#[tactic(auto, using(crate::proofs::Counted::no_index_yet))]
fn keys(alloc: Global, elements: &Elements) -> Result<List<Bytes>, Memory>
    ensures { IfOk result (λ texts. texts ≡ map decimal_text (finite.keys elements.now)) }
{
    let mut texts = List::new(alloc);
    for (index, _) in elements.iter() {
        texts.push(decimal(alloc, *index)?)?;
    }
    Ok(texts)
}

/// `${!..[@]}`: the indices of the elements, as elements.
///
/// # Errors
/// `Memory` where there is no room for them.
pub fn indices(alloc: Global, found: Found) -> Result<Found, Memory>
    ensures { IfOk result (λ indices. found_of indices ≡ with_indices (found_of found)) }
{
    match found {
        Found::Many(star, Source::Array(elements)) => Ok(Found::Many(
            star,
            Source::Arguments(keys(alloc, &elements)?),
        )),
        Found::Many(star, Source::Arguments(_)) => Ok(Found::Many(
            star,
            Source::Arguments(List::new(alloc)),
        )),
        Found::One(text, place) => Ok(Found::One(text, place)),
    }
}
