ghost use Rattle.std.specs.Prelude.{◌≡◌, ◌⊎◌, ◌↔◌, ◌+◌, ◌%◌, Some, None, Err, map, length, is_some, IfOk, IfErr};
ghost use Rattle.std.specs.Option.{option_map};
ghost use Rattle.version_funcs.specs.Pieces.{joined, pieces};
ghost use Rattle.version_funcs.specs.Range.{replaced, replaced_text, replacements, separator_after as separator_after_all, stays as stays_at};
ghost use Rattle.version_funcs.specs.Seen.{clamped_each, seen_swap};
ghost use Rattle.version_funcs.specs.declared.error.VerErr.TheVariants as why;

use crate::class::{Class, split_run};
use crate::error::VerErr;
use crate::pieces::parts_of;
use crate::range::{Places, read_range};
use eb_bytes::{Bytes, Memory};
use std::alloc::Global;

/// A text that takes the place of the separators in a range.
#[derive(Clone, Copy)]
pub struct Swap<'a> {
    pub places: Places,
    pub text: &'a [u8],
}

// The replacements of words that stand in pairs, a range and a text; none where a range is bad. A number above
// `length + 1` is read as that.
fn read_pairs<'a>(
    alloc: Global,
    pairs: &'a [Bytes],
    length: usize,
) -> Result<Option<Vec<Swap<'a>>>, Memory>
    ensures { IfOk result (λ read. option_map (λ swaps. map seen_swap swaps.items) read ≡ option_map (clamped_each (length + 1)) (replacements pairs.now)) }
{
    let mut swaps = Vec::new(alloc);
    let mut rest = pairs;
    while let [range, text, more @ ..] = rest {
        let Some(places) = read_range(range.as_slice(), length) else {
            return Ok(None);
        };
        let text = text.as_slice();
        swaps.push(Swap { places, text })?;
        rest = more;
    }
    Ok(Some(swaps))
}

// Whether each word that is to be a range is one.
fn have_ranges(pairs: &[Bytes]) -> bool
    ensures { result ≡ is_some (replacements pairs.now) }
{
    let mut rest = pairs;
    while let [range, _, more @ ..] = rest {
        if read_range(range.as_slice(), 0).is_none() {
            return false;
        }
        rest = more;
    }
    true
}

// Whether a separator is one that stays: the first or the last one, while it is empty.
fn stays(place: usize, last: usize, separator: &[u8]) -> bool
    ensures { result ≡ stays_at place last separator.now }
{
    (place == 0 || place == last) && separator.is_empty()
}

// The separator at a place, after all the replacements in turn.
fn separator_after<'a>(
    swaps: &[Swap<'a>],
    place: usize,
    last: usize,
    separator: &'a [u8],
) -> &'a [u8]
    ensures { result.now ≡ separator_after_all (map seen_swap swaps.now) place last separator.now }
{
    let mut current = separator;
    for swap in swaps {
        if swap.places.contains(place as u128) && !stays(place, last, current) {
            current = swap.text;
        }
    }
    current
}

// A text with its separators replaced.
fn replaced<'a>(alloc: Global, swaps: &[Swap<'a>], v: &'a [u8]) -> Result<Bytes, Memory>
    ensures { IfOk result (λ text. text ≡ joined (replaced (map seen_swap swaps.now) (pieces v.now))) }
{
    let (first, _) = split_run(Class::Separator, v);
    let parts = parts_of(alloc, v)?;
    let last = parts.len();
    let mut text = Bytes::from_slice(alloc, separator_after(swaps, 0, last, first))?;
    for (index, part) in parts.iter().enumerate() {
        text.extend(part.component)?;
        text.extend(separator_after(swaps, index + 1, last, part.separator))?;
    }
    Ok(text)
}

/// A text with separators replaced (Package Manager Specification, version manipulation functions).
///
/// The words stand in pairs, a range and the text that replaces each separator in it; an even number of words is asked
/// for. Components, separators and ranges are those of `ver_cut`. The first and the last separator stay while they are
/// empty. All the ranges speak of the separators of the text as it is given; where more than one names a separator,
/// each replaces what the one before it left.
///
/// # Errors
/// `BadRange` exactly where a word that is to be a range is none; that takes no memory. `Memory` where there is no
/// room.
pub fn ver_rs(alloc: Global, pairs: &[Bytes], v: &[u8]) -> Result<Bytes, VerErr>
    requires { length pairs.now % 2 ≡ 0 }
    ensures ok { IfOk result (λ text. replaced_text pairs.now v.now ≡ Some text) }
    ensures bad_range { result ≡ Err why.BadRange ↔ replacements pairs.now ≡ None }
    ensures others { IfErr result (λ error. (error ≡ why.BadRange) ⊎ (error ≡ why.Memory)) }
{
    if !have_ranges(pairs) {
        return Err(VerErr::BadRange);
    }
    let Some(swaps) = read_pairs(alloc, pairs, v.len())? else {
        return Err(VerErr::BadRange);
    };
    Ok(replaced(alloc, swaps.as_slice(), v)?)
}
