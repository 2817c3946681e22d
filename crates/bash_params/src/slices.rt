ghost use Rattle.std.specs.Prelude.{◌≡◌, ◌≤◌, ◌∷◌, ◌++◌, take, drop, length, IfOk, IfErr, OnOk, List, Ok, Some};
ghost use Rattle.std.specs.FinMap as map;
ghost use Rattle.eb_bytes.specs.Text.{Text};
ghost use Rattle.bash_params.specs.Answer.{Refuses};
ghost use Rattle.bash_params.specs.Cut.{limited, list_sliced, sliced, texts_from as texts_from_of};

use crate::cuts::place;
use crate::error::ParamErr;
use crate::part::{after, before};
use eb_bytes::{Bytes, Memory};
use shell_vars::Elements;
use std::alloc::Global;

/// The texts of the elements whose index is at least an offset, in the order of their indices, at most so many as a
/// length says (Bash Reference Manual, "Shell Parameter Expansion", `${name[@]:offset:length}`). A negative offset has
/// the greatest index plus one added, 0 without elements, and where it is negative still there are no texts.
///
/// # Errors
/// `BadSubstitution` where the length is negative, and `Memory`.
pub fn slice(
    alloc: Global,
    elements: &Elements,
    from: i64,
    len: Option<i64>,
) -> Result<Vec<Bytes>, ParamErr>
    ensures ok { IfOk result (λ texts. sliced from len elements.now ≡ Ok texts.items) }
    ensures refused { IfErr result (λ e. Refuses e (sliced from len elements.now)) }
{
    let most = limit(len, elements.len() as u64)?;
    match place(elements.next_index(), from) {
        Some(start) => Ok(texts_from(alloc, elements, start, most)?),
        None => Ok(Vec::new(alloc)),
    }
}

/// The same of the positional parameters, before which `zero` stands as parameter 0: those from an offset on, where a
/// negative one counts from the end (`${@:offset:length}`).
///
/// # Errors
/// `BadSubstitution` where the length is negative, and `Memory`.
pub fn slice_parameters(
    alloc: Global,
    zero: &[u8],
    args: &[Bytes],
    from: i64,
    len: Option<i64>,
) -> Result<Vec<Bytes>, ParamErr>
    ensures ok { IfOk result (λ texts. list_sliced from len (zero.now ∷ args.now) ≡ Ok texts.items) }
    ensures refused { IfErr result (λ e. Refuses e (list_sliced from len (zero.now ∷ args.now))) }
{
    let size = args.len() as u64 + 1;
    let most = limit(len, size)?;
    match place(size, from) {
        Some(0) => Ok(with_zero(alloc, zero, args, most)?),
        Some(start) => Ok(copies(
            alloc,
            before(after(args, start as usize - 1), most as usize),
        )?),
        None => Ok(Vec::new(alloc)),
    }
}

// How many of so many texts a slice may have.
fn limit(len: Option<i64>, all: u64) -> Result<u64, ParamErr>
    ensures ok { IfOk result (λ most. (ts : List Text) → length ts ≤ all → limited len ts ≡ Ok (take most ts)) }
    ensures refused { IfErr result (λ e. (ts : List Text) → Refuses e (limited len ts)) }
{
    match len {
        None => Ok(all),
        Some(len) if len >= 0 => Ok(len as u64),
        Some(_) => Err(ParamErr::BadSubstitution),
    }
}

// The texts of the first elements, at most so many, whose index is at least this one.
fn texts_from(
    alloc: Global,
    elements: &Elements,
    start: u64,
    most: u64,
) -> Result<Vec<Bytes>, Memory>
    ensures { IfOk result (λ texts. texts.items ≡ take most (texts_from_of (Some start) (map.entries elements.now))) }
{
    let mut texts = Vec::new(alloc);
    let mut left = most;
    for (at, text) in elements.iter() {
        if *at >= start && left > 0 {
            texts.push(text.copy(alloc)?)?;
            left -= 1;
        }
    }
    Ok(texts)
}

// At most so many of the parameters from parameter 0 on.
fn with_zero(alloc: Global, zero: &[u8], args: &[Bytes], most: u64) -> Result<Vec<Bytes>, Memory>
    ensures { IfOk result (λ texts. texts.items ≡ take most (zero.now ∷ args.now)) }
{
    let mut texts = Vec::new(alloc);
    if most > 0 {
        texts.push(Bytes::from_slice(alloc, zero)?)?;
        push_copies(alloc, &mut texts, before(args, most as usize - 1))?;
    }
    Ok(texts)
}

// Copies of texts.
fn copies(alloc: Global, texts: &[Bytes]) -> Result<Vec<Bytes>, Memory>
    ensures { IfOk result (λ copies. copies.items ≡ texts.now) }
{
    let mut copies = Vec::new(alloc);
    push_copies(alloc, &mut copies, texts)?;
    Ok(copies)
}

// Puts copies of texts at the end of others.
fn push_copies(alloc: Global, copies: &mut Vec<Bytes>, texts: &[Bytes]) -> Result<(), Memory>
    ensures { OnOk result (copies.new.items ≡ copies.old.items ++ texts.now) }
{
    for text in texts {
        copies.push(text.copy(alloc)?)?;
    }
    Ok(())
}
