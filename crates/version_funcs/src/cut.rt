ghost use Rattle.std.specs.Prelude.{◌≡◌, ◌⊎◌, ◌↔◌, [], Some, None, Err, IfOk, IfErr};
ghost use Rattle.version_funcs.specs.Pieces.{pieces};
ghost use Rattle.version_funcs.specs.Range.{components as components_of, cut_rest, cut_text, range_of};
ghost use Rattle.version_funcs.specs.declared.error.VerErr.TheVariants as why;

use crate::class::{Class, split_run};
use crate::error::VerErr;
use crate::pieces::{after_parts, split_component};
use crate::range::{Places, read_range};
use eb_bytes::Bytes;
use std::alloc::Global;

// The first components of a text, so many, with the separators between them; the whole text where there are fewer.
fn components(text: &[u8], count: u128) -> &[u8]
    requires { (pieces text.now).first ≡ [] }
    ensures { result.now ≡ components_of count (pieces text.now).rest }
{
    let Some(before) = count.checked_sub(1) else {
        return b"";
    };
    let last = after_parts(text, before);
    let (component, _) = split_component(last);
    text.split_at(text.len() - last.len() + component.len()).0
}

// The components of a text in the range.
fn cut_rest(places: Places, text: &[u8]) -> &[u8]
    requires { (pieces text.now).first ≡ [] }
    ensures { result.now ≡ cut_rest places.from places.to (pieces text.now).rest }
{
    let before = places.from.saturating_sub(1);
    let tail = after_parts(text, before);
    match places.to {
        Some(to) => components(tail, to.saturating_sub(before)),
        None => tail,
    }
}

/// The components of a text that the range names, with the separators between them (Package Manager Specification,
/// version manipulation functions).
///
/// A component is a maximal run of digits or of letters; separator 0 stands before component 1, and each other one
/// after its component. A range is `a`, `a-` or `a-b` in decimal digits, where `a` means `a-a`, and a missing end or
/// one above the number of components means the last one. From 0 on separator 0 is given too; where the end is missing
/// or above, the last separator. From a place above the last component on the answer is the empty text.
///
/// # Errors
/// `BadRange` where the range has another form or ends below its start; `Memory` where there is no room.
pub fn ver_cut(alloc: Global, range: &[u8], v: &[u8]) -> Result<Bytes, VerErr>
    ensures ok { IfOk result (λ text. cut_text range.now v.now ≡ Some text) }
    ensures bad_range { result ≡ Err why.BadRange ↔ range_of range.now ≡ None }
    ensures others { IfErr result (λ error. (error ≡ why.BadRange) ⊎ (error ≡ why.Memory)) }
{
    let Some(places) = read_range(range, v.len()) else {
        return Err(VerErr::BadRange);
    };
    let (first, rest) = split_run(Class::Separator, v);
    let mut text = Bytes::new(alloc);
    if places.from == 0 {
        text.extend(first)?;
    }
    text.extend(cut_rest(places, rest))?;
    Ok(text)
}
