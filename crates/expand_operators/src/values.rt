ghost use Rattle.std.specs.Prelude.{◌≡◌, not, IfOk};
ghost use Rattle.std.specs.List.{join_with_byte};
ghost use Rattle.eb_bytes.specs.Text.{has_bytes};
ghost use Rattle.word_meaning.specs.Operators.{has_colon as has_colon_of, is_empty as is_empty_of, is_unset as is_unset_of, is_unset_list as is_unset_list_of, lacks as lacks_of, no_other as no_other_of};
ghost use Rattle.expand_marks.specs.Seen.{given_of};
ghost use Rattle.expand_values.specs.Seen.{found_of};

use crate::shown::{length_of, texts};
use eb_bytes::{Bytes, Memory};
use eb_syntax::ValueOp;
use expand_marks::Given;
use expand_values::Found;
use std::alloc::Global;

// Whether there is no value, or no element.
#[tactic(auto, using(crate::proofs::Counted::none_there))]
fn is_unset(found: &Found) -> bool
    ensures { result ≡ is_unset_of (found_of found.now) }
{
    match found {
        Found::One(text, _) => text.is_none(),
        Found::Many(_, _) => length_of(found) == 0,
    }
}

// Whether texts joined by blanks are the empty text.
#[tactic(auto, using(crate::proofs::Counted::nothing_joined))]
fn are_nothing(texts: &[Bytes]) -> bool
    ensures { result ≡ not (has_bytes (join_with_byte 32 texts.now)) }
{
    match texts {
        [] => true,
        [first, others @ ..] => first.is_empty() && others.is_empty(),
    }
}

// Whether the value is the empty text, or the elements joined by blanks are.
fn is_empty(alloc: Global, found: &Found) -> Result<bool, Memory>
    ensures { IfOk result (λ empty. empty ≡ is_empty_of (found_of found.now)) }
{
    match found {
        Found::One(Some(text), _) => Ok(text.is_empty()),
        Found::One(None, _) => Ok(true),
        Found::Many(_, source) => {
            let texts = texts(alloc, source)?;
            Ok(are_nothing(texts.as_slice()))
        }
    }
}

/// Whether an empty value counts as unset.
pub fn has_colon(op: ValueOp) -> bool
    ensures { result ≡ has_colon_of op }
{
    match op {
        ValueOp::DefaultOfEmpty
        | ValueOp::AssignOfEmpty
        | ValueOp::ErrorOfEmpty
        | ValueOp::OtherOfFilled => true,
        ValueOp::Default | ValueOp::Assign | ValueOp::Error | ValueOp::Other => false,
    }
}

/// Whether there is no value for the operator.
///
/// # Errors
/// `Memory` where there is no room to look at the elements of a list.
pub fn lacks(alloc: Global, op: ValueOp, found: &Found) -> Result<bool, Memory>
    ensures { IfOk result (λ lacking. lacking ≡ lacks_of op (found_of found.now)) }
{
    if is_unset(found) {
        return Ok(true);
    }
    if has_colon(op) {
        return is_empty(alloc, found);
    }
    Ok(false)
}

// Whether it is a list of `@` without elements.
fn is_unset_list(found: &Found) -> bool
    ensures { result ≡ is_unset_list_of (found_of found.now) }
{
    match found {
        Found::One(_, _) => false,
        Found::Many(star, _) => !*star && is_unset(found),
    }
}

/// `+` without a value. Takes no memory.
pub fn no_other(alloc: Global, quoted: bool, found: &Found) -> Given
    ensures { given_of result ≡ no_other_of quoted (found_of found.now) }
{
    let mut given = Given::new(alloc);
    given.has_no_elements = quoted && is_unset_list(found);
    given
}
