//! Lists of which each element is moved.

ghost use Rattle.std.specs.Prelude.{◌≡◌, [], reverse, IfOk};

use eb_bytes::Memory;
use sqlite_items::Items as List;
use std::alloc::Global;

/// A list of no elements, with room for so many.
///
/// # Errors
/// `Memory` where there is no such room.
pub fn with_room<T>(alloc: Global, count: usize) -> Result<List<T>, Memory>
    ensures { IfOk result (λ list. list ≡ []) }
{
    Ok(List::from_vec(Vec::with_capacity(alloc, count)?))
}

/// The same elements, from the last one to the first.
///
/// # Errors
/// `Memory` where there is no room for the list.
#[tactic(auto, using(crate::proofs::Reversed::turned, crate::proofs::Reversed::turned_all))]
pub fn reversed<T: Drop>(alloc: Global, list: List<T>) -> Result<List<T>, Memory>
    ensures { IfOk result (λ reversed. reversed ≡ reverse list) }
{
    let mut rest = list;
    let mut found = with_room(alloc, rest.len())?;
    while let Some(item) = rest.pop() {
        found.push(item)?;
    }
    Ok(found)
}
