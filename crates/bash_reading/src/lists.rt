//! Lists of what was read.

ghost use Rattle.std.specs.Prelude.{◌≡◌, [], ◌∷◌, ◌++◌, MatchResult};

use bash_cursor::LexErr;
use shared::Shared;
use sqlite_items::{Boxed, Items as List};
use std::alloc::Global;

/// Puts an element at the end of a list.
///
/// # Errors
/// `Memory` where there is no room for it.
pub fn put<T: Drop>(list: &mut List<T>, item: T) -> Result<(), LexErr>
    ensures { MatchResult result (λ _. list.new ≡ list.old ++ item ∷ []) (λ e. e ≡ LexErr.Memory) }
{
    list.push(item)?;
    Ok(())
}

/// An element and those after it, in no more room than they take.
///
/// # Errors
/// `Memory` where there is no room for them.
pub fn list_with<T: Drop>(alloc: Global, first: T, others: List<T>) -> Result<List<T>, LexErr>
    ensures { MatchResult result (λ list. list ≡ first ∷ others) (λ e. e ≡ LexErr.Memory) }
{
    let room = others.len().saturating_add(1);
    let mut list = List::from_vec(Vec::with_capacity(alloc, room)?);
    list.push(first)?;
    list.append(others)?;
    Ok(list)
}

/// The same elements, in no more room than they take.
///
/// # Errors
/// `Memory` where there is no room for them.
pub fn fitted<T: Drop>(alloc: Global, list: List<T>) -> Result<List<T>, LexErr>
    ensures { MatchResult result (λ fitted. fitted ≡ list) (λ e. e ≡ LexErr.Memory) }
{
    let mut fitted = List::from_vec(Vec::with_capacity(alloc, list.len())?);
    fitted.append(list)?;
    Ok(fitted)
}

/// The value, held so that it can be shared.
///
/// # Errors
/// `Memory` where there is no room for it.
pub fn shared<T: Drop>(alloc: Global, value: T) -> Result<Shared<T>, LexErr>
    ensures { MatchResult result (λ held. held ≡ value) (λ e. e ≡ LexErr.Memory) }
{
    Ok(Shared::new(alloc, value)?)
}

/// The value, held by a pointer.
///
/// # Errors
/// `Memory` where there is no room for it.
pub fn boxed<T: Drop>(alloc: Global, value: T) -> Result<Boxed<T>, LexErr>
    ensures { MatchResult result (λ held. held ≡ value) (λ e. e ≡ LexErr.Memory) }
{
    Ok(Boxed::new(alloc, value)?)
}
