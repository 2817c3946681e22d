//! Literals of arrays.

ghost use Rattle.std.specs.Prelude.{◌≡◌, ◌≤◌, ◌<◌, ◌^◌, IfOk};
ghost use Rattle.std.specs.Option.{option_copied};
ghost use Rattle.bash_assign.specs.Arrays as arrays;
ghost use Rattle.bash_assign.specs.Values as values;
ghost use Rattle.shell_vars.specs.Elements.{index_of};
ghost use Rattle.shell_vars.specs.Stores.{Answers};
ghost use Rattle.shell_vars.specs.Value.{elements_of};

use eb_bytes::{Bytes, Memory};
use shell_vars::{Elements, Value, VarErr};
use std::alloc::Global;

// The number of indices that there are: the greatest is 9223372036854775807.
const INDICES: u64 = 9_223_372_036_854_775_808;

/// An element of a literal (Bash Reference Manual, "Arrays").
#[derive(Drop)]
pub struct Element {
    /// Its subscript, where it has one. A negative one counts from the end of what is there by then.
    pub at: Option<i64>,
    /// Its text.
    pub text: Bytes,
}

/// The array that a literal makes of a value: after `+=` its elements come after those of the value.
///
/// # Errors
/// `BadSubscript` where a subscript means no index, or an index would pass 9223372036854775807; `Memory`.
pub fn array_given(
    alloc: Global,
    appends: bool,
    elements: &[Element],
    old: Option<&Value>,
) -> Result<Value, VarErr>
    ensures { Answers result (values.array_given appends elements.now (option_copied old.entry)) }
{
    let array = if appends {
        let array = copied_elements(alloc, old)?;
        let next = array.next_index();
        put_elements(alloc, next, elements, array)?
    } else {
        put_elements(alloc, 0, elements, Elements::new(alloc))?
    };
    Ok(Value::Array(array))
}

// The elements of a value: a text is its own element 0.
fn copied_elements(alloc: Global, value: Option<&Value>) -> Result<Elements, Memory>
    ensures { IfOk result (λ array. array ≡ elements_of (option_copied value.entry)) }
{
    match value {
        None => Ok(Elements::new(alloc)),
        Some(Value::Text(text)) => {
            let mut array = Elements::new(alloc);
            array.insert(0, text.copy(alloc)?)?;
            Ok(array)
        }
        Some(Value::Array(array)) => array.copy(alloc),
    }
}

// Puts elements into an array, those without a subscript from `next` on, or after the one before.
fn put_elements(
    alloc: Global,
    next: u64,
    elements: &[Element],
    array: Elements,
) -> Result<Elements, VarErr>
    requires { next ≤ 2 ^ 63 }
    ensures { Answers result (arrays.put_elements next elements.now array) }
{
    let mut made = array;
    let mut place = next;
    for element in elements {
        let Some(index) = index_among(place, &made, element.at) else {
            return Err(VarErr::BadSubscript);
        };
        if index >= INDICES {
            return Err(VarErr::BadSubscript);
        }
        made.insert(index, element.text.copy(alloc)?)?;
        place = index + 1;
    }
    Ok(made)
}

// The index of an element: without a subscript it is the next one.
fn index_among(next: u64, array: &Elements, at: Option<i64>) -> Option<u64>
    ensures { result ≡ arrays.index_among next array.now at }
{
    match at {
        None => Some(next),
        Some(at) => index_in(array, at),
    }
}

// The index that a subscript means.
fn index_in(array: &Elements, at: i64) -> Option<u64>
    ensures { result ≡ index_of array.now at }
{
    if at >= 0 {
        Some(at as u64)
    } else {
        array.next_index().checked_sub(at.unsigned_abs())
    }
}
