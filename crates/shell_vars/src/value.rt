ghost use Rattle.std.specs.Prelude.{◌≡◌, ◌-◌, ◌^◌, ◌<◌, ◌≤◌, ◌++◌, [], min, unwrap_or, IsTrue, Some, IfOk, IfErr, IfSome, OnOk, OnErr};
ghost use Rattle.std.specs.FinMap as map;
ghost use Rattle.std.specs.Option.{option_copied};
ghost use Rattle.shell_vars.specs.Elements.{can_join, index_of, joined};
ghost use Rattle.shell_vars.specs.Elements.{next_index as next_index_of};
ghost use Rattle.shell_vars.specs.Value.{elements_of, value_size, are_short, appended, checked, element_set};
ghost use Rattle.shell_vars.specs.Value.{element as element_of};
ghost use Rattle.shell_vars.specs.Stores.{Answers};
ghost use Rattle.shell_vars.specs.Changes.{size_at, text_added};
ghost use Rattle.shell_vars.specs.declared.value.Value.TheVariants as of;

use crate::elements::Elements;
use crate::error::VarErr;
use eb_bytes::{Bytes, Memory};
use std::alloc::Global;

/// A variable's value (Bash Reference Manual, "Shell Parameters" and "Arrays").
#[derive(Drop)]
pub enum Value {
    /// A text.
    Text(Bytes),
    /// An indexed array.
    Array(Elements),
}

impl Value {
    /// An equal value.
    ///
    /// # Errors
    /// `Memory`.
    pub fn copy(&self, alloc: Global) -> Result<Value, Memory>
        ensures { IfOk result (λ value. value ≡ self.now) }
    {
        match self {
            Value::Text(text) => Ok(Value::Text(Bytes::from_slice(alloc, text.as_slice())?)),
            Value::Array(elements) => Ok(Value::Array(elements.copy(alloc)?)),
        }
    }

    /// The index that a subscript means: a negative one has the greatest index plus one added. None where it is negative
    /// still.
    pub fn index(value: Option<&Value>, at: i64) -> Option<u64>
        ensures value { result ≡ index_of (elements_of (option_copied value.entry)) at }
        ensures within { IfSome result (λ index. index < 2 ^ 63) }
    {
        if at >= 0 {
            Some(at as u64)
        } else {
            Value::next_index(value).checked_sub(at.unsigned_abs())
        }
    }

    /// One more than the greatest index, and 0 without elements: a text is its own element 0.
    pub fn next_index(value: Option<&Value>) -> u64
        ensures value { result ≡ next_index_of (elements_of (option_copied value.entry)) }
        ensures within { result ≤ 2 ^ 63 }
    {
        match value {
            None => 0,
            Some(Value::Text(_)) => 1,
            Some(Value::Array(elements)) => elements.next_index(),
        }
    }

    /// The element at an index: a text is its own element 0.
    pub fn element(value: Option<&Value>, at: u64) -> Option<&Bytes>
        ensures { option_copied result ≡ map.get (elements_of (option_copied value.entry)) at }
    {
        match value {
            None => None,
            Some(Value::Text(text)) => text_element(text, at),
            Some(Value::Array(elements)) => elements.get(at),
        }
    }

    /// The element that a subscript means; without a subscript, element 0.
    ///
    /// # Errors
    /// `BadSubscript` where a negative subscript has no index.
    pub fn element_at(value: Option<&Value>, at: Option<i64>) -> Result<Option<&Bytes>, VarErr>
        ensures found { IfOk result (λ text. element_of at (option_copied value.entry) ≡ Ok (option_copied text)) }
        ensures refused { IfErr result (λ e. element_of at (option_copied value.entry) ≡ Err e) }
    {
        match Value::index(value, at.unwrap_or(0)) {
            Some(index) => Ok(Value::element(value, index)),
            None => Err(VarErr::BadSubscript),
        }
    }

    /// A copy of a value with this text as the element that a subscript means; a text is element 0 of an array first.
    ///
    /// # Errors
    /// `BadSubscript` where a negative subscript has no index, `ValueSize`, in this order, and `Memory`.
    pub fn with_element(
        alloc: Global,
        value: Option<&Value>,
        at: i64,
        text: Bytes,
    ) -> Result<Value, VarErr>
        ensures { Answers result (element_set at text (option_copied value.entry)) }
    {
        let Some(index) = Value::index(value, at) else {
            return Err(VarErr::BadSubscript);
        };
        if text.len() > 1_048_576 {
            return Err(VarErr::ValueSize);
        }
        let mut elements = copy_elements(alloc, value)?;
        elements.insert(index, text)?;
        Ok(Value::Array(elements))
    }

    /// A copy of a value with another appended, as `Vars::append` does it.
    ///
    /// # Errors
    /// `BadSubscript` where an index would pass 9223372036854775807, `ValueSize`, in this order, and `Memory`.
    pub fn with_appended(alloc: Global, value: Option<&Value>, more: Value) -> Result<Value, VarErr>
        ensures { Answers result (appended more (option_copied value.entry)) }
    {
        match value {
            None => short(more),
            Some(value) => value.and(alloc, more),
        }
    }

    // A copy of the value with another appended.
    fn and(&self, alloc: Global, more: Value) -> Result<Value, VarErr>
        ensures { Answers result (appended more (Some self.now)) }
    {
        match more {
            Value::Text(text) => self.and_text(alloc, text),
            Value::Array(more) => self.and_array(alloc, more),
        }
    }

    // With a text appended.
    fn and_text(&self, alloc: Global, more: Bytes) -> Result<Value, VarErr>
        ensures { Answers result (appended (of.Text more) (Some self.now)) }
    {
        match self {
            Value::Text(text) => short(Value::Text(joined_text(alloc, text.as_slice(), more)?)),
            Value::Array(elements) => {
                let text = joined_text(alloc, first_text(elements), more)?;
                Value::with_element(alloc, Some(self), 0, text)
            }
        }
    }

    // With the elements of an array appended.
    fn and_array(&self, alloc: Global, more: Elements) -> Result<Value, VarErr>
        ensures { Answers result (appended (of.Array more) (Some self.now)) }
    {
        let room = (1u64 << 63) - Value::next_index(Some(self));
        if more.len() as u64 > room {
            return Err(VarErr::BadSubscript);
        }
        if !more.are_short() {
            return Err(VarErr::ValueSize);
        }
        let mut elements = copy_elements(alloc, Some(self))?;
        elements.join(more)?;
        Ok(Value::Array(elements))
    }

    /// Whether the text, or each element by itself, has at most 1,048,576 bytes.
    pub(crate) fn is_short(&self) -> bool
        ensures { result ≡ are_short self.now }
    {
        match self {
            Value::Text(text) => text.len() <= 1_048_576,
            Value::Array(elements) => elements.are_short(),
        }
    }

    /// For each element its length and 16, together; 18446744073709551615 where that is more.
    pub(crate) fn size(&self) -> u64
        ensures { result ≡ min (value_size (Some self.now)) (2 ^ 64 - 1) }
    {
        match self {
            Value::Text(text) => (text.len() as u64).saturating_add(16),
            Value::Array(elements) => elements.size(),
        }
    }
}

// A value, where its texts are short enough.
fn short(value: Value) -> Result<Value, VarErr>
    ensures { Answers result (checked value) }
{
    if value.is_short() {
        Ok(value)
    } else {
        Err(VarErr::ValueSize)
    }
}

// Element 0, and no bytes where there is none.
fn first_text(elements: &Elements) -> &[u8]
    ensures { result.now ≡ unwrap_or (map.get elements.now 0) [] }
{
    match elements.get(0) {
        Some(text) => text.as_slice(),
        None => b"",
    }
}

// One text after the other.
fn joined_text(alloc: Global, first: &[u8], second: Bytes) -> Result<Bytes, Memory>
    ensures { IfOk result (λ joined. joined ≡ first.now ++ second) }
{
    let mut joined = Bytes::from_slice(alloc, first)?;
    joined.extend(second.as_slice())?;
    Ok(joined)
}

/// The size of a value, and 0 where there is none.
pub(crate) fn size_of(value: &Option<Value>) -> u64
    ensures { result ≡ min (value_size value.now) (2 ^ 64 - 1) }
{
    match value {
        Some(value) => value.size(),
        None => 0,
    }
}

/// The size of the element that has this index, and 0 where there is none.
pub(crate) fn element_size(value: &Option<Value>, at: u64) -> u64
    ensures { result ≡ min (size_at at value.now) (2 ^ 64 - 1) }
{
    match Value::element(value.as_ref(), at) {
        Some(text) => (text.len() as u64).saturating_add(16),
        None => 0,
    }
}

// The element of a text that has this index.
fn text_element(text: &Bytes, at: u64) -> Option<&Bytes>
    ensures { option_copied result ≡ map.get (elements_of (Some (of.Text text.now))) at }
{
    if at == 0 { Some(text) } else { None }
}

/// A copy of a value's elements.
///
/// # Errors
/// `Memory`.
pub(crate) fn copy_elements(alloc: Global, value: Option<&Value>) -> Result<Elements, Memory>
    ensures { IfOk result (λ elements. elements ≡ elements_of (option_copied value.entry)) }
{
    match value {
        None => Ok(Elements::new(alloc)),
        Some(Value::Text(text)) => {
            let mut elements = Elements::new(alloc);
            elements.insert(0, Bytes::from_slice(alloc, text.as_slice())?)?;
            Ok(elements)
        }
        Some(Value::Array(elements)) => elements.copy(alloc),
    }
}

/// Puts a text at an index; a text value becomes element 0 of an array first.
///
/// # Errors
/// `Memory`; the value is as before then.
pub(crate) fn put_element(
    alloc: Global,
    value: &mut Option<Value>,
    at: u64,
    text: Bytes,
) -> Result<(), Memory>
    requires { at < 2 ^ 63 }
    ensures ok { OnOk result (value.new ≡ Some (of.Array (map.insert (elements_of value.old) at text))) }
    ensures err { OnErr result (value.new ≡ value.old) }
{
    if let Some(Value::Array(elements)) = value {
        return elements.insert(at, text);
    }
    let mut elements = copy_elements(alloc, value.as_ref())?;
    elements.insert(at, text)?;
    *value = Some(Value::Array(elements));
    Ok(())
}

/// Puts more bytes at the end of a text, or of element 0 of an array, in place.
///
/// # Errors
/// `Memory`; the value is as before then.
pub(crate) fn append_text(value: &mut Option<Value>, more: &[u8]) -> Result<(), Memory>
    requires { IsTrue (map.contains_key (elements_of value.old) 0) }
    ensures ok { OnOk result (value.new ≡ Some (text_added more.now value.old)) }
    ensures err { OnErr result (value.new ≡ value.old) }
{
    match value {
        Some(Value::Text(text)) => text.extend(more),
        Some(Value::Array(elements)) => elements.extend(0, more),
        None => Ok(()),
    }
}

/// Puts other elements after the greatest index; a text value becomes element 0 of an array first.
///
/// # Errors
/// `Memory`; the value is as before then.
pub(crate) fn join_elements(
    alloc: Global,
    value: &mut Option<Value>,
    more: Elements,
) -> Result<(), Memory>
    requires { IsTrue (can_join (elements_of value.old) more) }
    ensures ok { OnOk result (value.new ≡ Some (of.Array (joined (elements_of value.old) more))) }
    ensures err { OnErr result (value.new ≡ value.old) }
{
    if let Some(Value::Array(elements)) = value {
        return elements.join(more);
    }
    let mut elements = copy_elements(alloc, value.as_ref())?;
    elements.join(more)?;
    *value = Some(Value::Array(elements));
    Ok(())
}

/// Takes an element away; a text value becomes element 0 of an array first.
pub(crate) fn take_element(alloc: Global, value: &mut Option<Value>, at: u64)
    requires { IsTrue (map.contains_key (elements_of value.old) at) }
    ensures { value.new ≡ Some (of.Array (map.remove (elements_of value.old) at)) }
{
    match value {
        Some(Value::Array(elements)) => elements.remove(at),
        Some(Value::Text(_)) => *value = Some(Value::Array(Elements::new(alloc))),
        None => {}
    }
}
