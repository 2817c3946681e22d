ghost use Rattle.std.specs.Prelude.{◌≡◌, ◌^◌, ◌<◌, ◌++◌, IfOk, IfErr, IfSome, OnOk, Some};
ghost use Rattle.std.specs.FinMap as map;
ghost use Rattle.shell_vars.specs.Value.{elements_of, checked, with_element, element_set, text_given, assigned, appended, is_short};
ghost use Rattle.shell_vars.specs.Calls.{rebound, rewritten, lessened};
ghost use Rattle.shell_vars.specs.Store.{unset_here};
ghost use Rattle.shell_vars.specs.Stores.{Refuses};
ghost use Rattle.shell_vars.specs.Changes.{Plans, PlansSome};
ghost use Rattle.shell_vars.specs.declared.value.Value.TheVariants as of;

use crate::binding::Binding;
use crate::change::Change;
use crate::elements::Elements;
use crate::error::VarErr;
use crate::value::Value;
use eb_bytes::Bytes;

/// Bytes in a text, at most.
const TEXT_LIMIT: usize = 1_048_576;

/// How a binding gets this value.
pub(crate) fn plan_set(held: &Binding, value: Value) -> Result<Change, VarErr>
    ensures { Plans result (rewritten (λ old. checked value) held.now) held.now }
{
    if held.attr.readonly {
        return Err(VarErr::Readonly);
    }
    plan_value(held, value)
}

/// How a binding gets this text as an element.
pub(crate) fn plan_element(held: &Binding, at: i64, text: Bytes) -> Result<Change, VarErr>
    ensures { Plans result (rewritten (element_set at text) held.now) held.now }
{
    if held.attr.readonly {
        return Err(VarErr::Readonly);
    }
    match Value::index(held.value.as_ref(), at) {
        Some(index) => plan_text(held, index, text),
        None => Err(VarErr::BadSubscript),
    }
}

/// How a binding is given this text, or its element that a subscript means is.
pub(crate) fn plan_assign(held: &Binding, at: Option<i64>, text: Bytes) -> Result<Change, VarErr>
    ensures { Plans result (rewritten (assigned at text) held.now) held.now }
{
    match at {
        Some(at) => plan_element(held, at, text),
        None => plan_given(held, text),
    }
}

// How a binding is given this text.
fn plan_given(held: &Binding, text: Bytes) -> Result<Change, VarErr>
    ensures { Plans result (rewritten (text_given text) held.now) held.now }
{
    if held.attr.readonly {
        return Err(VarErr::Readonly);
    }
    match held.value {
        Some(Value::Array(_)) => plan_text(held, 0, text),
        _ => plan_value(held, Value::Text(text)),
    }
}

/// How a binding gets a value after its own.
pub(crate) fn plan_append(held: &Binding, value: Value) -> Result<Change, VarErr>
    ensures { Plans result (rewritten (appended value) held.now) held.now }
{
    if held.attr.readonly {
        return Err(VarErr::Readonly);
    }
    match value {
        Value::Text(text) => plan_append_text(held, text),
        Value::Array(more) => plan_append_array(held, more),
    }
}

/// How a binding loses an element, if it has that.
pub(crate) fn plan_without(held: &Binding, at: i64) -> Result<Option<Change>, VarErr>
    ensures { PlansSome result (lessened at held.now) held.now }
{
    if held.attr.readonly {
        return Err(VarErr::Readonly);
    }
    let Some(index) = Value::index(held.value.as_ref(), at) else {
        return Err(VarErr::BadSubscript);
    };
    if Value::element(held.value.as_ref(), index).is_some() {
        Ok(Some(Change::Without(index)))
    } else {
        Ok(None)
    }
}

/// That the mark has no element to lose, though a negative subscript has no meaning there.
pub(crate) fn plan_nowhere(at: i64) -> Result<(), VarErr>
    ensures ok { OnOk result (lessened at unset_here ≡ Ok unset_here) }
    ensures refused { IfErr result (λ e. Refuses e (lessened at unset_here)) }
{
    match Value::index(None, at) {
        Some(_) => Ok(()),
        None => Err(VarErr::BadSubscript),
    }
}

// The value, where its texts are short enough.
fn plan_value(held: &Binding, value: Value) -> Result<Change, VarErr>
    ensures { Plans result (rebound (checked value) held.now) held.now }
{
    if value.is_short() {
        Ok(Change::Set(value))
    } else {
        Err(VarErr::ValueSize)
    }
}

// A text at an index, where it is short enough.
fn plan_text(held: &Binding, index: u64, text: Bytes) -> Result<Change, VarErr>
    requires { index < 2 ^ 63 }
    ensures { Plans result (rebound (with_element (Some index) text held.now.value) held.now) held.now }
{
    if text.len() <= TEXT_LIMIT {
        Ok(Change::Element(index, text))
    } else {
        Err(VarErr::ValueSize)
    }
}

// A text after a text or after element 0.
fn plan_append_text(held: &Binding, text: Bytes) -> Result<Change, VarErr>
    ensures { Plans result (rebound (appended (of.Text text) held.now.value) held.now) held.now }
{
    match &held.value {
        None => plan_value(held, Value::Text(text)),
        Some(Value::Text(first)) => plan_more(held, first, text),
        Some(Value::Array(elements)) => plan_first(held, elements, text),
    }
}

// A text after element 0 of an array; it is element 0 where there was none.
fn plan_first(held: &Binding, elements: &Elements, text: Bytes) -> Result<Change, VarErr>
    requires { held.now.value ≡ Some (of.Array elements.now) }
    ensures { Plans result (rebound (appended (of.Text text) held.now.value) held.now) held.now }
{
    match elements.get(0) {
        Some(first) => plan_more(held, first, text),
        None => plan_text(held, 0, text),
    }
}

// A text after the one that is element 0, where both are short enough together.
fn plan_more(held: &Binding, first: &Bytes, text: Bytes) -> Result<Change, VarErr>
    requires { map.get (elements_of held.now.value) 0 ≡ Some first.now }
    ensures { Plans result (rebound (appended (of.Text text) held.now.value) held.now) held.now }
{
    if is_short_after(first, &text) {
        Ok(Change::Append(text))
    } else {
        Err(VarErr::ValueSize)
    }
}

// Whether two texts together are short enough.
fn is_short_after(first: &Bytes, text: &Bytes) -> bool
    ensures { result ≡ is_short (first.now ++ text.now) }
{
    first.len().saturating_add(text.len()) <= TEXT_LIMIT
}

// Elements after the greatest index.
fn plan_append_array(held: &Binding, more: Elements) -> Result<Change, VarErr>
    ensures { Plans result (rebound (appended (of.Array more) held.now.value) held.now) held.now }
{
    if held.value.is_none() {
        return plan_value(held, Value::Array(more));
    }
    let room = (1u64 << 63) - Value::next_index(held.value.as_ref());
    if more.len() as u64 > room {
        return Err(VarErr::BadSubscript);
    }
    if more.are_short() {
        Ok(Change::Join(more))
    } else {
        Err(VarErr::ValueSize)
    }
}
