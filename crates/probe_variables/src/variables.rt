use crate::place::{Place, read_place, refusal};
use eb_bytes::{Bytes, read_decimal};
use probe_base::{Answer, Fault, cut, parts, read_text};
use shell_vars::{Attr, Binding, Elements, FrameKind, Value, Vars, is_refused};
use std::alloc::Global;

/// `vars CALL..`: what a history of calls answers, `-` where it answers nothing. The calls stand at the head of
/// `data/variables.rows`.
pub fn vars(fields: &[&[u8]], answer: &mut Answer) -> Result<(), Fault> {
    let mut vars = Vars::new(answer.alloc())?;
    for field in fields {
        if let Err(fault) = step(field, &mut vars, answer) {
            answer.fail(fault);
        }
    }
    if answer.is_empty() {
        answer.word("-");
    }
    Ok(())
}

fn step(field: &[u8], vars: &mut Vars, answer: &mut Answer) -> Result<(), Fault> {
    let Some((call, rest)) = cut(field, b':') else {
        return frame(field, vars, answer);
    };
    match cut(rest, b'=') {
        Some((place, value)) => change(call, read_place(place)?, value, vars, answer),
        None => ask(call, read_place(rest)?, vars, answer),
    }
}

// A call on frames or subshells, and one without a name.
fn frame(call: &[u8], vars: &mut Vars, answer: &mut Answer) -> Result<(), Fault> {
    match call {
        b"(" => vars.push_frame(FrameKind::Call)?,
        b"[" => vars.push_frame(FrameKind::Prefix)?,
        b"{" => vars.open_sub()?,
        b")" if vars.is_frame_open() => vars.pop_frame(),
        b"}" if vars.is_sub_open() => vars.drop_sub(),
        b")" | b"}" => answer.word("closed"),
        b"bytes" => answer.number(vars.bytes_used()),
        _ => return Err(Fault::NoRequest),
    }
    Ok(())
}

// A call with a value.
fn change(
    call: &[u8],
    place: Place<'_>,
    value: &[u8],
    vars: &mut Vars,
    answer: &mut Answer,
) -> Result<(), Fault> {
    match (call, place.subscript) {
        (b"assign", _) | (b"set" | b"with", Some(_)) => {
            let text = read_text(answer.alloc(), value)?;
            change_place(call, place, text, vars, answer)
        }
        (_, None) => {
            let value = read_value(answer.alloc(), value)?;
            change_name(call, place.name, value, vars, answer)
        }
        _ => Err(Fault::NoRequest),
    }
}

// A call that gives a text to a name or to an element of it.
fn change_place(
    call: &[u8],
    place: Place<'_>,
    text: Bytes,
    vars: &mut Vars,
    answer: &mut Answer,
) -> Result<(), Fault> {
    let name = place.name;
    match (call, place.subscript) {
        (b"set", Some(subscript)) => vars.set_elem(name, subscript, text).map_err(refusal)?,
        (b"with", Some(subscript)) => {
            let value = Value::with_element(
                answer.alloc(),
                vars.get(name),
                subscript,
                text,
            ).map_err(refusal)?;
            put_value(Some(&value), answer);
        }
        (_, subscript) => vars.assign(name, subscript, text).map_err(refusal)?,
    }
    Ok(())
}

// A call that gives a value to a name.
fn change_name(
    call: &[u8],
    name: &[u8],
    value: Value,
    vars: &mut Vars,
    answer: &mut Answer,
) -> Result<(), Fault> {
    match call {
        b"set" => vars.set(name, value).map_err(refusal)?,
        b"set_global" => vars.set_global(name, value).map_err(refusal)?,
        b"append" => vars.append(name, value).map_err(refusal)?,
        b"local" => vars.local(name, Some(value)).map_err(refusal)?,
        b"bind" if vars.is_prefix_open() => vars.bind(name, value).map_err(refusal)?,
        b"bind" => answer.word("closed"),
        b"with" => {
            let value = Value::with_appended(answer.alloc(), vars.get(name), value).map_err(
                refusal,
            )?;
            put_value(Some(&value), answer);
        }
        _ => return Err(Fault::NoRequest),
    }
    Ok(())
}

// A call without a value.
fn ask(call: &[u8], place: Place<'_>, vars: &mut Vars, answer: &mut Answer) -> Result<(), Fault> {
    match (call, place.subscript) {
        (b"element", subscript) => put_text(
            vars.element(place.name, subscript).map_err(refusal)?,
            answer,
        ),
        (b"index", Some(at)) => put_index(Value::index(vars.get(place.name), at), answer),
        (b"unset", Some(subscript)) => vars.unset_elem(place.name, subscript).map_err(refusal)?,
        (_, None) => ask_name(call, place.name, vars, answer)?,
        _ => return Err(Fault::NoRequest),
    }
    Ok(())
}

fn ask_name(call: &[u8], name: &[u8], vars: &mut Vars, answer: &mut Answer) -> Result<(), Fault> {
    match call {
        b"get" => put_value(vars.get(name), answer),
        b"global" => put_value(vars.global(name), answer),
        b"binding" => put_binding(vars.local_binding(name), answer),
        b"refused" => answer.yes_or_no(is_refused(name)),
        b"copy" => put_copy(vars.get(name), answer)?,
        b"attr" => answer.word(attributes_word(vars.attr(name))),
        b"unset" => answer.yes_or_no(vars.unset(name).map_err(refusal)?),
        _ => mark_name(call, name, vars)?,
    }
    Ok(())
}

// A call without a value that answers nothing.
fn mark_name(call: &[u8], name: &[u8], vars: &mut Vars) -> Result<(), Fault> {
    match call {
        b"local" => vars.local(name, None).map_err(refusal)?,
        b"readonly" => vars.mark(name, READONLY).map_err(refusal)?,
        b"export" => vars.mark(name, EXPORTED).map_err(refusal)?,
        b"unset_global" => vars.unset_global(name).map_err(refusal)?,
        _ => return Err(Fault::NoRequest),
    }
    Ok(())
}

/// Readonly alone.
pub const READONLY: Attr = Attr {
    readonly: true,
    exported: false,
};

const EXPORTED: Attr = Attr {
    readonly: false,
    exported: true,
};

fn attributes_word(attributes: Attr) -> &'static str {
    match (attributes.readonly, attributes.exported) {
        (true, true) => "readonly,exported",
        (true, false) => "readonly",
        (false, true) => "exported",
        (false, false) => "plain",
    }
}

fn put_value(value: Option<&Value>, answer: &mut Answer) {
    match value {
        None => answer.word("none"),
        Some(Value::Text(text)) => answer.text(text.as_slice()),
        Some(Value::Array(elements)) => put_elements(elements, answer),
    }
}

// Puts a copy of the value.
fn put_copy(value: Option<&Value>, answer: &mut Answer) -> Result<(), Fault> {
    match value {
        Some(value) => put_value(Some(&value.copy(answer.alloc())?), answer),
        None => put_value(None, answer),
    }
    Ok(())
}

fn put_text(text: Option<&Bytes>, answer: &mut Answer) {
    match text {
        Some(text) => answer.text(text.as_slice()),
        None => answer.word("none"),
    }
}

fn put_index(index: Option<u64>, answer: &mut Answer) {
    match index {
        Some(index) => answer.number(index),
        None => answer.word("none"),
    }
}

fn put_binding(binding: Option<&Binding>, answer: &mut Answer) {
    match binding {
        Some(binding) => {
            put_value(binding.value.as_ref(), answer);
            answer.word(attributes_word(binding.attr));
        }
        None => answer.word("unbound"),
    }
}

fn put_elements(elements: &Elements, answer: &mut Answer) {
    answer.word("(");
    for (place, (index, text)) in elements.iter().enumerate() {
        if place > 0 {
            answer.push_word(",");
        }
        answer.push_number(*index);
        answer.push_word("=");
        answer.push_text(text.as_slice());
    }
    answer.push_word(")");
}

// A text, or the elements of an array in parentheses: `(0="a",2="c")`.
fn read_value(alloc: Global, field: &[u8]) -> Result<Value, Fault> {
    match field {
        [b'(', inner @ .., b')'] => Ok(Value::Array(read_elements(alloc, inner)?)),
        _ => Ok(Value::Text(read_text(alloc, field)?)),
    }
}

fn read_elements(alloc: Global, inner: &[u8]) -> Result<Elements, Fault> {
    let mut elements = Elements::new(alloc);
    if !inner.is_empty() {
        push_elements(alloc, inner, &mut elements)?;
    }
    Ok(elements)
}

fn push_elements(alloc: Global, inner: &[u8], elements: &mut Elements) -> Result<(), Fault> {
    for part in parts(alloc, inner, b',')? {
        push_element(alloc, part, elements)?;
    }
    Ok(())
}

fn push_element(alloc: Global, part: &[u8], elements: &mut Elements) -> Result<(), Fault> {
    let (index, text) = cut(part, b'=').ok_or(Fault::NoRequest)?;
    let index = read_decimal(index).ok_or(Fault::NoRequest)?;
    if index >= 1 << 63 {
        return Err(Fault::NoRequest);
    }
    elements.insert(index, read_text(alloc, text)?)?;
    Ok(())
}
