//! What is shown of variables and of functions.

ghost use Rattle.std.specs.Prelude.{◌≡◌, ◌++◌, flat_map, IfOk, OnOk};
ghost use Rattle.std.specs.Option.{option_copied};
ghost use Rattle.bash_declare.specs.Shown as shown;

use eb_bytes::{Bytes, Memory, decimal};
use shell_functions::Funcs;
use shell_vars::{Attr, Elements, Value, Vars};
use std::alloc::Global;

/// What is printed, and the status.
#[derive(Drop)]
pub(crate) struct Told {
    pub text: Bytes,
    pub status: u8,
}

// Puts a text in double quotes at the end.
fn push_quoted(out: &mut Bytes, text: &[u8]) -> Result<(), Memory>
    ensures { OnOk result (out.new ≡ out.old ++ shown.quoted text.now) }
{
    out.push(b'"')?;
    push_escaped(out, text)?;
    out.push(b'"')
}

fn push_escaped(out: &mut Bytes, text: &[u8]) -> Result<(), Memory>
    ensures { OnOk result (out.new ≡ out.old ++ flat_map shown.quoted_byte text.now) }
{
    for byte in text {
        if matches!(*byte, b'$' | b'`' | b'"' | b'\\') {
            out.push(b'\\')?;
        }
        out.push(*byte)?;
    }
    Ok(())
}

// Puts `[INDEX]="TEXT"` at the end.
fn push_element(alloc: Global, out: &mut Bytes, at: u64, text: &Bytes) -> Result<(), Memory>
    ensures { OnOk result (out.new ≡ out.old ++ shown.element (at, text.now)) }
{
    out.push(b'[')?;
    out.extend(decimal(alloc, at)?.as_slice())?;
    out.extend(b"]=")?;
    push_quoted(out, text.as_slice())
}

// Puts all elements at the end, a blank between each two.
fn push_elements(alloc: Global, out: &mut Bytes, elements: &Elements) -> Result<(), Memory>
    ensures { OnOk result (out.new ≡ out.old ++ shown.elements elements.now) }
{
    let mut is_first = true;
    for (at, text) in elements.iter() {
        if !is_first {
            out.push(b' ')?;
        }
        is_first = false;
        push_element(alloc, out, *at, text)?;
    }
    Ok(())
}

fn push_value(alloc: Global, out: &mut Bytes, value: &Value) -> Result<(), Memory>
    ensures { OnOk result (out.new ≡ out.old ++ shown.value_shown value.now) }
{
    match value {
        Value::Text(text) => push_quoted(out, text.as_slice()),
        Value::Array(elements) => {
            out.push(b'(')?;
            push_elements(alloc, out, elements)?;
            out.push(b')')
        }
    }
}

// Puts `-` and the letters of the attributes at the end, or `--`.
fn push_letters(out: &mut Bytes, value: Option<&Value>, attr: Attr) -> Result<(), Memory>
    ensures { OnOk result (out.new ≡ out.old ++ shown.dashed (shown.letters (option_copied value.entry) attr)) }
{
    let is_array = matches!(value, Some(Value::Array(_)));
    out.push(b'-')?;
    if is_array {
        out.push(b'a')?;
    }
    if attr.readonly {
        out.push(b'r')?;
    }
    if attr.exported {
        out.push(b'x')?;
    }
    if !is_array && !attr.readonly && !attr.exported {
        out.push(b'-')?;
    }
    Ok(())
}

// Puts the line of a variable at the end.
fn push_line(
    alloc: Global,
    out: &mut Bytes,
    name: &[u8],
    value: Option<&Value>,
    attr: Attr,
) -> Result<(), Memory>
    ensures { OnOk result (out.new ≡ out.old ++ shown.line name.now (option_copied value.entry) attr) }
{
    out.extend(b"declare ")?;
    push_letters(out, value, attr)?;
    out.push(b' ')?;
    out.extend(name)?;
    if let Some(value) = value {
        out.push(b'=')?;
        push_value(alloc, out, value)?;
    }
    out.push(b'\n')
}

// Puts the line of a name at the end, if it has one.
fn push_variable(
    alloc: Global,
    told: &mut Told,
    name: &[u8],
    value: Option<&Value>,
    attr: Attr,
) -> Result<(), Memory>
    ensures { OnOk result (told.new ≡ shown.with_line (shown.line_if (shown.has_line (option_copied value.entry) attr) (shown.line name.now (option_copied value.entry) attr)) told.old) }
{
    if value.is_some() || attr.readonly || attr.exported {
        push_line(alloc, &mut told.text, name, value, attr)
    } else {
        told.status = 1;
        Ok(())
    }
}

// What is told of these variables.
pub(crate) fn variables_told(alloc: Global, names: &[Bytes], vars: &Vars) -> Result<Told, Memory>
    ensures { IfOk result (λ told. told ≡ shown.told (shown.line_of vars.now.present) names.now) }
{
    let mut told = Told {
        text: Bytes::new(alloc),
        status: 0,
    };
    for name in names {
        let name = name.as_slice();
        push_variable(alloc, &mut told, name, vars.get(name), vars.attr(name))?;
    }
    Ok(told)
}

// What is told of these functions.
pub(crate) fn functions_told(alloc: Global, names: &[Bytes], funcs: &Funcs) -> Result<Told, Memory>
    ensures { IfOk result (λ told. told ≡ shown.told (shown.function_line funcs.now.present) names.now) }
{
    let mut told = Told {
        text: Bytes::new(alloc),
        status: 0,
    };
    for name in names {
        if funcs.get(name.as_slice()).is_some() {
            told.text.extend(name.as_slice())?;
            told.text.push(b'\n')?;
        } else {
            told.status = 1;
        }
    }
    Ok(told)
}
