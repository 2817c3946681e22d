//! What a declaration makes of a variable.

ghost use Rattle.std.specs.Prelude.{◌≡◌, IfErr, Ok, OnOk};
ghost use Rattle.std.specs.Option.{option_copied};
ghost use Rattle.bash_declare.specs.Effects as effects;
ghost use Rattle.shell_vars.specs.Store.{kinds};
ghost use Rattle.shell_vars.specs.Stores.{Answers, Refuses};
ghost use Rattle.shell_vars.specs.Value.{assigned};

use crate::options::Options;
use bash_assign::{Assignment, Given, give, value_given};
use eb_bytes::Bytes;
use eb_syntax::DeclName;
use shell_vars::{Attr, Value, VarErr, Vars};
use std::alloc::Global;

/// Where a declaration acts.
#[derive(Clone, Copy)]
pub enum Place {
    /// Where an assignment does.
    Seen,
    /// In the frame of the innermost call.
    Local,
    /// In the global frame.
    Global,
}

// Names a variable, without a value.
#[tactic(auto, using(crate::proofs::Places::named_outside, crate::proofs::Places::named_inside, crate::proofs::Places::named_refused))]
pub(crate) fn name(
    declaration: DeclName,
    global: bool,
    vars: &mut Vars,
    name: &[u8],
) -> Result<(), VarErr>
    ensures ok { OnOk result (effects.named_in (effects.place_of declaration global vars.old.present) name.now vars.old.present ≡ Ok vars.new.present) }
    ensures refused { IfErr result (λ e. Refuses e (effects.named_in (effects.place_of declaration global vars.old.present) name.now vars.old.present)) }
    ensures saved { vars.new.saved ≡ vars.old.saved }
    ensures kinds { kinds vars.new.present ≡ kinds vars.old.present }
{
    match declaration {
        DeclName::Local => vars.local(name, None),
        DeclName::Declare | DeclName::Typeset if !global => match vars.local(name, None) {
            Err(VarErr::LocalOutside) => Ok(()),
            named => named,
        },
        _ => Ok(()),
    }
}

// Gives a variable what an assignment gives.
#[tactic(auto, using(crate::proofs::Places::given_outside, crate::proofs::Places::given_local, crate::proofs::Places::given_refused))]
pub(crate) fn give_declared(
    alloc: Global,
    declaration: DeclName,
    global: bool,
    vars: &mut Vars,
    assignment: Assignment,
) -> Result<(), VarErr>
    ensures ok { OnOk result (effects.given_in (effects.place_of declaration global vars.old.present) assignment.name assignment.at assignment.appends assignment.given vars.old.present ≡ Ok vars.new.present) }
    ensures refused { IfErr result (λ e. Refuses e (effects.given_in (effects.place_of declaration global vars.old.present) assignment.name assignment.at assignment.appends assignment.given vars.old.present)) }
    ensures saved { vars.new.saved ≡ vars.old.saved }
    ensures kinds { kinds vars.new.present ≡ kinds vars.old.present }
{
    let Assignment {
        name,
        at,
        appends,
        given,
    } = assignment;
    let name = name.as_slice();
    match declaration {
        DeclName::Export | DeclName::Readonly => give(alloc, vars, name, at, appends, given),
        DeclName::Local => {
            vars.local(name, None)?;
            give_locally(alloc, vars, name, at, appends, given)
        }
        DeclName::Declare | DeclName::Typeset => {
            if global {
                return give_globally(alloc, vars, name, at, appends, given);
            }
            match vars.local(name, None) {
                Ok(()) => give_locally(alloc, vars, name, at, appends, given),
                Err(VarErr::LocalOutside) => give(alloc, vars, name, at, appends, given),
                Err(refused) => Err(refused),
            }
        }
    }
}

fn give_locally(
    alloc: Global,
    vars: &mut Vars,
    name: &[u8],
    at: Option<i64>,
    appends: bool,
    given: Given,
) -> Result<(), VarErr>
    ensures ok { OnOk result (effects.given_locally name.now at appends given vars.old.present ≡ Ok vars.new.present) }
    ensures refused { IfErr result (λ e. Refuses e (effects.given_locally name.now at appends given vars.old.present)) }
    ensures saved { vars.new.saved ≡ vars.old.saved }
    ensures kinds { kinds vars.new.present ≡ kinds vars.old.present }
{
    let value = value_made(alloc, at, appends, given, local_value(vars, name))?;
    vars.local(name, Some(value))
}

// The value that a name has in the frame of the innermost call.
fn local_value<'a>(vars: &'a Vars, name: &[u8]) -> Option<&'a Value>
    ensures { option_copied result ≡ effects.local_value name.now vars.now.present }
{
    match vars.local_binding(name) {
        Some(binding) => binding.value.as_ref(),
        None => None,
    }
}

fn give_globally(
    alloc: Global,
    vars: &mut Vars,
    name: &[u8],
    at: Option<i64>,
    appends: bool,
    given: Given,
) -> Result<(), VarErr>
    ensures ok { OnOk result (effects.given_in Place.Global name.now at appends given vars.old.present ≡ Ok vars.new.present) }
    ensures refused { IfErr result (λ e. Refuses e (effects.given_in Place.Global name.now at appends given vars.old.present)) }
    ensures saved { vars.new.saved ≡ vars.old.saved }
    ensures kinds { kinds vars.new.present ≡ kinds vars.old.present }
{
    let value = value_made(alloc, at, appends, given, vars.global(name))?;
    vars.set_global(name, value)
}

// The value that an assignment makes of the one that is there.
fn value_made(
    alloc: Global,
    at: Option<i64>,
    appends: bool,
    given: Given,
    old: Option<&Value>,
) -> Result<Value, VarErr>
    ensures { Answers result (effects.value_made at appends given (option_copied old.entry)) }
{
    match given {
        Given::Text(text) if !appends => text_given(alloc, at, text, old),
        given => value_given(alloc, at, appends, given, old),
    }
}

// A text given to an array is its element 0.
fn text_given(
    alloc: Global,
    at: Option<i64>,
    text: Bytes,
    old: Option<&Value>,
) -> Result<Value, VarErr>
    ensures { Answers result (assigned at text (option_copied old.entry)) }
{
    match (at, old) {
        (Some(at), old) => Value::with_element(alloc, old, at, text),
        (None, Some(Value::Array(_))) => Value::with_element(alloc, old, 0, text),
        (None, _) if text.len() > 1_048_576 => Err(VarErr::ValueSize),
        (None, _) => Ok(Value::Text(text)),
    }
}

// After `-a` a text without a subscript becomes element 0.
pub(crate) fn subscript_of(array: bool, given: &Given, at: Option<i64>) -> Option<i64>
    ensures { result ≡ effects.subscript_of array given.now at }
{
    match given {
        Given::Text(_) if array => at.or(Some(0)),
        _ => at,
    }
}

// The attributes that it adds.
pub(crate) fn attributes_of(declaration: DeclName, options: Options) -> Attr
    ensures { result ≡ effects.attributes_of declaration options }
{
    Attr {
        readonly: options.readonly || matches!(declaration, DeclName::Readonly),
        exported: options.exported || matches!(declaration, DeclName::Export),
    }
}

// Adds the attributes, where there are any.
pub(crate) fn mark(vars: &mut Vars, name: &[u8], attr: Attr) -> Result<(), VarErr>
    ensures ok { OnOk result (effects.marked_with attr name.now vars.old.present ≡ Ok vars.new.present) }
    ensures refused { IfErr result (λ e. Refuses e (effects.marked_with attr name.now vars.old.present)) }
    ensures saved { vars.new.saved ≡ vars.old.saved }
    ensures kinds { kinds vars.new.present ≡ kinds vars.old.present }
{
    if attr.readonly || attr.exported {
        vars.mark(name, attr)
    } else {
        Ok(())
    }
}
