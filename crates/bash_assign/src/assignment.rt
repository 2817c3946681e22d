//! Assignments to names and to elements, alone and before a command.

ghost use Rattle.std.specs.Prelude.{◌≡◌, ◌≢◌, [], ◌++◌, unwrap_or, Err, IfErr, IfOk, IsTrue, OnErr, OnOk, Ok, Some};
ghost use Rattle.std.specs.Option.{option_copied};
ghost use Rattle.bash_assign.specs.Assignments.{changed};
ghost use Rattle.bash_assign.specs.Values as values;
ghost use Rattle.bash_assign.specs.Values.{bound_to};
ghost use Rattle.bash_assign.specs.declared.assignment.Given.TheVariants as given;
ghost use Rattle.shell_state.specs.Outcome.{Tells};
ghost use Rattle.shell_state.specs.State.{State};
ghost use Rattle.shell_vars.specs.Calls as call;
ghost use Rattle.shell_vars.specs.Store.{kinds};
ghost use Rattle.shell_vars.specs.Stores.{Answers, Refuses};

use crate::literal::{Element, array_given};
use eb_bytes::{Bytes, Memory};
use shell_state::Stop;
use shell_vars::{Value, VarErr, Vars};
use sqlite_items::Items as List;
use std::alloc::Global;

/// What is given to a name.
#[derive(Drop)]
pub enum Given {
    /// A text.
    Text(Bytes),
    /// The elements of a literal.
    Array(List<Element>),
}

/// An assignment, once it is expanded (Bash Reference Manual, "Shell Parameters", "Arrays").
#[derive(Drop)]
pub struct Assignment {
    /// The name.
    pub name: Bytes,
    /// Its subscript, where there is one.
    pub at: Option<i64>,
    /// Whether it is made by `+=`.
    pub appends: bool,
    /// What is given.
    pub given: Given,
}

impl Assignment {
    /// Makes it: a text that is given to a name that holds an array becomes its element 0, and `+=` appends.
    ///
    /// # Errors
    /// The fault of a refusal, with the name: `BadSubscript` where an array is given to an element, or a subscript means no
    /// index; `Readonly`, `ValueSize`, `TotalSize`; and `Memory`. Nothing changed then.
    #[tactic(auto, using(crate::proofs::Assigned::by_refusal))]
    pub fn make(self, alloc: Global, vars: &mut Vars) -> Result<(), Stop>
        ensures means { (at : State) → at.store ≡ vars.old.present →
            Tells result (changed self.name (values.made self at.store) at) (record at { store = vars.new.present }) }
        ensures no_file { result ≢ Err Stop.Failed }
        ensures unchanged { OnErr result (vars.new ≡ vars.old) }
        ensures saved { vars.new.saved ≡ vars.old.saved }
        ensures kinds { kinds vars.new.present ≡ kinds vars.old.present }
    {
        let Assignment {
            name,
            at,
            appends,
            given,
        } = self;
        match give(alloc, vars, name.as_slice(), at, appends, given) {
            Ok(()) => Ok(()),
            Err(refused) => Err(Stop::of_variable(alloc, name.as_slice(), refused)),
        }
    }

    /// Binds the name in the innermost frame, which must be one of assignments before a command, to the value that the
    /// assignment would give to what is seen; a plain text is given also where there is an array.
    ///
    /// # Errors
    /// As those of `make`. Nothing changed then.
    #[tactic(auto, using(crate::proofs::Assigned::by_refusal))]
    pub fn bind(self, alloc: Global, vars: &mut Vars) -> Result<(), Stop>
        requires { IsTrue (call.is_prefix_open vars.old.present) }
        ensures means { (at : State) → at.store ≡ vars.old.present →
            Tells result (changed self.name (values.bound self at.store) at) (record at { store = vars.new.present }) }
        ensures no_file { result ≢ Err Stop.Failed }
        ensures unchanged { OnErr result (vars.new ≡ vars.old) }
        ensures saved { vars.new.saved ≡ vars.old.saved }
        ensures kinds { kinds vars.new.present ≡ kinds vars.old.present }
    {
        let Assignment {
            name,
            at,
            appends,
            given,
        } = self;
        match bind_given(alloc, vars, name.as_slice(), at, appends, given) {
            Ok(()) => Ok(()),
            Err(refused) => Err(Stop::of_variable(alloc, name.as_slice(), refused)),
        }
    }
}

/// Gives what an assignment gives to a name, or to its element.
///
/// # Errors
/// The refusal. Nothing changed then.
pub fn give(
    alloc: Global,
    vars: &mut Vars,
    name: &[u8],
    at: Option<i64>,
    appends: bool,
    given: Given,
) -> Result<(), VarErr>
    ensures ok { OnOk result (values.given_to name.now at appends given vars.old.present ≡ Ok vars.new.present) }
    ensures refused { IfErr result (λ e. Refuses e (values.given_to name.now at appends given vars.old.present)) }
    ensures unchanged { OnErr result (vars.new ≡ vars.old) }
    ensures saved { vars.new.saved ≡ vars.old.saved }
    ensures kinds { kinds vars.new.present ≡ kinds vars.old.present }
{
    match given {
        Given::Text(text) => give_text(alloc, vars, name, at, appends, text),
        Given::Array(elements) => give_array(alloc, vars, name, at, appends, &elements),
    }
}

fn give_text(
    alloc: Global,
    vars: &mut Vars,
    name: &[u8],
    at: Option<i64>,
    appends: bool,
    text: Bytes,
) -> Result<(), VarErr>
    ensures ok { OnOk result (values.given_to name.now at appends (given.Text text) vars.old.present ≡ Ok vars.new.present) }
    ensures refused { IfErr result (λ e. Refuses e (values.given_to name.now at appends (given.Text text) vars.old.present)) }
    ensures unchanged { OnErr result (vars.new ≡ vars.old) }
    ensures saved { vars.new.saved ≡ vars.old.saved }
    ensures kinds { kinds vars.new.present ≡ kinds vars.old.present }
{
    if !appends {
        return vars.assign(name, at, text);
    }
    match at {
        None => vars.append(name, Value::Text(text)),
        Some(at) => extend_element(alloc, vars, name, at, &text),
    }
}

// A text after what the element has.
fn extend_element(
    alloc: Global,
    vars: &mut Vars,
    name: &[u8],
    at: i64,
    text: &Bytes,
) -> Result<(), VarErr>
    ensures ok { OnOk result (values.element_extended name.now at text.now vars.old.present ≡ Ok vars.new.present) }
    ensures refused { IfErr result (λ e. Refuses e (values.element_extended name.now at text.now vars.old.present)) }
    ensures unchanged { OnErr result (vars.new ≡ vars.old) }
    ensures saved { vars.new.saved ≡ vars.old.saved }
    ensures kinds { kinds vars.new.present ≡ kinds vars.old.present }
{
    let whole = joined(alloc, vars.element(name, Some(at))?, text)?;
    vars.set_elem(name, at, whole)
}

// A text after another one, which may be missing.
fn joined(alloc: Global, old: Option<&Bytes>, text: &Bytes) -> Result<Bytes, Memory>
    ensures { IfOk result (λ whole. whole ≡ unwrap_or (option_copied old.entry) [] ++ text.now) }
{
    let mut whole = match old {
        Some(old) => old.copy(alloc)?,
        None => Bytes::new(alloc),
    };
    whole.extend(text.as_slice())?;
    Ok(whole)
}

fn give_array(
    alloc: Global,
    vars: &mut Vars,
    name: &[u8],
    at: Option<i64>,
    appends: bool,
    elements: &List<Element>,
) -> Result<(), VarErr>
    ensures ok { OnOk result (values.given_to name.now at appends (given.Array elements.now) vars.old.present ≡ Ok vars.new.present) }
    ensures refused { IfErr result (λ e. Refuses e (values.given_to name.now at appends (given.Array elements.now) vars.old.present)) }
    ensures unchanged { OnErr result (vars.new ≡ vars.old) }
    ensures saved { vars.new.saved ≡ vars.old.saved }
    ensures kinds { kinds vars.new.present ≡ kinds vars.old.present }
{
    if at.is_some() {
        return Err(VarErr::BadSubscript);
    }
    let array = array_given(alloc, appends, elements.as_slice(), vars.get(name))?;
    vars.set(name, array)
}

// The name is bound in the innermost frame.
fn bind_given(
    alloc: Global,
    vars: &mut Vars,
    name: &[u8],
    at: Option<i64>,
    appends: bool,
    given: Given,
) -> Result<(), VarErr>
    requires { IsTrue (call.is_prefix_open vars.old.present) }
    ensures ok { OnOk result (bound_to name.now at appends given vars.old.present ≡ Ok vars.new.present) }
    ensures refused { IfErr result (λ e. Refuses e (bound_to name.now at appends given vars.old.present)) }
    ensures unchanged { OnErr result (vars.new ≡ vars.old) }
    ensures saved { vars.new.saved ≡ vars.old.saved }
    ensures kinds { kinds vars.new.present ≡ kinds vars.old.present }
{
    let value = value_given(alloc, at, appends, given, vars.get(name))?;
    vars.bind(name, value)
}

/// The value that an assignment gives where there is this one; a plain text is given also where there is an array.
///
/// # Errors
/// `BadSubscript` where an array is given to an element, a subscript means no index, or an index would pass
/// 9223372036854775807; `ValueSize`; and `Memory`.
pub fn value_given(
    alloc: Global,
    at: Option<i64>,
    appends: bool,
    given: Given,
    old: Option<&Value>,
) -> Result<Value, VarErr>
    ensures { Answers result (values.value_given at appends given (option_copied old.entry)) }
{
    match given {
        Given::Text(text) => text_given(alloc, at, appends, text, old),
        Given::Array(elements) => {
            if at.is_some() {
                return Err(VarErr::BadSubscript);
            }
            array_given(alloc, appends, elements.as_slice(), old)
        }
    }
}

fn text_given(
    alloc: Global,
    at: Option<i64>,
    appends: bool,
    text: Bytes,
    old: Option<&Value>,
) -> Result<Value, VarErr>
    ensures { Answers result (values.value_given at appends (given.Text text) (option_copied old.entry)) }
{
    match at {
        None if appends => Value::with_appended(alloc, old, Value::Text(text)),
        None => Ok(Value::Text(text)),
        Some(at) if appends => {
            let whole = joined(alloc, Value::element_at(old, Some(at))?, &text)?;
            Value::with_element(alloc, old, at, whole)
        }
        Some(at) => Value::with_element(alloc, old, at, text),
    }
}
