ghost use Rattle.std.specs.Prelude.{◌≡◌, ◌≢◌, ◌+◌, ◌≤◌, ◌==◌, Err, nat_le, length};
ghost use Rattle.std.specs.List.{position_or_len};
ghost use Rattle.std.specs.Option.{option_copied};
ghost use Rattle.std.specs.Str.Parse.{digits_value};
ghost use Rattle.shell_vars.specs.Store.{kinds};
ghost use Rattle.shell_state.specs.Outcome.{Tells};
ghost use Rattle.shell_state.specs.Spending.{left};
ghost use Rattle.shell_state.specs.State.{State};
ghost use Rattle.shell_state.specs.declared.fault.Fault.TheVariants as fault;
ghost use Rattle.run_meaning.specs.Builtins.{after_bracket as after_bracket_of};
ghost use Rattle.run_meaning.specs.Conditions.{bracketed as bracketed_of, has_at as has_at_of, has_element as has_element_of, has_elements as has_elements_of, has_special as has_special_of, is_set as is_set_of};
ghost use Rattle.bash_unary.specs.Parameters.{IsFault, has_any, has_variable as has_variable_of, means_all as means_all_of, subscript_of};

use bash_cond::value_of;
use eb_bytes::{Budget, Bytes, Memory, Steps};
use eb_syntax::{Ref, RefOf, Sub};
use expand_values::number;
use shell_state::{Fault, Stop};
use shell_vars::{Value, Vars, is_refused};
use std::alloc::Global;
use std::sync::ledger::Ledger;

fn unsupported(alloc: Global, what: &[u8]) -> Stop
    ensures { IsFault result (fault.Unsupported what.now) }
{
    match Bytes::from_slice(alloc, what) {
        Ok(what) => Stop::Fault(Fault::Unsupported(what)),
        Err(Memory) => Stop::Memory,
    }
}

fn bad_substitution(alloc: Global, operand: &[u8]) -> Stop
    ensures { IsFault result (fault.BadSubstitution operand.now) }
{
    match Bytes::from_slice(alloc, operand) {
        Ok(operand) => Stop::Fault(Fault::BadSubstitution(operand)),
        Err(Memory) => Stop::Memory,
    }
}

// Whether there is the element; without an index that of index 0, or the variable's text.
fn has_element(alloc: Global, name: &[u8], index: Option<i64>, vars: &Vars) -> Result<bool, Stop>
    ensures means { (at : State) → at.store ≡ vars.now.present → Tells result (has_element_of name.now index at) at }
    ensures no_file { result ≢ Err Stop.Failed }
{
    if is_refused(name) {
        return Err(unsupported(alloc, name));
    }
    match vars.element(name, index) {
        Ok(text) => Ok(text.is_some()),
        Err(refused) => Err(Stop::of_variable(alloc, name, refused)),
    }
}

// Whether a value has any element. A text is its own element 0.
#[tactic(auto, using(crate::proofs::Set::of_text, crate::proofs::Set::of_nothing))]
fn is_not_empty(value: Option<&Value>) -> bool
    ensures { result ≡ has_any (option_copied value.entry) }
{
    match value {
        Some(Value::Array(elements)) => elements.len() != 0,
        Some(Value::Text(_)) => true,
        None => false,
    }
}

// Whether there is any element.
fn has_elements(alloc: Global, name: &[u8], vars: &Vars) -> Result<bool, Stop>
    ensures means { (at : State) → at.store ≡ vars.now.present → Tells result (has_elements_of name.now at) at }
    ensures no_file { result ≢ Err Stop.Failed }
{
    if is_refused(name) {
        return Err(unsupported(alloc, name));
    }
    Ok(is_not_empty(vars.get(name)))
}

// The place of the first `[`, or the length where there is none.
fn bracket_place(operand: &[u8]) -> usize
    ensures value { result ≡ position_or_len (λ b. b == 91) operand.now }
    ensures within { result ≤ length operand.now }
{
    operand.iter().take_while(|byte| **byte != b'[').count()
}

// What stands after the first `[`.
#[tactic(auto, using(crate::proofs::Set::behind_bracket))]
fn after_bracket(operand: &[u8]) -> &[u8]
    ensures { result.now ≡ after_bracket_of operand.now }
{
    match operand.get(bracket_place(operand) + 1..) {
        Some(rest) => rest,
        None => &[],
    }
}

// What stands between the first `[` and the last byte.
fn bracketed(operand: &[u8]) -> &[u8]
    ensures { result.now ≡ bracketed_of operand.now }
{
    match after_bracket(operand) {
        [inside @ .., _] => inside,
        [] => &[],
    }
}

// Whether a subscript means all elements.
fn means_all(subscript: &[u8]) -> bool
    ensures { result ≡ means_all_of subscript.now }
{
    subscript == b"@".as_slice() || subscript == b"*".as_slice()
}

// Whether there is the element that a subscript means, which is evaluated before the variable is read; with `@` or `*`
// whether there is any.
fn has_at<L: Ledger>(
    alloc: Global,
    name: &[u8],
    subscript: &[u8],
    vars: &mut Vars,
    budget: &mut Budget,
    steps: &mut Steps<L>,
) -> Result<bool, Stop>
    ensures means { (at : State) → at.store ≡ vars.old.present → at.left ≡ left budget.old →
        Tells result (has_at_of name.now subscript.now at) (record at { store = vars.new.present; left = left budget.new }) }
    ensures no_file { result ≢ Err Stop.Failed }
    ensures saved { vars.new.saved ≡ vars.old.saved }
    ensures kinds { kinds vars.new.present ≡ kinds vars.old.present }
    ensures limit { budget.new.limit ≡ budget.old.limit }
    ensures used { budget.old.used ≤ budget.new.used }
    ensures ticks { steps.new + budget.old.used ≡ steps.old + budget.new.used }
{
    if means_all(subscript) {
        return has_elements(alloc, name, vars);
    }
    match value_of(alloc, subscript, vars, budget, steps) {
        Ok(index) => has_element(alloc, name, Some(index), vars),
        Err(stopped) => Err(stopped),
    }
}

// Whether there is the positional parameter of this number; that of 0 is always there.
fn has_argument(digits: &[u8], args: &[Bytes]) -> bool
    ensures { result ≡ nat_le (digits_value 10 digits.now) (length args.now) }
{
    match number(digits) {
        Some(number) => number <= args.len() as u64,
        None => false,
    }
}

// Whether a special parameter has a value.
fn has_special(alloc: Global, parameter: u8, args: &[Bytes]) -> Result<bool, Stop>
    ensures means { (at : State) → at.args ≡ args.now → Tells result (has_special_of parameter at) at }
    ensures no_file { result ≢ Err Stop.Failed }
{
    match parameter {
        b'@' | b'*' => Ok(!args.is_empty()),
        b'#' | b'?' => Ok(true),
        _ => Err(unsupported(alloc, &[b'$', parameter])),
    }
}

// Whether a variable is set, or with a subscript, which stands in the operand's brackets, its element.
fn has_variable<L: Ledger>(
    alloc: Global,
    name: &[u8],
    subscript: Option<&[u8]>,
    vars: &mut Vars,
    budget: &mut Budget,
    steps: &mut Steps<L>,
) -> Result<bool, Stop>
    ensures means { (at : State) → at.store ≡ vars.old.present → at.left ≡ left budget.old →
        Tells result (has_variable_of name.now (option_copied subscript.entry) at) (record at { store = vars.new.present; left = left budget.new }) }
    ensures no_file { result ≢ Err Stop.Failed }
    ensures saved { vars.new.saved ≡ vars.old.saved }
    ensures kinds { kinds vars.new.present ≡ kinds vars.old.present }
    ensures limit { budget.new.limit ≡ budget.old.limit }
    ensures used { budget.old.used ≤ budget.new.used }
    ensures ticks { steps.new + budget.old.used ≡ steps.old + budget.new.used }
{
    match subscript {
        Some(subscript) => has_at(alloc, name, subscript, vars, budget, steps),
        None => has_element(alloc, name, None, vars),
    }
}

// What stands in the operand's brackets, where a subscript was read in it.
fn subscript_in<'a>(operand: &'a [u8], read: Option<&Sub>) -> Option<&'a [u8]>
    ensures { option_copied result ≡ subscript_of operand.now (option_copied read.entry) }
{
    match read {
        Some(_) => Some(bracketed(operand)),
        None => None,
    }
}

// Whether the parameter is set that `reference` is, as which the whole text of `operand` is read: a variable, or an
// element of it; a positional parameter; a special one. An operand that is none is at fault.
#[tactic(auto, using(crate::proofs::Set::of_special))]
pub(crate) fn is_set<L: Ledger>(
    alloc: Global,
    operand: &[u8],
    reference: Option<&Ref>,
    args: &[Bytes],
    vars: &mut Vars,
    budget: &mut Budget,
    steps: &mut Steps<L>,
) -> Result<bool, Stop>
    ensures means { (at : State) → at.store ≡ vars.old.present → at.args ≡ args.now → at.left ≡ left budget.old →
        Tells result (is_set_of operand.now (option_copied reference.entry) at) (record at { store = vars.new.present; left = left budget.new }) }
    ensures no_file { result ≢ Err Stop.Failed }
    ensures saved { vars.new.saved ≡ vars.old.saved }
    ensures kinds { kinds vars.new.present ≡ kinds vars.old.present }
    ensures limit { budget.new.limit ≡ budget.old.limit }
    ensures used { budget.old.used ≤ budget.new.used }
    ensures ticks { steps.new + budget.old.used ≡ steps.old + budget.new.used }
{
    match reference {
        None => Err(bad_substitution(alloc, operand)),
        Some(RefOf::Name(name, read)) => {
            let subscript = subscript_in(operand, read.as_ref());
            has_variable(alloc, name.as_slice(), subscript, vars, budget, steps)
        }
        Some(RefOf::Digits(digits)) => Ok(has_argument(digits.as_slice(), args)),
        Some(RefOf::Special(parameter)) => has_special(alloc, *parameter, args),
    }
}
