ghost use Rattle.std.specs.Prelude.{◌≡◌, ◌≢◌, ℤ, Some, None, Err, IfOk, IfSome, IfNone, ◌≤◌, ◌^◌, ◌+◌, ◌*◌, ℕ, [], ◌∷◌, decimal as decimal_text};
ghost use Rattle.std.specs.Char.{digit_value};
ghost use Rattle.std.specs.Str.Parse.{digits_value};
ghost use Rattle.eb_bytes.specs.Text.{Text};
ghost use Rattle.eb_syntax.specs.Tree.{Sub};
ghost use Rattle.eb_syntax.specs.declared.parts.RefOf.TheVariants as ref;
ghost use Rattle.shell_state.specs.Outcome.{Doing};
ghost use Rattle.shell_state.specs.State.{State};
ghost use Rattle.shell_vars.specs.Value.{elements_of};
ghost use Rattle.std.specs.Option.{option_copied};
ghost use Rattle.word_meaning.specs.References.{positional as positional_in, referred, special as special_of, subscripted};
ghost use Rattle.expand_values.specs.Digits.{LeadsTo};
ghost use Rattle.expand_values.specs.Seen.{element_at, Finds, Reads};

use crate::found::{Found, Place, Source};
use crate::named::value_named;
use eb_bytes::{Bytes, Memory, decimal};
use shell_state::{Fault, Stop};
use shell_vars::{Elements, Value, Vars, is_refused};
use sqlite_items::Items as List;
use std::alloc::Global;

// Whether the variable of this name may be read.
fn may_read(alloc: Global, name: &[u8]) -> Result<(), Stop>
    ensures { Reads result name.now }
{
    if is_refused(name) {
        return Err(Stop::Fault(Fault::Unsupported(Bytes::from_slice(alloc, name)?)));
    }
    Ok(())
}

// A copy of a text, if there is one.
fn copied(alloc: Global, text: Option<&Bytes>) -> Result<Option<Bytes>, Memory>
    ensures { IfOk result (λ copy. copy ≡ option_copied text.entry) }
{
    match text {
        Some(text) => Ok(Some(text.copy(alloc)?)),
        None => Ok(None),
    }
}

// A value that a variable, or an element of it, has or has not.
fn of_variable(
    alloc: Global,
    name: &[u8],
    index: Option<i64>,
    text: Option<&Bytes>,
) -> Result<Found, Memory>
    ensures { IfOk result (λ found. found ≡ Found.One (option_copied text.entry) (Some (record { name = name.now; index = index }))) }
{
    let text = copied(alloc, text)?;
    let name = Bytes::from_slice(alloc, name)?;
    Ok(Found::One(text, Some(Place { name, index })))
}

/// A variable, or element 0 of an array.
///
/// # Errors
/// `Unsupported` with the name where a shell makes up its value as it is read; `Memory`.
#[tactic(auto, using(crate::proofs::Refusals::refused))]
pub fn variable(alloc: Global, vars: &Vars, name: &[u8]) -> Result<Found, Stop>
    ensures { (index : Sub → Doing ℤ) (at : State) → at.store ≡ vars.now.present → Finds result (referred index (ref.Name name.now None) at) at }
{
    if let Err(stopped) = may_read(alloc, name) {
        return Err(stopped);
    }
    Ok(of_variable(alloc, name, None, value_named(vars, name))?)
}

/// The element of a variable that an index means; a negative one counts from the end.
///
/// # Errors
/// `Unsupported` with the name where a shell makes up the variable's value as it is read; `BadSubscript` with the name
/// where no element can have that index; `Memory`.
#[tactic(auto, using(crate::proofs::Refusals::refused))]
pub fn element(alloc: Global, vars: &Vars, name: &[u8], index: i64) -> Result<Found, Stop>
    ensures { (at : State) → at.store ≡ vars.now.present → Finds result (element_at name.now index at) at }
{
    if let Err(stopped) = may_read(alloc, name) {
        return Err(stopped);
    }
    match vars.element(name, Some(index)) {
        Ok(text) => Ok(of_variable(alloc, name, Some(index), text)?),
        Err(refused) => Err(Stop::of_variable(alloc, name, refused)),
    }
}

// The elements of a value: a text is its own element 0.
fn elements(alloc: Global, value: Option<&Value>) -> Result<Elements, Memory>
    ensures { IfOk result (λ elements. elements ≡ elements_of (option_copied value.entry)) }
{
    match value {
        None => Ok(Elements::new(alloc)),
        Some(Value::Text(text)) => {
            let mut elements = Elements::new(alloc);
            elements.insert(0, text.copy(alloc)?)?;
            Ok(elements)
        }
        Some(Value::Array(elements)) => elements.copy(alloc),
    }
}

/// All elements of a variable, as `[@]` or `[*]` names them.
///
/// # Errors
/// `Unsupported` with the name where a shell makes up the variable's value as it is read; `Memory`.
#[tactic(auto, using(crate::proofs::Refusals::refused))]
pub fn array(alloc: Global, vars: &Vars, name: &[u8], star: bool) -> Result<Found, Stop>
    ensures { (index : Sub → Doing ℤ) (sub : Sub) (at : State) → at.store ≡ vars.now.present → Finds result (subscripted index name.now sub (Some star) at) at }
{
    if let Err(stopped) = may_read(alloc, name) {
        return Err(stopped);
    }
    let elements = elements(alloc, vars.get(name))?;
    Ok(Found::Many(star, Source::Array(elements)))
}

// Copies of texts.
fn copies(alloc: Global, texts: &[Bytes]) -> Result<List<Bytes>, Memory>
    ensures { IfOk result (λ copies. copies ≡ texts.now) }
{
    let mut copies = List::new(alloc);
    for text in texts {
        copies.push(text.copy(alloc)?)?;
    }
    Ok(copies)
}

// The number that a digit stands for; 36, where a byte is none and no letter either.
fn digit(byte: u8) -> u64
    ensures value { result ≡ digit_value byte }
    ensures small { result ≤ 36 }
{
    match byte {
        b'0'..=b'9' => byte as u64 - 48,
        b'A'..=b'Z' => byte as u64 - 55,
        b'a'..=b'z' => byte as u64 - 87,
        _ => 36,
    }
}

// A number with a digit behind it; none, where that is 2^64 or more.
fn with_digit(number: u64, byte: u8) -> Option<u64>
    ensures some { IfSome result (λ more. more ≡ number * 10 + digit_value byte) }
    ensures none { IfNone result (2 ^ 64 ≤ number * 10 + digit_value byte) }
{
    number.checked_mul(10)?.checked_add(digit(byte))
}

// A number that is read so far, with one digit more.
fn one_more(number: Option<u64>, byte: u8) -> Option<u64>
    ensures { (left : Text) (whole : ℕ) → LeadsTo number (byte ∷ left) whole → LeadsTo result left whole }
{
    match number {
        Some(number) => with_digit(number, byte),
        None => None,
    }
}

/// The number that digits write; none, where it is 2^64 or more.
pub fn number(digits: &[u8]) -> Option<u64>
    ensures { LeadsTo result [] (digits_value 10 digits.now) }
{
    let mut number = Some(0u64);
    for digit in digits {
        number = one_more(number, *digit);
    }
    number
}

/// A positional parameter, by the digits of its number; 0 is the name of the shell.
///
/// # Errors
/// `Memory`.
pub fn positional(alloc: Global, args: &[Bytes], digits: &[u8]) -> Result<Found, Stop>
    ensures { (index : Sub → Doing ℤ) (at : State) → at.args ≡ args.now → Finds result (referred index (ref.Digits digits.now) at) at }
{
    let text = match number(digits) {
        Some(0) => Some(Bytes::from_slice(alloc, b"ebuild")?),
        Some(place) => copied(alloc, args.get(place as usize - 1))?,
        None => None,
    };
    Ok(Found::One(text, None))
}

// A number as what is found.
fn of_number(alloc: Global, number: u64) -> Result<Found, Memory>
    ensures { IfOk result (λ found. found ≡ Found.One (Some (decimal_text number)) None) }
{
    Ok(Found::One(Some(decimal(alloc, number)?), None))
}

/// A special parameter: `@`, `*`, `#` and `?`.
///
/// # Errors
/// `Unsupported` with the parameter for every other one; `Memory`.
pub fn special(alloc: Global, args: &[Bytes], status: u8, byte: u8) -> Result<Found, Stop>
    ensures { (at : State) → at.args ≡ args.now → at.status ≡ status → Finds result (special_of byte at) at }
{
    match byte {
        b'@' => Ok(Found::Many(false, Source::Arguments(copies(alloc, args)?))),
        b'*' => Ok(Found::Many(true, Source::Arguments(copies(alloc, args)?))),
        b'#' => Ok(of_number(alloc, args.len() as u64)?),
        b'?' => Ok(of_number(alloc, status as u64)?),
        _ => Err(Stop::Fault(Fault::Unsupported(Bytes::from_slice(alloc, &[b'$', byte])?))),
    }
}
