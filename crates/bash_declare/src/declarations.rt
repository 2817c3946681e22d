//! The declarations as parts of a run.

ghost use Rattle.std.specs.Prelude.{◌≡◌, ◌≢◌, ◌+◌, ◌≤◌, [], ◌∷◌, find, map, Err, IfOk};
ghost use Rattle.std.specs.Option.{option_copied};
ghost use Rattle.bash_declare.specs.Declarations as declarations;
ghost use Rattle.bash_declare.specs.Effects as effects;
ghost use Rattle.bash_declare.specs.Faults.{IsFault};
ghost use Rattle.bash_declare.specs.Options as options;
ghost use Rattle.shell_state.specs.Outcome.{Tells};
ghost use Rattle.shell_state.specs.Spending.{left};
ghost use Rattle.shell_state.specs.State.{State};
ghost use Rattle.shell_state.specs.declared.fault.Fault.TheVariants as fault;
ghost use Rattle.shell_vars.specs.Store.{kinds};

use crate::argument::{Argument, Declaration};
use crate::effects::{attributes_of, give_declared, mark, name as name_declared, subscript_of};
use crate::options::{Options, Unknown, name_of, read_options};
use crate::shown::{Told, functions_told, variables_told};
use bash_assign::Assignment;
use byte_class::is_name;
use eb_bytes::{Budget, Bytes, Memory, Steps};
use eb_syntax::DeclName;
use shell_functions::Funcs;
use shell_state::{Fault, Io, Stop};
use shell_vars::Vars;
use std::alloc::Global;
use std::sync::ledger::Ledger;

/// What a declaration does, and its status.
///
/// `-a` makes a text that is given element 0 of an array, `-r` and `-x` add attributes, as `readonly` and `export` do.
/// `local`, and in a call `declare` and `typeset`, bind in its frame; with `-g` these two set the value in the global frame.
/// `-p` prints a line for each name that has a value or an attribute, `-f` and `-F` one for each that is a function; the
/// status is 1 where there is none, and else 0. What is printed costs its bytes and 1, divided by 64, before it is printed.
///
/// # Errors
/// `BadOption` for the first letter that is no option; `BadUse` where `-p`, `-f` or `-F` stands there without a name; of
/// the arguments, from left to right, `BadName`, and the refusals of variables with the name: `LocalOutside`, `Readonly`,
/// `BadSubscript`, `ValueSize`, `TotalSize`; of printing `StepsSpent` and `ValueSize`; and `Memory`. The variables may have
/// changed then.
#[tactic(auto, using(crate::proofs::Kept::declares_left, crate::proofs::Kept::each_left, crate::proofs::Kept::shows_left))]
pub fn declare<L: Ledger>(
    alloc: Global,
    declaration: Declaration<'_>,
    vars: &mut Vars,
    funcs: &Funcs,
    io: &mut Io,
    budget: &mut Budget,
    steps: &mut Steps<L>,
) -> Result<u8, Stop>
    ensures means { (at : State) → at.store ≡ vars.old.present → at.funcs ≡ funcs.now.present → at.io ≡ io.old → at.left ≡ left budget.old →
        Tells result (declarations.declares declaration.entry.name declaration.entry.options.now declaration.entry.arguments.items at)
        (record at { store = vars.new.present; io = io.new; left = left budget.new }) }
    ensures no_file { result ≢ Err Stop.Failed }
    ensures saved { vars.new.saved ≡ vars.old.saved }
    ensures kinds { kinds vars.new.present ≡ kinds vars.old.present }
    ensures limit { budget.new.limit ≡ budget.old.limit }
    ensures used { budget.old.used ≤ budget.new.used }
    ensures ticks { steps.new + budget.old.used ≡ steps.old + budget.new.used }
{
    let Declaration {
        name,
        options,
        arguments,
    } = declaration;
    let options = match read_options(name, options) {
        Ok(options) => options,
        Err(unknown) => return Err(bad_option(alloc, name, unknown)),
    };
    if options.functions || options.print {
        if arguments.is_empty() {
            return Err(bad_use(alloc, name));
        }
        let names = names_of(alloc, &arguments)?;
        let told = told_by(alloc, options.functions, &names, vars, funcs)?;
        io.print(told.text.as_slice(), budget, steps)?;
        return Ok(told.status);
    }
    for argument in arguments {
        declare_one(alloc, name, options, argument, vars)?;
    }
    Ok(0)
}

// The names of the arguments.
fn names_of(alloc: Global, arguments: &[Argument]) -> Result<Vec<Bytes>, Memory>
    ensures { IfOk result (λ names. names.items ≡ map declarations.named_by arguments.now) }
{
    let mut names = Vec::new(alloc);
    for argument in arguments {
        let name = match argument {
            Argument::Said(text) => text,
            Argument::Assigns(assignment) => &assignment.name,
        };
        names.push(name.copy(alloc)?)?;
    }
    Ok(names)
}

// What is told of these names, of functions or of variables.
#[tactic(auto, using(crate::proofs::Kept::told_left))]
fn told_by(
    alloc: Global,
    functions: bool,
    names: &[Bytes],
    vars: &Vars,
    funcs: &Funcs,
) -> Result<Told, Stop>
    ensures means { (at : State) → at.store ≡ vars.now.present → at.funcs ≡ funcs.now.present →
        Tells result (declarations.told_by functions names.now at) at }
    ensures no_file { result ≢ Err Stop.Failed }
{
    if functions {
        return Ok(functions_told(alloc, names, funcs)?);
    }
    if let Some(name) = first_no_name(names) {
        return Err(bad_name(alloc, name));
    }
    Ok(variables_told(alloc, names, vars)?)
}

fn first_no_name(names: &[Bytes]) -> Option<&Bytes>
    ensures { option_copied result ≡ find declarations.is_no_name names.now }
{
    names.iter().find(|name| !is_name(name.as_slice()))
}

// What it does with one argument.
#[tactic(auto, using(crate::proofs::Kept::one_left, crate::proofs::Kept::name_left, crate::proofs::Kept::value_left))]
fn declare_one(
    alloc: Global,
    declaration: DeclName,
    options: Options,
    argument: Argument,
    vars: &mut Vars,
) -> Result<(), Stop>
    ensures means { (at : State) → at.store ≡ vars.old.present →
        Tells result (declarations.declares_one declaration options argument at) (record at { store = vars.new.present }) }
    ensures no_file { result ≢ Err Stop.Failed }
    ensures saved { vars.new.saved ≡ vars.old.saved }
    ensures kinds { kinds vars.new.present ≡ kinds vars.old.present }
{
    match argument {
        Argument::Said(name) => {
            if !is_name(name.as_slice()) {
                return Err(bad_name(alloc, &name));
            }
            declare_name(alloc, declaration, options, &name, vars)
        }
        Argument::Assigns(assignment) => {
            if !is_name(assignment.name.as_slice()) {
                return Err(bad_name(alloc, &assignment.name));
            }
            declare_value(alloc, declaration, options, assignment, vars)
        }
    }
}

#[tactic(auto, using(crate::proofs::Kept::name_left, crate::proofs::Kept::changes_left))]
fn declare_name(
    alloc: Global,
    declaration: DeclName,
    options: Options,
    name: &Bytes,
    vars: &mut Vars,
) -> Result<(), Stop>
    ensures means { (at : State) → at.store ≡ vars.old.present →
        Tells result (declarations.declares_name declaration options name.now at) (record at { store = vars.new.present }) }
    ensures no_file { result ≢ Err Stop.Failed }
    ensures saved { vars.new.saved ≡ vars.old.saved }
    ensures kinds { kinds vars.new.present ≡ kinds vars.old.present }
{
    let name = name.as_slice();
    match name_declared(declaration, options.global, vars, name) {
        Ok(()) => mark_declared(alloc, declaration, options, name, vars),
        Err(refused) => Err(Stop::of_variable(alloc, name, refused)),
    }
}

#[tactic(auto, using(crate::proofs::Kept::value_left, crate::proofs::Kept::changes_left))]
fn declare_value(
    alloc: Global,
    declaration: DeclName,
    options: Options,
    assignment: Assignment,
    vars: &mut Vars,
) -> Result<(), Stop>
    ensures means { (at : State) → at.store ≡ vars.old.present →
        Tells result (declarations.declares_value declaration options assignment at) (record at { store = vars.new.present }) }
    ensures no_file { result ≢ Err Stop.Failed }
    ensures saved { vars.new.saved ≡ vars.old.saved }
    ensures kinds { kinds vars.new.present ≡ kinds vars.old.present }
{
    let name = assignment.name.copy(alloc)?;
    let name = name.as_slice();
    let at = subscript_of(options.array, &assignment.given, assignment.at);
    let assignment = Assignment { at, ..assignment };
    match give_declared(alloc, declaration, options.global, vars, assignment) {
        Ok(()) => mark_declared(alloc, declaration, options, name, vars),
        Err(refused) => Err(Stop::of_variable(alloc, name, refused)),
    }
}

// Adds the attributes.
#[tactic(auto, using(crate::proofs::Kept::changes_left))]
fn mark_declared(
    alloc: Global,
    declaration: DeclName,
    options: Options,
    name: &[u8],
    vars: &mut Vars,
) -> Result<(), Stop>
    ensures means { (at : State) → at.store ≡ vars.old.present →
        Tells result (declarations.changes name.now (effects.marked_with (effects.attributes_of declaration options) name.now) at)
        (record at { store = vars.new.present }) }
    ensures no_file { result ≢ Err Stop.Failed }
    ensures saved { vars.new.saved ≡ vars.old.saved }
    ensures kinds { kinds vars.new.present ≡ kinds vars.old.present }
{
    match mark(vars, name, attributes_of(declaration, options)) {
        Ok(()) => Ok(()),
        Err(refused) => Err(Stop::of_variable(alloc, name, refused)),
    }
}

// ---- faults

fn bad_option(alloc: Global, declaration: DeclName, unknown: Unknown) -> Stop
    ensures { IsFault result (fault.BadOption (options.name_of declaration) (unknown.sign ∷ unknown.letter ∷ [])) }
{
    match (
        Bytes::from_slice(alloc, name_of(declaration)),
        Bytes::from_slice(alloc, &[unknown.sign, unknown.letter]),
    ) {
        (Ok(command), Ok(option)) => Stop::Fault(Fault::BadOption(command, option)),
        _ => Stop::Memory,
    }
}

fn bad_use(alloc: Global, declaration: DeclName) -> Stop
    ensures { IsFault result (fault.BadUse (options.name_of declaration)) }
{
    match Bytes::from_slice(alloc, name_of(declaration)) {
        Ok(command) => Stop::Fault(Fault::BadUse(command)),
        Err(Memory) => Stop::Memory,
    }
}

fn bad_name(alloc: Global, name: &Bytes) -> Stop
    ensures { IsFault result (fault.BadName name.now) }
{
    match name.copy(alloc) {
        Ok(name) => Stop::Fault(Fault::BadName(name)),
        Err(Memory) => Stop::Memory,
    }
}
