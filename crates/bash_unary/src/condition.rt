ghost use Rattle.std.specs.Prelude.{◌≡◌, ◌≢◌, ◌+◌, ◌≤◌, Err};
ghost use Rattle.eb_grammar.specs.Grammar.{whole_ref as whole_ref_of};
ghost use Rattle.shell_vars.specs.Store.{kinds};
ghost use Rattle.shell_state.specs.Outcome.{Tells};
ghost use Rattle.shell_state.specs.Spending.{left};
ghost use Rattle.shell_state.specs.State.{State};
ghost use Rattle.shell_state.specs.declared.fault.Fault.TheVariants as fault;
ghost use Rattle.run_meaning.specs.Conditions.{is_set as is_set_of, unary as unary_of};
ghost use Rattle.bash_unary.specs.Operators.{asks, letter_of as letter_of_op};
ghost use Rattle.bash_unary.specs.Parameters.{IsFault};

use crate::parameter::is_set;
use bash_cond::text_test;
use bash_parser::whole_ref;
use eb_bytes::{Budget, Bytes, Memory, Steps};
use shell_state::{Fault, Stop};
use shell_vars::Vars;
use std::alloc::Global;
use std::sync::ledger::Ledger;

// How many bytes an operand has at most that can be read as a parameter: the reader's places have 32 bits.
const LONGEST: usize = 4_294_967_294;

fn file_test(alloc: Global, op: &[u8]) -> Stop
    ensures { IsFault result (fault.FileTest op.now) }
{
    match Bytes::from_slice(alloc, op) {
        Ok(op) => Stop::Fault(Fault::FileTest(op)),
        Err(Memory) => Stop::Memory,
    }
}

// The letter of an operator.
fn letter_of(op: &[u8]) -> Option<u8>
    ensures { result ≡ letter_of_op op.now }
{
    match op {
        [sign, letter] if *sign == b'-' => Some(*letter),
        _ => None,
    }
}

// Whether the parameter is set that the operand names.
#[tactic(auto, using(crate::proofs::Asked::set_never_rises))]
fn names_set<L: Ledger>(
    alloc: Global,
    operand: &[u8],
    args: &[Bytes],
    vars: &mut Vars,
    budget: &mut Budget,
    steps: &mut Steps<L>,
) -> Result<bool, Stop>
    ensures means { (at : State) → at.store ≡ vars.old.present → at.args ≡ args.now → at.left ≡ left budget.old →
        Tells result (is_set_of operand.now (whole_ref_of operand.now) at) (record at { store = vars.new.present; left = left budget.new }) }
    ensures no_file { result ≢ Err Stop.Failed }
    ensures saved { vars.new.saved ≡ vars.old.saved }
    ensures kinds { kinds vars.new.present ≡ kinds vars.old.present }
    ensures limit { budget.new.limit ≡ budget.old.limit }
    ensures used { budget.old.used ≤ budget.new.used }
    ensures ticks { steps.new + budget.old.used ≡ steps.old + budget.new.used }
{
    if operand.len() > LONGEST {
        return Err(Stop::Memory);
    }
    let reference = whole_ref(alloc, operand)?;
    is_set(
        alloc,
        operand,
        reference.as_ref(),
        args,
        vars,
        budget,
        steps,
    )
}

// What the operator of this letter asks.
#[tactic(auto, using(crate::proofs::Asked::asks_text))]
fn by_letter<L: Ledger>(
    alloc: Global,
    letter: u8,
    operand: &[u8],
    args: &[Bytes],
    vars: &mut Vars,
    budget: &mut Budget,
    steps: &mut Steps<L>,
) -> Result<bool, Stop>
    ensures means { (at : State) → at.store ≡ vars.old.present → at.args ≡ args.now → at.left ≡ left budget.old →
        Tells result (unary_of letter operand.now at) (record at { store = vars.new.present; left = left budget.new }) }
    ensures no_file { result ≢ Err Stop.Failed }
    ensures saved { vars.new.saved ≡ vars.old.saved }
    ensures kinds { kinds vars.new.present ≡ kinds vars.old.present }
    ensures limit { budget.new.limit ≡ budget.old.limit }
    ensures used { budget.old.used ≤ budget.new.used }
    ensures ticks { steps.new + budget.old.used ≡ steps.old + budget.new.used }
{
    if letter == b'v' {
        names_set(alloc, operand, args, vars, budget, steps)
    } else {
        text_test(alloc, letter, operand)
    }
}

/// The answer of an operator of `[[ .. ]]` with one operand, which is expanded (Bash Reference Manual, "Bash Conditional
/// Expressions"). `-z` asks whether the text is empty, `-n` whether it is not. `-v` asks whether the parameter is set that
/// the whole text names: a variable, or an element of it; a positional parameter; a special one. In its subscript nothing
/// is expanded; it is evaluated, and what it assigns stays in `vars`.
///
/// # Errors
/// `FileTest` with the operator where it is no other of these; `BadSubstitution` with the operand where that of `-v` names
/// no parameter, `Unsupported` where it names one whose value a shell makes up, and the faults of its subscript, those of
/// arithmetic, `BadSubscript` and `StepsSpent`; `Memory`, also where the operand of `-v` has more than 4,294,967,294 bytes.
pub fn unary<L: Ledger>(
    alloc: Global,
    op: &[u8],
    operand: &[u8],
    args: &[Bytes],
    vars: &mut Vars,
    budget: &mut Budget,
    steps: &mut Steps<L>,
) -> Result<bool, Stop>
    ensures means { (at : State) → at.store ≡ vars.old.present → at.args ≡ args.now → at.left ≡ left budget.old →
        Tells result (asks op.now operand.now at) (record at { store = vars.new.present; left = left budget.new }) }
    ensures no_file { result ≢ Err Stop.Failed }
    ensures saved { vars.new.saved ≡ vars.old.saved }
    ensures kinds { kinds vars.new.present ≡ kinds vars.old.present }
    ensures limit { budget.new.limit ≡ budget.old.limit }
    ensures used { budget.old.used ≤ budget.new.used }
    ensures ticks { steps.new + budget.old.used ≡ steps.old + budget.new.used }
{
    match letter_of(op) {
        Some(letter) => by_letter(alloc, letter, operand, args, vars, budget, steps),
        None => Err(file_test(alloc, op)),
    }
}
