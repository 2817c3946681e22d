ghost use Rattle.std.specs.Prelude.{◌≡◌, ◌≢◌, ◌+◌, ◌≤◌, Err, true};
ghost use Rattle.shell_vars.specs.Store.{kinds};
ghost use Rattle.shell_state.specs.Outcome.{Tells};
ghost use Rattle.shell_state.specs.Spending.{left};
ghost use Rattle.shell_state.specs.State.{State};
ghost use Rattle.shell_marks.specs.Marks.{unquoted};
ghost use Rattle.bash_cond.specs.Numbers.{numbers_stand};
ghost use Rattle.bash_cond.specs.Patterns.{matched};
ghost use Rattle.bash_cond.specs.Tests.{binary as binary_of};

use crate::numbers::{Numbers, compare_numbers};
use crate::operator::{Question, Relation, asks, is_before};
use crate::patterns::{Match, matches};
use eb_bytes::{Budget, Bytes, Steps};
use eb_syntax::BinOp;
use shell_marks::Marked;
use shell_state::{Fault, Stop};
use shell_vars::Vars;
use std::alloc::Global;
use std::sync::ledger::Ledger;

/// Two operands of `[[ .. ]]`, which are expanded.
#[derive(Clone, Copy)]
pub struct Operands<'a> {
    /// The text of the left one.
    pub left: &'a [u8],
    /// The right one, by its marks: a pattern may be wanted.
    pub right: &'a Marked,
}

// Whether the right one, as a pattern, matches the left one.
fn is_like<L: Ledger>(
    alloc: Global,
    operands: &Operands<'_>,
    budget: &mut Budget,
    steps: &mut Steps<L>,
) -> Result<bool, Stop>
    ensures means { (at : State) → at.left ≡ left budget.old →
        Tells result (matched true operands.now.right.now operands.now.left.now at) (record at { left = left budget.new }) }
    ensures no_file { result ≢ Err Stop.Failed }
    ensures limit { budget.new.limit ≡ budget.old.limit }
    ensures used { budget.old.used ≤ budget.new.used }
    ensures ticks { steps.new + budget.old.used ≡ steps.old + budget.new.used }
{
    let what = Match {
        text: operands.left,
        pattern: operands.right,
        extended: true,
    };
    matches(alloc, &what, budget, steps)
}

// How the values of both stand to each other.
#[tactic(auto, using(crate::proofs::Evaluated::numbers_kept))]
fn compare<L: Ledger>(
    alloc: Global,
    relation: Relation,
    operands: &Operands<'_>,
    vars: &mut Vars,
    budget: &mut Budget,
    steps: &mut Steps<L>,
) -> Result<bool, Stop>
    ensures means { (at : State) → at.store ≡ vars.old.present → at.left ≡ left budget.old →
        Tells result (numbers_stand relation operands.now.left.now (unquoted operands.now.right.now) at)
        (record at { store = vars.new.present; left = left budget.new }) }
    ensures no_file { result ≢ Err Stop.Failed }
    ensures saved { vars.new.saved ≡ vars.old.saved }
    ensures kinds { kinds vars.new.present ≡ kinds vars.old.present }
    ensures limit { budget.new.limit ≡ budget.old.limit }
    ensures used { budget.old.used ≤ budget.new.used }
    ensures ticks { steps.new + budget.old.used ≡ steps.old + budget.new.used }
{
    let right = operands.right.unquoted(alloc)?;
    let numbers = Numbers {
        left: operands.left,
        relation,
        right: right.as_slice(),
    };
    compare_numbers(alloc, &numbers, vars, budget, steps)
}

/// The answer of an operator of `[[ .. ]]` with two operands (Bash Reference Manual, "Conditional Constructs"). The right
/// one of `=`, `==` and `!=` is a pattern, in which extended groups are read whatever the options say; `<` and `>` compare
/// the bytes of texts, and `-eq` and its kin the values of both as arithmetic, whose assignments stay in `vars`.
///
/// # Errors
/// `FileTest` with the operator for `-nt`, `-ot` and `-ef`; those of `matches` and of `compare_numbers`; and `Memory`.
pub fn binary<L: Ledger>(
    alloc: Global,
    op: BinOp,
    operands: &Operands<'_>,
    vars: &mut Vars,
    budget: &mut Budget,
    steps: &mut Steps<L>,
) -> Result<bool, Stop>
    ensures means { (at : State) → at.store ≡ vars.old.present → at.left ≡ left budget.old →
        Tells result (binary_of op operands.now.left.now operands.now.right.now at)
        (record at { store = vars.new.present; left = left budget.new }) }
    ensures no_file { result ≢ Err Stop.Failed }
    ensures saved { vars.new.saved ≡ vars.old.saved }
    ensures kinds { kinds vars.new.present ≡ kinds vars.old.present }
    ensures limit { budget.new.limit ≡ budget.old.limit }
    ensures used { budget.old.used ≤ budget.new.used }
    ensures ticks { steps.new + budget.old.used ≡ steps.old + budget.new.used }
{
    match asks(op) {
        Question::Same => is_like(alloc, operands, budget, steps),
        Question::Different => {
            let same = is_like(alloc, operands, budget, steps)?;
            Ok(!same)
        }
        Question::Before => {
            let right = operands.right.unquoted(alloc)?;
            Ok(is_before(operands.left, right.as_slice()))
        }
        Question::After => {
            let right = operands.right.unquoted(alloc)?;
            Ok(is_before(right.as_slice(), operands.left))
        }
        Question::Numbers(relation) => compare(alloc, relation, operands, vars, budget, steps),
        Question::Files(relation) => {
            let operator = Bytes::from_slice(alloc, relation.operator())?;
            Err(Stop::Fault(Fault::FileTest(operator)))
        }
    }
}
