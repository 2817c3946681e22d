ghost use Rattle.std.specs.Prelude.{◌≡◌, ◌≤◌, ℕ, Err, [], ◌∷◌, drop, unwrap_or, IfOk, IfSome, IfNone};
ghost use Rattle.std.specs.Option.{option_copied};
ghost use Rattle.arith_syntax.specs.declared.instruction.Instruction.TheVariants as i;
ghost use Rattle.bash_arith.specs.Machine as m;
ghost use Rattle.bash_arith.specs.Outcome.{IsVar, Pays, Tells, left, left_of};
ghost use Rattle.bash_arith.specs.Value.{arithmetic, increment_value as value_of_increment, text_value};
ghost use Rattle.bash_arith.specs.Variables.{fetched, stored};

use crate::error::ArithErr;
use crate::number::incremented;
use crate::operation::{
    and_then, discard, or_else, put, put_operated, put_raised, put_signed, put_truth, unless,
};
use crate::stack::Stack;
use arith_syntax::{
    Increment, Instruction, ReadErr, Refusal, Timing, VariableRef, read, without_quotes,
};
use eb_bytes::{Budget, Bytes, Memory, Steps};
use shell_vars::{VarErr, Vars, is_refused};
use signed_numbers::signed_decimal;
use std::alloc::Global;
use std::sync::ledger::Ledger;

// How many nestings may be open at once.
const MAX_NESTED: u8 = 64;

/// What executes the instructions for an expression.
#[derive(Drop)]
pub(crate) struct Machine<'m, L: Ledger> {
    pub(crate) alloc: Global,
    pub(crate) vars: &'m mut Vars,
    pub(crate) budget: &'m mut Budget,
    pub(crate) steps: &'m mut Steps<L>,
}

impl<'m, L: Ledger> Machine<'m, L> {
    ghost use Rattle.bash_arith.specs.Keeping.{Keeps, state_of};

    /// The value of a whole text, in which at most 64 nestings are open at once.
    ///
    /// # Errors
    /// The first fault.
    #[tactic(auto, unfolding(crate::specs::Value::arithmetic))]
    pub(crate) fn evaluate_whole(&mut self, text: &[u8]) -> Result<i64, ArithErr>
        ensures means { Tells result (arithmetic text.now (state_of self.old)) (state_of self.new) }
        ensures spent { result ≡ Err ArithErr.Memory → left_of (arithmetic text.now (state_of self.old)) ≤ left self.new.budget.now }
        ensures keeps { Keeps self.old self.new }
    {
        self.evaluate(text, MAX_NESTED)
    }

    // The value of a text in which at most `nesting_left` nestings are open at once.
    #[cycle(machine)]
    fn evaluate(&mut self, text: &[u8], nesting_left: u8) -> Result<i64, ArithErr>
        ensures means { Tells result (text_value nesting_left text.now (state_of self.old)) (state_of self.new) }
        ensures keeps { Keeps self.old self.new }
    {
        let text = without_quotes(self.alloc, text)?;
        let code = match read(self.alloc, text.as_slice(), nesting_left) {
            Ok(code) => code,
            Err(error) => return Err(fault(error)),
        };
        self.run(code.as_slice(), nesting_left)
    }

    // Executes instructions, and answers what they leave on top.
    #[cycle(machine)]
    fn run(&mut self, code: &[Instruction<'_>], nesting_left: u8) -> Result<i64, ArithErr>
        ensures means { Tells result (m.run nesting_left code.now 0 [] (state_of self.old)) (state_of self.new) }
        ensures keeps { Keeps self.old self.new }
    {
        let mut stack = Stack::new(self.alloc);
        let mut rest = code;
        while let Some((instruction, after)) = split_first(rest) {
            match self.execute(instruction, nesting_left, &mut stack) {
                Ok(left_out) => rest = after_some(after, left_out),
                Err(fault) => return Err(fault),
            }
        }
        Ok(stack.top())
    }

    // Executes an instruction, and answers how many of those after it are left out.
    #[cycle(machine)]
    fn execute(
        &mut self,
        instruction: &Instruction<'_>,
        nesting_left: u8,
        stack: &mut Stack,
    ) -> Result<usize, ArithErr>
        ensures means { m.Continues result (m.executed nesting_left instruction.now stack.old (state_of self.old)) stack.new (state_of self.new) }
        ensures keeps { Keeps self.old self.new }
    {
        match instruction {
            Instruction::Push(number) => put(stack, *number),
            Instruction::Fetch(variable) => self.fetch(variable, nesting_left, stack),
            Instruction::Load(variable) => self.load(variable, nesting_left, stack),
            Instruction::Store(variable) => self.store(variable, stack),
            Instruction::Increment(timing, increment, variable) => {
                self.increment(*timing, *increment, variable, nesting_left, stack)
            }
            Instruction::Sign(prefix) => put_signed(stack, *prefix),
            Instruction::Operate(operator) => put_operated(stack, *operator),
            Instruction::Raise => put_raised(stack),
            Instruction::Discard => Ok(discard(stack)),
            Instruction::Truth => put_truth(stack),
            Instruction::OrElse(count) => or_else(stack, *count),
            Instruction::AndThen(count) => and_then(stack, *count),
            Instruction::Unless(count) => Ok(unless(stack, *count)),
            Instruction::Skip(count) => Ok(*count),
        }
    }

    // Takes the subscript, and puts the variable's value.
    #[cycle(machine)]
    fn fetch(
        &mut self,
        variable: &VariableRef<'_>,
        nesting_left: u8,
        stack: &mut Stack,
    ) -> Result<usize, ArithErr>
        ensures means { m.Continues result (m.executed nesting_left (i.Fetch variable.now) stack.old (state_of self.old)) stack.new (state_of self.new) }
        ensures keeps { Keeps self.old self.new }
    {
        let at = take_subscript(variable, stack);
        let number = self.value(variable, at, nesting_left)?;
        stack.push(number)?;
        Ok(0)
    }

    // Leaves the subscript, and puts the variable's value.
    #[cycle(machine)]
    #[tactic(auto, using(crate::proofs::Executed::goes_on, crate::proofs::Executed::faults, crate::proofs::Executed::no_room))]
    fn load(
        &mut self,
        variable: &VariableRef<'_>,
        nesting_left: u8,
        stack: &mut Stack,
    ) -> Result<usize, ArithErr>
        ensures means { m.Continues result (m.executed nesting_left (i.Load variable.now) stack.old (state_of self.old)) stack.new (state_of self.new) }
        ensures keeps { Keeps self.old self.new }
    {
        let at = subscript(variable, stack);
        let number = self.value(variable, at, nesting_left)?;
        stack.push(number)?;
        Ok(0)
    }

    // Takes the subscript, increments or decrements the variable, and puts its value before or after that.
    #[cycle(machine)]
    fn increment(
        &mut self,
        timing: Timing,
        increment: Increment,
        variable: &VariableRef<'_>,
        nesting_left: u8,
        stack: &mut Stack,
    ) -> Result<usize, ArithErr>
        ensures means { m.Continues result (m.executed nesting_left (i.Increment timing increment variable.now) stack.old (state_of self.old)) stack.new (state_of self.new) }
        ensures keeps { Keeps self.old self.new }
    {
        let at = take_subscript(variable, stack);
        let before = self.value(variable, at, nesting_left)?;
        let after = self.assign(variable.name.as_slice(), at, incremented(increment, before))?;
        stack.push(increment_value(timing, before, after))?;
        Ok(0)
    }

    // Takes a number, above its subscript, assigns it to the variable, and puts it.
    #[tactic(auto, using(crate::proofs::Executed::goes_on, crate::proofs::Executed::faults, crate::proofs::Executed::no_room))]
    fn store(&mut self, variable: &VariableRef<'_>, stack: &mut Stack) -> Result<usize, ArithErr>
        ensures means { (n : ℕ) → m.Continues result (m.executed n (i.Store variable.now) stack.old (state_of self.old)) stack.new (state_of self.new) }
        ensures keeps { Keeps self.old self.new }
    {
        let number = stack.pop();
        let at = take_subscript(variable, stack);
        let number = self.assign(variable.name.as_slice(), at, number)?;
        stack.push(number)?;
        Ok(0)
    }

    // The value of a variable: its text evaluated, which costs a step.
    #[cycle(machine)]
    fn value(
        &mut self,
        variable: &VariableRef<'_>,
        at: Option<i64>,
        nesting_left: u8,
    ) -> Result<i64, ArithErr>
        ensures means { Tells result (fetched (m.text_of nesting_left variable.now) variable.now.name at (state_of self.old)) (state_of self.new) }
        ensures keeps { Keeps self.old self.new }
    {
        let name = variable.name.as_slice();
        if is_refused(name) {
            return Err(ArithErr::Unsupported(Bytes::from_slice(self.alloc, name)?));
        }
        let text = match self.vars.element(name, at) {
            Ok(text) => text,
            Err(refusal) => return Err(refused(self.alloc, name, refusal)),
        };
        let text = copy_text(self.alloc, text)?;
        self.pay()?;
        let nesting_left = variable.nesting_left.min(nesting_left);
        if nesting_left == 0 {
            return Err(ArithErr::Nesting);
        }
        self.evaluate(text.as_slice(), nesting_left - 1)
    }

    // Assigns a number to a name, or to the element that a subscript means, and answers it.
    fn assign(&mut self, name: &[u8], at: Option<i64>, number: i64) -> Result<i64, ArithErr>
        ensures means { Tells result (stored name.now at number (state_of self.old)) (state_of self.new) }
        ensures keeps { Keeps self.old self.new }
    {
        let text = signed_decimal(self.alloc, number)?;
        match self.vars.assign(name, at, text) {
            Ok(()) => Ok(number),
            Err(refusal) => Err(refused(self.alloc, name, refusal)),
        }
    }

    // Spends a step.
    fn pay(&mut self) -> Result<(), ArithErr>
        ensures pays { Pays result self.old.budget.now self.new.budget.now }
        ensures vars { self.new.vars.now ≡ self.old.vars.now }
        ensures keeps { Keeps self.old self.new }
    {
        // What is used is never above the limit, as this call says.
        let _used = self.budget.used();
        match self.budget.spend(1, self.steps) {
            Ok(()) => Ok(()),
            Err(_) => Err(ArithErr::Spent),
        }
    }
}

fn fault(error: ReadErr) -> ArithErr
    ensures { result ≡ m.fault_of_error error }
{
    match error {
        ReadErr::Refused(Refusal::Syntax) => ArithErr::Syntax,
        ReadErr::Refused(Refusal::Nesting) => ArithErr::Nesting,
        ReadErr::Memory => ArithErr::Memory,
    }
}

// The fault of a variable of this name that could not be read or changed.
fn refused(alloc: Global, name: &[u8], refusal: VarErr) -> ArithErr
    ensures { IsVar result name.now refusal }
{
    if let VarErr::Memory = refusal {
        return ArithErr::Memory;
    }
    match Bytes::from_slice(alloc, name) {
        Ok(name) => ArithErr::Var(name, refusal),
        Err(_) => ArithErr::Memory,
    }
}

fn split_first<'c, 't>(
    code: &'c [Instruction<'t>],
) -> Option<(&'c Instruction<'t>, &'c [Instruction<'t>])>
    ensures some { IfSome result (λ split. code.now ≡ split.0.now ∷ split.1.now) }
    ensures none { IfNone result (code.now ≡ []) }
{
    match code {
        [instruction, after @ ..] => Some((instruction, after)),
        [] => None,
    }
}

// What follows so many of them.
fn after_some<'c, 't>(code: &'c [Instruction<'t>], count: usize) -> &'c [Instruction<'t>]
    ensures { result.now ≡ drop count code.now }
{
    &code[count.min(code.len())..]
}

// A copy of a text, empty where there is none.
fn copy_text(alloc: Global, text: Option<&Bytes>) -> Result<Bytes, Memory>
    ensures { IfOk result (λ copy. copy ≡ unwrap_or (option_copied text.entry) []) }
{
    match text {
        Some(text) => text.copy(alloc),
        None => Ok(Bytes::new(alloc)),
    }
}

// The number before an increment, or the one after it.
fn increment_value(timing: Timing, before: i64, after: i64) -> i64
    ensures { result ≡ value_of_increment timing before after }
{
    match timing {
        Timing::Pre => after,
        Timing::Post => before,
    }
}

// The subscript of a variable.
fn subscript(variable: &VariableRef<'_>, stack: &Stack) -> Option<i64>
    ensures { result ≡ m.subscript variable.now stack.now }
{
    if variable.has_subscript {
        Some(stack.top())
    } else {
        None
    }
}

// Takes the subscript of a variable.
fn take_subscript(variable: &VariableRef<'_>, stack: &mut Stack) -> Option<i64>
    ensures value { result ≡ m.subscript variable.now stack.old }
    ensures rest { stack.new ≡ m.without_subscript variable.now stack.old }
{
    if variable.has_subscript {
        Some(stack.pop())
    } else {
        None
    }
}
