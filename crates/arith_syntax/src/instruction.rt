ghost use Rattle.std.specs.Prelude.{◌≡◌};

use crate::name::Name;
use crate::operator::{Increment, Operator, Sign, Timing};

/// A variable where an expression names it.
#[derive(Debug, Drop)]
pub struct VariableRef<'t> {
    /// Its name.
    pub name: Name<'t>,
    /// Whether a subscript follows the name.
    pub has_subscript: bool,
    /// How many nestings may still be opened where it stands, from 0 to 64.
    pub nesting_left: u8,
}

impl<'t> VariableRef<'t> {
    /// The same variable.
    pub(crate) fn copy(&self) -> VariableRef<'t>
        ensures { result ≡ self.now }
    {
        VariableRef {
            name: self.name.copy(),
            has_subscript: self.has_subscript,
            nesting_left: self.nesting_left,
        }
    }
}

/// A step of a machine with a stack of numbers. The subscript of a variable, if it has one, lies on the stack.
#[derive(Debug, Drop)]
pub enum Instruction<'t> {
    /// Puts a number.
    Push(i64),
    /// Takes the subscript, and puts the variable's value.
    Fetch(VariableRef<'t>),
    /// Leaves the subscript, and puts the variable's value.
    Load(VariableRef<'t>),
    /// Takes a number, above its subscript, assigns it to the variable, and puts it.
    Store(VariableRef<'t>),
    /// Takes the subscript, increments or decrements the variable, and puts its value before or after that.
    Increment(Timing, Increment, VariableRef<'t>),
    /// Takes a number, and puts what the sign makes of it.
    Sign(Sign),
    /// Takes the right number and the left one, and puts what the operator makes of them.
    Operate(Operator),
    /// Takes the exponent and the base, and puts the power.
    Raise,
    /// Takes a number.
    Discard,
    /// Takes a number, and puts 1 where it is not 0, else 0.
    Truth,
    /// Takes a number. Where it is not 0, puts 1 and leaves out so many instructions.
    OrElse(usize),
    /// Takes a number. Where it is 0, puts 0 and leaves out so many instructions.
    AndThen(usize),
    /// Takes a number. Where it is 0, leaves out so many instructions.
    Unless(usize),
    /// Leaves out so many instructions.
    Skip(usize),
}
