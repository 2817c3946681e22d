ghost use Rattle.std.specs.Prelude.{◌≡◌, [], ◌∷◌, OnOk};
ghost use Rattle.bash_arith.specs.Machine as m;

use eb_bytes::Memory;
use std::alloc::Global;
use std::marker::Model;

/// Numbers, of which contracts see the last one put first.
#[derive(Drop)]
pub(crate) struct Stack {
    numbers: Vec<i64>,
}

impl Model for Stack {
    ghost use Rattle.std.specs.Prelude.{List, ℤ, reverse};
    ghost use Rattle.std.specs.Coded.{coded_list, coded_ℤ};

    ghost Value = { List ℤ };

    ghost coded = { coded_list coded_ℤ };

    ghost view = { λ s. reverse s.numbers.items };
}

impl Stack {
    /// No numbers. Takes no memory.
    pub(crate) fn new(alloc: Global) -> Stack
        ensures { result ≡ [] }
    {
        Stack {
            numbers: Vec::new(alloc),
        }
    }

    /// Puts a number on top.
    ///
    /// # Errors
    /// `Memory` where there is no room for it.
    pub(crate) fn push(&mut self, number: i64) -> Result<(), Memory>
        ensures { OnOk result (self.new ≡ number ∷ self.old) }
    {
        self.numbers.push(number)?;
        Ok(())
    }

    /// The number on top, and 0 where there is none.
    pub(crate) fn top(&self) -> i64
        ensures { result ≡ m.top self.now }
    {
        match self.numbers.last() {
            Some(number) => *number,
            None => 0,
        }
    }

    /// Takes the number on top, and answers it; 0 where there is none.
    pub(crate) fn pop(&mut self) -> i64
        ensures value { result ≡ m.top self.old }
        ensures rest { self.new ≡ m.below self.old }
    {
        match self.numbers.pop() {
            Some(number) => number,
            None => 0,
        }
    }
}
