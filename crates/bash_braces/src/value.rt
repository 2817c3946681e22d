ghost use Rattle.std.specs.Prelude.{◌≡◌, IfOk};

use crate::sequence::Sequence;
use eb_bytes::Memory;
use std::alloc::Global;

// What is made of a text's parts: its words, or only how many these are.
pub(crate) trait Value: Drop {
    ghost use Rattle.bash_braces.specs.Values.{Values};
    ghost use Rattle.std.specs.Prelude.{ℕ};

    ghost values: { Values ℕ Self };

    // Of nothing.
    fn nothing(alloc: Global) -> Result<Self, Memory>
        ensures { IfOk result (λ value. value ≡ values.nothing) };

    // Of the token at a place of the word that is read, and what stands after it.
    fn put(self, alloc: Global, index: usize) -> Result<Self, Memory>
        ensures { IfOk result (λ value. value ≡ values.put index self) };

    // Of an unquoted byte, and what stands after it.
    fn byte(self, alloc: Global, byte: u8) -> Result<Self, Memory>
        ensures { IfOk result (λ value. value ≡ values.byte byte self) };

    // Of two parts, one after the other.
    fn follow(self, alloc: Global, before: Self) -> Result<Self, Memory>
        ensures { IfOk result (λ value. value ≡ values.follow before self) };

    // Of two alternatives, or more on each side.
    fn either(self, other: Self) -> Result<Self, Memory>
        ensures { IfOk result (λ value. value ≡ values.either self other) };

    // Of a sequence.
    fn run(alloc: Global, sequence: &Sequence) -> Result<Self, Memory>
        ensures { IfOk result (λ value. value ≡ values.run sequence.now) };
}
