ghost use Rattle.std.specs.Prelude.{◌≡◌};
ghost use Rattle.bash_braces.specs.Counts.{capped, counts};

use crate::sequence::Sequence;
use crate::value::Value;
use eb_bytes::Memory;
use std::alloc::Global;

// The greatest number of words.
pub(crate) const LIMIT: u64 = 65_536;

// The number itself where it is at most the limit, else the limit and one.
fn capped(number: u64) -> u64
    ensures { result ≡ capped number }
{
    number.min(LIMIT + 1)
}

// How many words a text has, capped.
impl Value for u64 {
    ghost values = { counts };

    fn nothing(_alloc: Global) -> Result<u64, Memory> {
        Ok(1)
    }

    fn put(self, _alloc: Global, _index: usize) -> Result<u64, Memory> {
        Ok(self)
    }

    fn byte(self, _alloc: Global, _byte: u8) -> Result<u64, Memory> {
        Ok(self)
    }

    fn follow(self, _alloc: Global, before: u64) -> Result<u64, Memory> {
        Ok(capped(before.saturating_mul(self)))
    }

    fn either(self, other: u64) -> Result<u64, Memory> {
        Ok(capped(self.saturating_add(other)))
    }

    fn run(_alloc: Global, sequence: &Sequence) -> Result<u64, Memory> {
        Ok(capped(sequence.steps().saturating_add(1)))
    }
}
