ghost use Rattle.std.specs.Prelude.{◌≡◌, ◌≢◌};
ghost use Rattle.bash_cond.specs.Operators.{text_test as text_test_of};
ghost use Rattle.bash_cond.specs.Verdict.{Gives};

use eb_bytes::Bytes;
use shell_state::{Fault, Stop};
use std::alloc::Global;

/// The answer of an operator of `[[ .. ]]` that is `-` and a letter, to its text: `-z` asks whether it is empty, `-n`
/// whether it is not. That of `-v` has to be asked of a parameter.
///
/// # Errors
/// `FileTest` with the operator for every other letter; `Memory` where there is no room for that.
pub fn text_test(alloc: Global, letter: u8, text: &[u8]) -> Result<bool, Stop>
    requires asks_no_parameter { letter ≢ 118 }
    ensures { Gives result (text_test_of letter text.now) }
{
    match letter {
        b'z' => Ok(text.is_empty()),
        b'n' => Ok(!text.is_empty()),
        _ => {
            let operator = Bytes::from_slice(alloc, &[b'-', letter])?;
            Err(Stop::Fault(Fault::FileTest(operator)))
        }
    }
}
