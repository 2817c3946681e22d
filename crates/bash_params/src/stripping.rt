ghost use Rattle.std.specs.Prelude.{◌≡◌, IfOk};
ghost use Rattle.bash_patterns.specs.Pattern.{meaning};
ghost use Rattle.bash_params.specs.Stripping.{after_prefix, before_suffix, stripped};

use crate::operator::Strip;
use crate::part::{after, before};
use bash_patterns::Pattern;
use eb_bytes::{Bytes, Memory};
use std::alloc::Global;

/// The text without its shortest or longest prefix or suffix that the pattern matches, and the whole text where the
/// pattern matches none (Bash Reference Manual, "Shell Parameter Expansion", `${parameter#word}` and its kin).
///
/// # Errors
/// `Memory` where there is no room for the search or for the text.
pub fn strip(alloc: Global, op: Strip, text: &[u8], pattern: &Pattern) -> Result<Bytes, Memory>
    ensures { IfOk result (λ left. left ≡ stripped op (meaning pattern.now) text.now) }
{
    let left = match op {
        Strip::ShortPrefix => without_prefix(text, pattern.shortest_prefix(text)?),
        Strip::LongPrefix => without_prefix(text, pattern.longest_prefix(text)?),
        Strip::ShortSuffix => without_suffix(text, pattern.shortest_suffix(text)?),
        Strip::LongSuffix => without_suffix(text, pattern.longest_suffix(text)?),
    };
    Bytes::from_slice(alloc, left)
}

// What is left after a prefix that ends there, if there is one.
fn without_prefix(text: &[u8], end: Option<usize>) -> &[u8]
    ensures { result.now ≡ after_prefix text.now end }
{
    match end {
        Some(end) => after(text, end),
        None => text,
    }
}

// What is left before a suffix that begins there, if there is one.
fn without_suffix(text: &[u8], begin: Option<usize>) -> &[u8]
    ensures { result.now ≡ before_suffix text.now begin }
{
    match begin {
        Some(begin) => before(text, begin),
        None => text,
    }
}
