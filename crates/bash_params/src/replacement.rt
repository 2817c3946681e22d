ghost use Rattle.std.specs.Prelude.{◌≡◌, ◌≤◌, length, IfOk};
ghost use Rattle.std.specs.Option.{option_copied, option_map};
ghost use Rattle.bash_patterns.specs.Pattern.{meaning};
ghost use Rattle.bash_params.specs.Answer.{Answers, IsGrown, checked};
ghost use Rattle.bash_params.specs.Replacement.{empty_matches as empty_matches_of, matches as matches_by, matches_of, one as one_of, prefix as prefix_of, replaced, suffix as suffix_of, with_each};

use crate::error::ParamErr;
use crate::operator::Replace;
use crate::part::{after, before};
use bash_patterns::Pattern;
use eb_bytes::{Bytes, Memory};
use std::alloc::Global;

// How many bytes a text may have.
const MOST_BYTES: usize = 1_048_576;

/// The text with other bytes in place of a match, or of each (Bash Reference Manual, "Shell Parameter Expansion",
/// `${parameter/pattern/string}`). The pattern is none where it is empty: such a one matches at the start and at the
/// end alone. A `&` among the other bytes is a byte like any other.
///
/// # Errors
/// `ValueSize` where the new text would have more than 1,048,576 bytes, and `Memory`.
pub fn replace(
    alloc: Global,
    op: Replace,
    text: &[u8],
    pattern: Option<&Pattern>,
    by: &[u8],
) -> Result<Bytes, ParamErr>
    ensures { Answers result (checked (replaced op (option_map meaning (option_copied pattern.entry)) by.now text.now)) }
{
    let matches = find(alloc, op, text, pattern)?;
    put_each(alloc, text, matches.as_slice(), by)
}

// The matches that are replaced: where each begins and where it ends.
fn find(
    alloc: Global,
    op: Replace,
    text: &[u8],
    pattern: Option<&Pattern>,
) -> Result<Vec<(usize, usize)>, Memory>
    ensures { IfOk result (λ found. found.items ≡ matches_of op (option_map meaning (option_copied pattern.entry)) text.now) }
{
    match pattern {
        Some(pattern) => matches(alloc, op, text, pattern),
        None => empty_matches(alloc, op, text),
    }
}

// Those of a pattern.
fn matches(
    alloc: Global,
    op: Replace,
    text: &[u8],
    pattern: &Pattern,
) -> Result<Vec<(usize, usize)>, Memory>
    ensures { IfOk result (λ found. found.items ≡ matches_by op (meaning pattern.now) text.now) }
{
    match op {
        Replace::First => one(alloc, pattern.first_match(text, 0)?),
        Replace::All => pattern.all_matches(text),
        Replace::AtStart => one(alloc, prefix(pattern.longest_prefix(text)?)),
        Replace::AtEnd => one(alloc, suffix(text, pattern.longest_suffix(text)?)),
    }
}

// Those of the empty pattern.
fn empty_matches(alloc: Global, op: Replace, text: &[u8]) -> Result<Vec<(usize, usize)>, Memory>
    ensures { IfOk result (λ found. found.items ≡ empty_matches_of op text.now) }
{
    match op {
        Replace::First | Replace::All => Ok(Vec::new(alloc)),
        Replace::AtStart => one(alloc, Some((0, 0))),
        Replace::AtEnd => one(alloc, Some((text.len(), text.len()))),
    }
}

// A list of one match, if there is one.
fn one(alloc: Global, found: Option<(usize, usize)>) -> Result<Vec<(usize, usize)>, Memory>
    ensures { IfOk result (λ list. list.items ≡ one_of found) }
{
    let mut list = Vec::new(alloc);
    if let Some(place) = found {
        list.push(place)?;
    }
    Ok(list)
}

// The prefix that ends there, if there is one.
fn prefix(end: Option<usize>) -> Option<(usize, usize)>
    ensures { result ≡ prefix_of end }
{
    match end {
        Some(end) => Some((0, end)),
        None => None,
    }
}

// The suffix that begins there, if there is one.
fn suffix(text: &[u8], begin: Option<usize>) -> Option<(usize, usize)>
    ensures { result ≡ suffix_of (length text.now) begin }
{
    match begin {
        Some(begin) => Some((begin, text.len())),
        None => None,
    }
}

// The text with other bytes in place of each of these matches.
fn put_each(
    alloc: Global,
    text: &[u8],
    matches: &[(usize, usize)],
    by: &[u8],
) -> Result<Bytes, ParamErr>
    ensures { Answers result (checked (with_each by.now text.now 0 matches.now)) }
{
    let mut new = Bytes::new(alloc);
    let mut place = 0;
    for (begin, end) in matches {
        let between = before(after(text, place), begin.saturating_sub(place));
        put(&mut new, between)?;
        put(&mut new, by)?;
        place = *end;
    }
    put(&mut new, after(text, place))?;
    Ok(new)
}

// Puts bytes at the end of a text, where it does not grow too long.
fn put(text: &mut Bytes, part: &[u8]) -> Result<(), ParamErr>
    requires { length text.old ≤ 1048576 }
    ensures { IsGrown text.old part.now text.new result }
{
    if part.len() > MOST_BYTES - text.len() {
        return Err(ParamErr::ValueSize);
    }
    text.extend(part)?;
    Ok(())
}
