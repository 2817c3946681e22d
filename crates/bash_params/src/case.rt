ghost use Rattle.std.specs.Prelude.{◌≡◌, ℕ, ◌<◌, IfOk, slice_index, vec_len};
ghost use Rattle.bash_patterns.specs.Pattern.{meaning};
ghost use Rattle.bash_params.specs.Case.{case_changed, changed as changed_by, each_changed as each_changed_by, first_changed as first_changed_by, in_case as in_case_of};

use crate::operator::CaseOp;
use bash_patterns::Pattern;
use byte_class::{is_lower, is_upper};
use eb_bytes::{Bytes, Memory};
use std::alloc::Global;

// What letters are made.
#[derive(Clone, Copy)]
pub(crate) enum Case {
    Upper,
    Lower,
}

/// The text with its first byte, or each, in upper or lower case where the pattern matches that byte (Bash Reference
/// Manual, "Shell Parameter Expansion", `${parameter^pattern}` and its kin). Only `A` to `Z` and `a` to `z` have a
/// case. Where `${..}` names no pattern, it is `?`.
///
/// # Errors
/// `Memory` where there is no room for the text.
pub fn change_case(
    alloc: Global,
    op: CaseOp,
    text: &[u8],
    pattern: &Pattern,
) -> Result<Bytes, Memory>
    ensures { IfOk result (λ changed. changed ≡ case_changed op (meaning pattern.now) text.now) }
{
    match op {
        CaseOp::UpFirst => first_changed(alloc, Case::Upper, text, pattern),
        CaseOp::UpAll => each_changed(alloc, Case::Upper, text, pattern),
        CaseOp::DownFirst => first_changed(alloc, Case::Lower, text, pattern),
        CaseOp::DownAll => each_changed(alloc, Case::Lower, text, pattern),
    }
}

// The text with its first byte changed.
fn first_changed(alloc: Global, case: Case, text: &[u8], pattern: &Pattern) -> Result<Bytes, Memory>
    ensures { IfOk result (λ new. new ≡ first_changed_by case (meaning pattern.now) text.now) }
{
    let mut new = Bytes::new(alloc);
    if let [first, rest @ ..] = text {
        new.push(changed(case, *first, pattern)?)?;
        new.extend(rest)?;
    }
    Ok(new)
}

// The text with each byte changed.
fn each_changed(alloc: Global, case: Case, text: &[u8], pattern: &Pattern) -> Result<Bytes, Memory>
    ensures { IfOk result (λ new. new ≡ each_changed_by case (meaning pattern.now) text.now) }
{
    let table = table_of(alloc, case, pattern)?;
    let mut new = Bytes::new(alloc);
    for byte in text {
        new.push(table[*byte as usize])?;
    }
    Ok(new)
}

// What each byte is changed to. The pattern is asked once for each letter, and not for each byte of a text.
fn table_of(alloc: Global, case: Case, pattern: &Pattern) -> Result<Vec<u8>, Memory>
    ensures size { IfOk result (λ table. vec_len table ≡ 256) }
    ensures entries { IfOk result (λ table. (b : ℕ) → b < 256 → slice_index table.items b ≡ changed_by case (meaning pattern.now) b) }
{
    let mut table = Vec::new(alloc);
    for byte in 0..256usize {
        table.push(changed(case, byte as u8, pattern)?)?;
    }
    Ok(table)
}

// A byte in that case, where the pattern matches it.
fn changed(case: Case, byte: u8, pattern: &Pattern) -> Result<u8, Memory>
    ensures { IfOk result (λ new. new ≡ changed_by case (meaning pattern.now) byte) }
{
    let other = in_case(case, byte);
    if other != byte && pattern.matches(&[byte])? {
        Ok(other)
    } else {
        Ok(byte)
    }
}

// A byte in that case.
fn in_case(case: Case, byte: u8) -> u8
    ensures { result ≡ in_case_of case byte }
{
    match case {
        Case::Upper if is_lower(byte) => byte - 32,
        Case::Lower if is_upper(byte) => byte + 32,
        _ => byte,
    }
}
