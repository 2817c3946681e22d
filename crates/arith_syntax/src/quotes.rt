ghost use Rattle.std.specs.Prelude.{◌≡◌, IfOk};
ghost use Rattle.std.specs.Cow.{cow_slice_items};
ghost use Rattle.std.specs.List.{list_any};
ghost use Rattle.arith_syntax.specs.Names.{is_quote, without_quotes};

use eb_bytes::Memory;
use std::alloc::Global;
use std::borrow::CowSlice;

/// The text without its double quotes, which an expression does not see (Bash Reference Manual, "Arithmetic
/// Expansion"). A text that has none is not copied.
///
/// # Errors
/// `Memory` where there is no room for the copy.
pub fn without_quotes(alloc: Global, text: &[u8]) -> Result<CowSlice<'_, u8, Global>, Memory>
    ensures { IfOk result (λ t. cow_slice_items t ≡ without_quotes text.now) }
{
    if !has_quote(text) {
        return Ok(CowSlice::Borrowed(text));
    }
    Ok(CowSlice::Owned(copy_without_quotes(alloc, text)?))
}

fn has_quote(text: &[u8]) -> bool
    ensures { result ≡ list_any is_quote text.now }
{
    text.iter().any(|byte| *byte == b'"')
}

fn copy_without_quotes(alloc: Global, text: &[u8]) -> Result<Vec<u8>, Memory>
    ensures { IfOk result (λ t. t.items ≡ without_quotes text.now) }
{
    let mut kept = Vec::new(alloc);
    for byte in text {
        if *byte != b'"' {
            kept.push(*byte)?;
        }
    }
    Ok(kept)
}
