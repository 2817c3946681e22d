ghost use Rattle.std.specs.Prelude.{◌≡◌, ◌++◌, map, IfOk, OnOk, if◌then◌else◌};
ghost use Rattle.word_meaning.specs.Marks.{emitted, or_empty, quoted_text, result as as_result};

use eb_bytes::Memory;
use shell_marks::{Mark, Marked, Origin};
use std::alloc::Global;

/// Puts the text of an expansion at the end: quoted in double quotes, else as a result, which is split.
///
/// # Errors
/// `Memory` where there is no room for it.
pub fn put_text(marks: &mut Marked, quoted: bool, text: &[u8]) -> Result<(), Memory>
    ensures { OnOk result (marks.new ≡ marks.old ++ emitted quoted text.now) }
{
    if quoted {
        marks.extend(text, Origin::Quoted)
    } else {
        marks.extend(text, Origin::Result)
    }
}

/// Puts a text in quotes at the end: quotes round nothing are a mark too.
///
/// # Errors
/// `Memory` where there is no room for it.
pub fn put_quoted(marks: &mut Marked, text: &[u8]) -> Result<(), Memory>
    ensures { OnOk result (marks.new ≡ marks.old ++ quoted_text text.now) }
{
    if text.is_empty() {
        marks.push(Mark::Empty)
    } else {
        marks.extend(text, Origin::Quoted)
    }
}

/// Ends double quotes round these marks: where they are none, the quotes are a mark, unless a list without elements stood
/// in them.
///
/// # Errors
/// `Memory` where there is no room for a mark.
pub fn close_quotes(marks: &mut Marked, has_no_elements: bool) -> Result<(), Memory>
    ensures { OnOk result (marks.new ≡ (if has_no_elements then marks.old else or_empty marks.old)) }
{
    if !has_no_elements && marks.as_slice().is_empty() {
        marks.push(Mark::Empty)
    } else {
        Ok(())
    }
}

// A byte of an operator's word as a result of the expansion, where it is not quoted.
fn as_result_mark(mark: Mark) -> Mark
    ensures { result ≡ as_result mark }
{
    match mark {
        Mark::Literal(byte) => Mark::Result(byte),
        other => other,
    }
}

/// These marks as those of a word that stands for a value: its bytes are a result of the expansion, where they are not
/// quoted.
///
/// # Errors
/// `Memory` where there is no room for them.
pub fn as_results(alloc: Global, marks: &[Mark]) -> Result<Marked, Memory>
    ensures { IfOk result (λ results. results ≡ map as_result marks.now) }
{
    let mut results = Marked::new(alloc);
    for mark in marks {
        results.push(as_result_mark(*mark))?;
    }
    Ok(results)
}
