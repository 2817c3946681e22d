use crate::fault::Fault;
use crate::text::{counted, read_byte, read_part};
use crate::token::parts;
use shell_marks::{Mark, Marked, Origin};
use std::alloc::Global;

/// The marks that a field stands for. They are joined by commas, `-` where there is none. `L`, `R` and `Q` with a text
/// after them are its bytes as literals, as bytes of a result and as quoted ones, `E` is an empty pair of quotes, and
/// `B` a break, each perhaps with how often it stands there, as in `64*L"@("`.
pub fn read_marks(alloc: Global, field: &[u8]) -> Result<Marked, Fault> {
    let mut marks = Marked::new(alloc);
    if field != b"-".as_slice() {
        push_field(alloc, field, &mut marks)?;
    }
    Ok(marks)
}

fn push_field(alloc: Global, field: &[u8], marks: &mut Marked) -> Result<(), Fault> {
    for part in parts(alloc, field, b',')? {
        push_counted(alloc, part, marks)?;
    }
    Ok(())
}

fn push_counted(alloc: Global, part: &[u8], marks: &mut Marked) -> Result<(), Fault> {
    let (count, part) = counted(part)?;
    for _ in 0..count {
        push_mark(alloc, part, marks)?;
    }
    Ok(())
}

// Puts what stands without a count at the end: one mark, or a text's.
fn push_mark(alloc: Global, part: &[u8], marks: &mut Marked) -> Result<(), Fault> {
    match part {
        [b'E'] => marks.push(Mark::Empty)?,
        [b'B'] => marks.push(Mark::Break)?,
        [kind, high, low] => {
            let byte = read_byte(*high, *low).ok_or(Fault::NoRequest)?;
            marks.push(origin_of(*kind)?.mark(byte))?;
        }
        [kind, text @ ..] => push_text(alloc, origin_of(*kind)?, text, marks)?,
        [] => return Err(Fault::NoRequest),
    }
    Ok(())
}

fn push_text(alloc: Global, origin: Origin, part: &[u8], marks: &mut Marked) -> Result<(), Fault> {
    let text = read_part(alloc, part)?;
    marks.extend(text.as_slice(), origin)?;
    Ok(())
}

fn origin_of(kind: u8) -> Result<Origin, Fault> {
    match kind {
        b'L' => Ok(Origin::Literal),
        b'R' => Ok(Origin::Result),
        b'Q' => Ok(Origin::Quoted),
        _ => Err(Fault::NoRequest),
    }
}
