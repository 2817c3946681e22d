ghost use Rattle.std.specs.Prelude.{◌≡◌, ◌≤◌, IfOk, length};
ghost use Rattle.bash_read.specs.Lines.{is_delimiter as ends_line, line as line_of};

use eb_bytes::Memory;
use shell_marks::{Mark, Marked};
use std::alloc::Global;

// What is taken of the input: its bytes, how many bytes of the input that are, and whether a delimiter ended it.
#[derive(Drop)]
pub(crate) struct Line {
    pub(crate) marks: Marked,
    pub(crate) taken: usize,
    pub(crate) ended: bool,
}

// Takes the input up to and with the delimiter.
pub(crate) fn take_line(
    alloc: Global,
    raw: bool,
    delimiter: Option<u8>,
    input: &[u8],
) -> Result<Line, Memory>
    ensures marks { IfOk result (λ l. l.marks ≡ (line_of raw delimiter input.now).marks) }
    ensures taken { IfOk result (λ l. l.taken ≡ (line_of raw delimiter input.now).taken) }
    ensures within { IfOk result (λ l. l.taken ≤ length input.now) }
    ensures ended { IfOk result (λ l. l.ended ≡ (line_of raw delimiter input.now).ended) }
{
    let mut marks = Marked::new(alloc);
    let mut quoted = false;
    for (index, byte) in input.iter().enumerate() {
        if quoted {
            marks.push(Mark::Quoted(*byte))?;
            quoted = false;
        } else if *byte == b'\\' && !raw {
            quoted = true;
        } else if is_delimiter(delimiter, *byte) {
            return Ok(Line {
                marks,
                taken: index + 1,
                ended: true,
            });
        } else {
            marks.push(Mark::Result(*byte))?;
        }
    }
    Ok(Line {
        marks,
        taken: input.len(),
        ended: false,
    })
}

fn is_delimiter(delimiter: Option<u8>, byte: u8) -> bool
    ensures { result ≡ ends_line delimiter byte }
{
    match delimiter {
        Some(end) => byte == end,
        None => false,
    }
}
