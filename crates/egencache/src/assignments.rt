ghost use Rattle.std.specs.Prelude.{◌≡◌, ◌-◌, ◌<◌, ◌^◌, map, length};
ghost use Rattle.std.specs.Option.{option_copied};
ghost use Rattle.eb_bytes.specs.Text.{lines};
ghost use Rattle.egencache.specs.Assignments.{assignments_of, bad_line, variable};
ghost use Rattle.egencache.specs.Seen.{assigned};
ghost use Rattle.egencache.specs.Tells.{TellsAssignments};

use crate::plain::{Line, read_line};
use eb_bytes::Memory;
use std::alloc::{AllocError, AllocFailed, Global};

/// An assignment of a plain value to a variable.
#[derive(Clone, Copy)]
pub struct Assignment<'a> {
    pub name: &'a [u8],
    pub value: &'a [u8],
}

/// Why a text has no list of assignments.
#[derive(Clone, Copy)]
pub enum PlainErr {
    /// The line of this number, counted from 1, is the first that is not plain.
    NotPlain(u32),
    Memory,
}

impl<T: Drop> From<AllocFailed<T>> for PlainErr {
    ghost use Rattle.std.specs.Prelude.{◌≡◌};
    ghost use Rattle.egencache.specs.declared.assignments.PlainErr.TheVariants as why;

    ghost from_gives = { λ _ error. error ≡ why.Memory };

    fn from(_error: AllocFailed<T>) -> PlainErr {
        PlainErr::Memory
    }
}

/// The assignments of a text of plain lines, in order.
///
/// # Errors
/// `NotPlain` with the number of the first line that is not plain; `Memory` where there is no room for the list.
pub fn read_assignments(alloc: Global, text: &[u8]) -> Result<Vec<Assignment<'_>>, PlainErr>
    requires { length text.now < 2 ^ 32 - 1 }
    ensures { TellsAssignments (λ list. map assigned list.items) result (bad_line text.now) (assignments_of (lines text.now)) }
{
    let mut list = Vec::new(alloc);
    let mut number = 0;
    for line in text.split(|byte| *byte == b'\n') {
        number += 1;
        match read_line(line) {
            Line::Nothing => {}
            Line::Assigns(name, value) => list.push(Assignment { name, value })?,
            Line::Other => return Err(PlainErr::NotPlain(number)),
        }
    }
    Ok(list)
}

/// The value that the last assignment to this name gives it; none where there is no such assignment.
pub fn variable<'a>(assignments: &[Assignment<'a>], name: &[u8]) -> Option<&'a [u8]>
    ensures { option_copied result ≡ variable name.now (map assigned assignments.now) }
{
    let mut found = None;
    for assignment in assignments {
        if assignment.name == name {
            found = Some(assignment.value);
        }
    }
    found
}
