ghost use Rattle.std.specs.Prelude.{◌≡◌};
ghost use Rattle.bash_split.specs.Table.{IsTableOf};

use byte_class::is_space;
use shell_marks::Mark;
use std::marker::Model;

/// What a mark does where marks are split.
#[derive(Clone, Copy)]
pub enum Role {
    /// It is part of a field.
    Part,
    /// It ends a field if one is begun, together with a separator that comes next.
    Blank,
    /// It ends a field: the one that is begun, or that blanks before it ended, or else an empty one.
    Separator,
    /// It ends a field if one is begun.
    Border,
}

// The table of the bytes that a text has.
fn table_of(bytes: &[u8]) -> [bool; 256]
    ensures { IsTableOf bytes.now result }
{
    let mut table = [false; 256];
    for byte in bytes {
        table[usize::from(*byte)] = true;
    }
    table
}

/// The bytes of IFS, with a table of them, so that the time of a look-up does not grow with IFS. Contracts see the
/// bytes.
#[derive(Drop)]
pub struct Ifs<'a> {
    bytes: &'a [u8],
    table: [bool; 256],
}

impl<'a> Model for Ifs<'a> {
    ghost use Rattle.std.specs.Prelude.{List, ℕ};
    ghost use Rattle.bash_split.specs.Table.{IsTableOf};

    ghost Value = { List ℕ };

    ghost view = { λ i. i.bytes.now };

    ghost invariant = { λ i. IsTableOf i.bytes.now i.table };
}

impl<'a> Ifs<'a> {
    ghost use Rattle.bash_split.specs.Fields.{role};

    /// These bytes.
    pub fn new(bytes: &'a [u8]) -> Ifs<'a>
        ensures { result ≡ bytes.now }
    {
        Ifs {
            bytes,
            table: table_of(bytes),
        }
    }

    /// What this mark does.
    pub fn role(&self, mark: Mark) -> Role
        ensures { result ≡ role self.now mark }
    {
        match mark {
            Mark::Literal(_) | Mark::Quoted(_) | Mark::Empty => Role::Part,
            Mark::Break => Role::Border,
            Mark::Result(byte) => {
                if !self.table[usize::from(byte)] {
                    Role::Part
                } else if is_space(byte) {
                    Role::Blank
                } else {
                    Role::Separator
                }
            }
        }
    }
}
