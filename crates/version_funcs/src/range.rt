ghost use Rattle.std.specs.Prelude.{◌≡◌, ◌+◌, ◌≤◌, ◌^◌, true};
ghost use Rattle.std.specs.List.{list_all};
ghost use Rattle.std.specs.Option.{option_map};
ghost use Rattle.byte_class.specs.Class.{is_digit};
ghost use Rattle.version_funcs.specs.Number.{number};
ghost use Rattle.version_funcs.specs.Range.{is_in, open_range, range_of};
ghost use Rattle.version_funcs.specs.Seen.{clamped, seen_range};

use crate::class::{Class, is_all, split_run};
use crate::number::{compare_numbers, number_up_to};

/// A range of places, from one to another or to the last.
#[derive(Clone, Copy)]
pub struct Places {
    pub from: u128,
    pub to: Option<u128>,
}

impl Places {
    /// Whether the place is in the range.
    pub fn contains(self, place: u128) -> bool
        ensures { result ≡ is_in (seen_range self) place }
    {
        match self.to {
            Some(to) => self.from <= place && place <= to,
            None => self.from <= place,
        }
    }
}

/// The range that a text writes as `a`, `a-` or `a-b`, in decimal digits, with b not below a. Each number above
/// `length + 1` is read as that. Takes no memory.
pub fn read_range(text: &[u8], length: usize) -> Option<Places>
    ensures { option_map seen_range result ≡ option_map (clamped (length + 1)) (range_of text.now) }
{
    let above = length as u128 + 1;
    let (from, rest) = split_run(Class::Digit, text);
    if from.is_empty() {
        return None;
    }
    match rest {
        [] => Some(Places {
            from: number_up_to(above, from),
            to: Some(number_up_to(above, from)),
        }),
        [b'-', to @ ..] => read_end(from, to, above),
        _ => None,
    }
}

// The range whose hyphen stands between these two texts.
fn read_end(from: &[u8], to: &[u8], above: u128) -> Option<Places>
    requires digits { list_all is_digit from.now ≡ true }
    requires above { above ≤ 2 ^ 64 }
    ensures { option_map seen_range result ≡ option_map (clamped above) (open_range (number from.now) to.now) }
{
    if to.is_empty() {
        return Some(Places {
            from: number_up_to(above, from),
            to: None,
        });
    }
    if !is_all(Class::Digit, to) || compare_numbers(to, from).is_lt() {
        return None;
    }
    Some(Places {
        from: number_up_to(above, from),
        to: Some(number_up_to(above, to)),
    })
}
