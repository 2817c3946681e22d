ghost use Rattle.std.specs.Prelude.{◌≡◌, ◌-◌, false, length, slice_index_or};
ghost use Rattle.std.specs.Option.{option_map};
ghost use Rattle.bash_patterns.specs.Places.{IsFirstTrue, IsLastTrue};

/// The first place that is true.
pub fn first_true(values: &[bool]) -> Option<usize>
    ensures { IsFirstTrue values.now (length values.now) result }
{
    for (place, value) in values.iter().enumerate() {
        if *value {
            return Some(place);
        }
    }
    None
}

/// The last place that is true.
pub fn last_true(values: &[bool]) -> Option<usize>
    ensures { IsLastTrue values.now (length values.now) result }
{
    let mut last = None;
    for (place, value) in values.iter().enumerate() {
        if *value {
            last = Some(place);
        }
    }
    last
}

/// The value at a place; false after the last.
pub fn value_at(values: &[bool], place: usize) -> bool
    ensures { result ≡ slice_index_or values.now place false }
{
    values.get(place).copied().unwrap_or(false)
}

/// The place from which so many bytes of a text are left.
pub fn from_end(text: &[u8], left: Option<usize>) -> Option<usize>
    ensures { result ≡ option_map (λ n. length text.now - n) left }
{
    left.map(|count| text.len().saturating_sub(count))
}
