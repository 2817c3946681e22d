ghost use Rattle.std.specs.Prelude.{◌≡◌, take, drop};

/// What stands in a list from a place on; nothing, where that is past its end.
pub fn after<T>(list: &[T], place: usize) -> &[T]
    ensures { result.now ≡ drop place list.now }
{
    match list.get(place..) {
        Some(rest) => rest,
        None => &[],
    }
}

/// What stands in a list before a place; all of it, where that is past its end.
pub fn before<T>(list: &[T], place: usize) -> &[T]
    ensures { result.now ≡ take place list.now }
{
    match list.get(..place) {
        Some(start) => start,
        None => list,
    }
}
