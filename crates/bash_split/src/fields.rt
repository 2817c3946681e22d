ghost use Rattle.std.specs.Prelude.{◌≡◌, IfOk};
ghost use Rattle.bash_split.specs.Fields.{fields};

use crate::place::Place;
use crate::role::Ifs;
use eb_bytes::Memory;
use shell_marks::Marked;
use std::alloc::Global;

/// The fields of a list of marks, split by the bytes of `ifs` (Bash Reference Manual, "Word Splitting").
///
/// Only bytes of results split. A blank, tab or newline that `ifs` has is an IFS blank: a run of these ends a field,
/// and at both ends of the list, and next to another byte of `ifs`, it counts for nothing. Any other byte of `ifs` ends
/// a field each time, also one without marks. A break ends the field before it, if there is one. Each field holds its
/// literals, quoted bytes, empty quotes and other bytes of results, in order; the breaks and the bytes that split are
/// in none. So a field has no marks only where a byte of `ifs` that is no blank ended it; one that holds empty quotes
/// alone has no bytes and stays too. An empty `ifs` splits at breaks alone; for an unset IFS pass blank, tab and
/// newline.
///
/// # Errors
/// `Memory` where there is no room for the fields.
pub fn split(alloc: Global, m: &Marked, ifs: &[u8]) -> Result<Vec<Marked>, Memory>
    ensures { IfOk result (λ list. list.items ≡ fields ifs.now m.now) }
{
    let ifs = Ifs::new(ifs);
    let mut ended = Vec::new(alloc);
    let mut place = Place::Outside;
    for mark in m.as_slice() {
        place = place.take(alloc, &ifs, *mark, &mut ended)?;
    }
    place.end(&mut ended)?;
    Ok(ended)
}
