ghost use Rattle.std.specs.Prelude.{◌≡◌, ◌-◌, ◌+◌, ◌≤◌, drop, length, slice_index_or, IfOk};
ghost use Rattle.std.specs.Option.{option_map, unwrap_or};
ghost use Rattle.bash_patterns.specs.Form.{form_of};
ghost use Rattle.bash_patterns.specs.Matching.{matches};
ghost use Rattle.bash_patterns.specs.Outlook.{AreEnds, IsOutlook};
ghost use Rattle.bash_patterns.specs.Places.{all_matches, longest_size};

use crate::node::Node;
use crate::places::{last_true, value_at};
use crate::walk::{ends, walk};
use crate::way::{Goal, Way};
use eb_bytes::Memory;
use std::alloc::Global;

/// What one walk over a text says of the matches in it, for each place in it, the text's end first.
#[derive(Drop)]
pub enum Outlook {
    /// How many bytes are left after the longest match that begins there.
    Ends(Vec<Option<usize>>),
    /// Whether a match begins there.
    Begins(Vec<bool>),
}

/// All matches of a node in a text, from left to right: where each begins and where it ends.
///
/// # Errors
/// `Memory` where there is no room for the walk or for the matches.
pub fn all_matches(alloc: Global, node: &Node, text: &[u8]) -> Result<Vec<(usize, usize)>, Memory>
    ensures { IfOk result (λ found. found.items ≡ all_matches (matches (form_of node.now)) text.now) }
{
    let outlook = look(alloc, node, text)?;
    matches_by(alloc, node, &outlook, text)
}

// The same, from what one walk says of the text.
fn matches_by(
    alloc: Global,
    node: &Node,
    outlook: &Outlook,
    text: &[u8],
) -> Result<Vec<(usize, usize)>, Memory>
    requires { IsOutlook (form_of node.now) text.now outlook.now }
    ensures { IfOk result (λ found. found.items ≡ all_matches (matches (form_of node.now)) text.now) }
{
    let mut found = Vec::new(alloc);
    let mut place = 0;
    'places: while place < text.len() {
        let size = longest_from(alloc, node, outlook, text, place)?;
        if size == 0 {
            place += 1;
        } else {
            found.push((place, place + size))?;
            place += size;
        }
    }
    Ok(found)
}

// One walk, which says the most where no part of the node is what does not match another.
fn look(alloc: Global, node: &Node, text: &[u8]) -> Result<Outlook, Memory>
    ensures { IfOk result (λ outlook. IsOutlook (form_of node.now) text.now outlook) }
{
    if node.is_plain() {
        Ok(Outlook::Ends(ends(alloc, node, text)?))
    } else {
        let begins = walk(alloc, node, Way::Backward, text, Goal::Anywhere)?;
        Ok(Outlook::Begins(begins))
    }
}

// How many bytes the longest match has that begins at a place; 0 where none does.
fn longest_from(
    alloc: Global,
    node: &Node,
    outlook: &Outlook,
    text: &[u8],
    place: usize,
) -> Result<usize, Memory>
    requires place { place ≤ length text.now }
    requires outlook { IsOutlook (form_of node.now) text.now outlook.now }
    ensures size { IfOk result (λ size. size ≡ longest_size (matches (form_of node.now)) (drop place text.now)) }
    ensures fits { IfOk result (λ size. place + size ≤ length text.now) }
{
    match outlook {
        Outlook::Ends(ends) => Ok(size_at(ends.as_slice(), text.len() - place)),
        Outlook::Begins(begins) => {
            let begins_here = value_at(begins.as_slice(), text.len() - place);
            if begins_here {
                let size = longest_match(alloc, node, &text[place..])?;
                Ok(size)
            } else {
                Ok(0)
            }
        }
    }
}

// How many bytes the longest match has that begins where so many bytes are left; 0 where none does.
fn size_at(ends: &[Option<usize>], left: usize) -> usize
    ensures size { result ≡ unwrap_or (option_map (λ n. left - n) (slice_index_or ends.now left None)) 0 }
    ensures fits { result ≤ left }
{
    match ends.get(left).copied().unwrap_or(None) {
        Some(rest) => left.saturating_sub(rest),
        None => 0,
    }
}

// How many bytes the longest match has that begins where the text does; 0 where none does.
fn longest_match(alloc: Global, node: &Node, text: &[u8]) -> Result<usize, Memory>
    ensures size { IfOk result (λ size. size ≡ longest_size (matches (form_of node.now)) text.now) }
    ensures fits { IfOk result (λ size. size ≤ length text.now) }
{
    let fronts = walk(alloc, node, Way::Forward, text, Goal::End)?;
    Ok(last_true(fronts.as_slice()).unwrap_or(0))
}
