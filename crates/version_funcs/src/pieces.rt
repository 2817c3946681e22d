ghost use Rattle.std.specs.Prelude.{◌≡◌, [], ◌∷◌, drop, map, not, position, slice_index, MatchOption, IfOk, IfSome};
ghost use Rattle.std.specs.List.{prefix_len, take_while};
ghost use Rattle.version_funcs.specs.Pieces.{pieces};
ghost use Rattle.version_funcs.specs.Byte.{after_while, in_class};
ghost use Rattle.version_funcs.specs.Seen.{after_component, fellows, leading_component, seen_piece};

use crate::class::{Class, split_run};
use eb_bytes::Memory;
use std::alloc::Global;

/// A component of a text, and the separator after it, which may be empty.
#[derive(Clone, Copy)]
pub struct Part<'a> {
    pub component: &'a [u8],
    pub separator: &'a [u8],
}

// The class of the component that a text begins with.
fn leading_class(text: &[u8]) -> Class
    ensures { in_class result ≡ fellows (slice_index text.now 0) }
{
    match text {
        [b'0'..=b'9', ..] => Class::Digit,
        _ => Class::Letter,
    }
}

/// The component that a text begins with, and what stands after it. Of a text that begins with none the component is
/// empty.
pub fn split_component(text: &[u8]) -> (&[u8], &[u8])
    ensures run { result.0.now ≡ leading_component text.now }
    ensures rest { result.1.now ≡ after_component text.now }
{
    split_run(leading_class(text), text)
}

/// The first component of a text with its separator, and what stands after them, if there is a component.
pub fn split_part(text: &[u8]) -> Option<(Part<'_>, &[u8])>
    ensures parts { MatchOption result ((pieces text.now).rest ≡ []) (λ cut. (pieces text.now).rest ≡ seen_piece cut.0 ∷ (pieces cut.1.now).rest) }
    ensures clear { IfSome result (λ cut. (pieces cut.1.now).first ≡ []) }
{
    let (_, from) = split_run(Class::Separator, text);
    if from.is_empty() {
        return None;
    }
    let (component, after) = split_component(from);
    let (separator, rest) = split_run(Class::Separator, after);
    Some((
        Part {
            component,
            separator,
        },
        rest,
    ))
}

/// What stands after so many components and their separators; the empty text where there are fewer.
pub fn after_parts(text: &[u8], count: u128) -> &[u8]
    requires { (pieces text.now).first ≡ [] }
    ensures { pieces result.now ≡ record { first = []; rest = drop count (pieces text.now).rest } }
{
    let mut rest = text;
    let mut left = count;
    while left > 0 {
        let Some((_, after)) = split_part(rest) else {
            return rest;
        };
        rest = after;
        left -= 1;
    }
    rest
}

// The components of a text from left to right, each with the separator after it.
#[derive(Clone, Copy)]
struct Components<'a> {
    rest: &'a [u8],
}

impl<'a> Components<'a> {
    fn new(text: &'a [u8]) -> Components<'a>
        ensures { result.rest.now ≡ text.now }
    {
        Components { rest: text }
    }
}

impl<'a> Iterator for Components<'a> {
    type Item = Part<'a>;

    ghost use Rattle.std.specs.Iterator.{YieldsFirstBy, item_count};
    ghost use Rattle.version_funcs.specs.Pieces.{pieces};
    ghost use Rattle.version_funcs.specs.Seen.{seen_piece};

    ghost next_gives = { YieldsFirstBy seen_piece (λ left. (pieces left.rest.now).rest) };

    ghost remaining = { item_count (λ left. (pieces left.rest.now).rest) };

    fn next(&mut self) -> Option<Part<'a>> {
        let (part, rest) = split_part(self.rest)?;
        self.rest = rest;
        Some(part)
    }
}

/// The components of a text, each with the separator after it.
///
/// # Errors
/// `Memory` where there is no room for them.
pub fn parts_of(alloc: Global, text: &[u8]) -> Result<Vec<Part<'_>>, Memory>
    ensures { IfOk result (λ list. map seen_piece list.items ≡ (pieces text.now).rest) }
{
    let mut list = Vec::new(alloc);
    for part in Components::new(text) {
        list.push(part)?;
    }
    Ok(list)
}
