ghost use Rattle.std.specs.Prelude.{◌≡◌, false, true, [], ◌++◌, IfOk, OnOk};
ghost use Rattle.bash_patterns.specs.Facing.{facing, facing_form, facing_node, grown, holds};
ghost use Rattle.bash_patterns.specs.Form.{AnyTimes, AtMostOnce, Both, Choice, OnceOrMore, Single, Whatever, form_of};
ghost use Rattle.bash_patterns.specs.Kept.{starts};
ghost use Rattle.bash_patterns.specs.Outlook.{AreEnds};
ghost use Rattle.bash_patterns.specs.Walk.{ends as ends_values, first_kept, is_plain, kept_if, nearer, rest_kept, step as step_of};

use crate::follow::follow;
use crate::node::Node;
use crate::test::Test;
use crate::way::{Goal, Way};
use eb_bytes::Memory;
use std::alloc::Global;
use std::mem;

// A step onto a byte; none where the walk begins. `keeps` says whether values are kept for the next step.
#[derive(Clone, Copy)]
struct Turn {
    way: Way,
    byte: Option<u8>,
    keeps: bool,
}

impl Turn {
    // The same step, which keeps no values.
    fn looking(self) -> Turn
        ensures way { result.way ≡ self.way }
        ensures byte { result.byte ≡ self.byte }
        ensures keeps { result.keeps ≡ false }
    {
        Turn {
            keeps: false,
            ..self
        }
    }
}

// Where the match ends that begins where the walk is, and what was kept for the nodes that the walk comes to later.
#[derive(Clone, Copy)]
struct Begun<'k> {
    end: Option<usize>,
    rest: &'k [Option<usize>],
}

// What was kept first, and the rest.
fn split_first(kept: &[Option<usize>]) -> Begun<'_>
    ensures end { result.end ≡ first_kept None kept.now }
    ensures rest { result.rest.now ≡ rest_kept kept.now }
{
    match kept {
        [end, rest @ ..] => Begun { end: *end, rest },
        [] => Begun {
            end: None,
            rest: kept,
        },
    }
}

// Of two ends the one that the walk came to first. It is the one that is farther from where the walk is.
fn nearer(one: Option<usize>, other: Option<usize>) -> Option<usize>
    ensures { result ≡ nearer one other }
{
    match (one, other) {
        (None, end) => end,
        (Some(end), None) => Some(end),
        (Some(end), Some(another)) => Some(end.min(another)),
    }
}

// Where the match of a node ends that begins where the walk is, where `after` is the end of what follows the node.
// Takes what was kept for the node one byte before, and puts at the end of `next` what is kept for the next byte.
#[cycle(step)]
#[tactic(auto, unfolding(crate::specs::Walk::step, crate::specs::Facing::facing_node))]
fn step<'k>(
    node: &Node,
    turn: Turn,
    kept: &'k [Option<usize>],
    after: Option<usize>,
    next: &mut Vec<Option<usize>>,
) -> Result<Begun<'k>, Memory>
    ensures end { IfOk result (λ begun. begun.end ≡ (step_of ends_values (facing_node turn.way node.now) turn.keeps turn.byte kept.now after).value) }
    ensures rest { IfOk result (λ begun. begun.rest.now ≡ (step_of ends_values (facing_node turn.way node.now) turn.keeps turn.byte kept.now after).rest) }
    ensures kept { OnOk result (next.new.items ≡ next.old.items ++ (step_of ends_values (facing_node turn.way node.now) turn.keeps turn.byte kept.now after).kept) }
{
    match node {
        Node::Nothing => Ok(Begun {
            end: after,
            rest: kept,
        }),
        Node::One(test) => step_one(test, turn, kept, after, next),
        Node::AnyText => step_any(turn, kept, after, next),
        Node::Then(first, second) => match turn.way {
            Way::Backward => step_both(second, first, turn, kept, after, next),
            Way::Forward => step_both(first, second, turn, kept, after, next),
        },
        Node::Either(first, second) => step_either(first, second, turn, kept, after, next),
        Node::Optional(inner) => step_optional(inner, turn, kept, after, next),
        Node::ZeroOrMore(inner) => step_repeated(inner, turn, kept, after, next),
        Node::OneOrMore(inner) => step_once_or_more(inner, turn, kept, after, next),
        // Not met: a tree with this is not walked so.
        Node::NoneOf(_) => Ok(Begun {
            end: None,
            rest: kept,
        }),
    }
}

// The step of one byte.
#[tactic(auto, unfolding(crate::specs::Walk::step))]
fn step_one<'k>(
    test: &Test,
    turn: Turn,
    kept: &'k [Option<usize>],
    after: Option<usize>,
    next: &mut Vec<Option<usize>>,
) -> Result<Begun<'k>, Memory>
    ensures end { IfOk result (λ begun. begun.end ≡ (step_of ends_values (Single test.now) turn.keeps turn.byte kept.now after).value) }
    ensures rest { IfOk result (λ begun. begun.rest.now ≡ (step_of ends_values (Single test.now) turn.keeps turn.byte kept.now after).rest) }
    ensures kept { OnOk result (next.new.items ≡ next.old.items ++ (step_of ends_values (Single test.now) turn.keeps turn.byte kept.now after).kept) }
{
    let begun = split_first(kept);
    keep(turn.keeps, after, next)?;
    let end = if test.passes_next(turn.byte) {
        begun.end
    } else {
        None
    };
    Ok(Begun {
        end,
        rest: begun.rest,
    })
}

// The step of any text.
#[tactic(auto, unfolding(crate::specs::Walk::step))]
fn step_any<'k>(
    turn: Turn,
    kept: &'k [Option<usize>],
    after: Option<usize>,
    next: &mut Vec<Option<usize>>,
) -> Result<Begun<'k>, Memory>
    ensures end { IfOk result (λ begun. begun.end ≡ (step_of ends_values Whatever turn.keeps turn.byte kept.now after).value) }
    ensures rest { IfOk result (λ begun. begun.rest.now ≡ (step_of ends_values Whatever turn.keeps turn.byte kept.now after).rest) }
    ensures kept { OnOk result (next.new.items ≡ next.old.items ++ (step_of ends_values Whatever turn.keeps turn.byte kept.now after).kept) }
{
    let begun = split_first(kept);
    let end = nearer(after, begun.end);
    keep(turn.keeps, end, next)?;
    Ok(Begun {
        end,
        rest: begun.rest,
    })
}

// The step of two trees, of which the walk comes to `near` first.
#[cycle(step)]
#[tactic(auto, unfolding(crate::specs::Walk::step))]
fn step_both<'k>(
    near: &Node,
    far: &Node,
    turn: Turn,
    kept: &'k [Option<usize>],
    after: Option<usize>,
    next: &mut Vec<Option<usize>>,
) -> Result<Begun<'k>, Memory>
    ensures end { IfOk result (λ begun. begun.end ≡ (step_of ends_values (Both (facing_node turn.way far.now) (facing_node turn.way near.now)) turn.keeps turn.byte kept.now after).value) }
    ensures rest { IfOk result (λ begun. begun.rest.now ≡ (step_of ends_values (Both (facing_node turn.way far.now) (facing_node turn.way near.now)) turn.keeps turn.byte kept.now after).rest) }
    ensures kept { OnOk result (next.new.items ≡ next.old.items ++ (step_of ends_values (Both (facing_node turn.way far.now) (facing_node turn.way near.now)) turn.keeps turn.byte kept.now after).kept) }
{
    let begun = step(near, turn, kept, after, next)?;
    step(far, turn, begun.rest, begun.end, next)
}

// The step of one tree or the other.
#[cycle(step)]
#[tactic(auto, unfolding(crate::specs::Walk::step))]
fn step_either<'k>(
    first: &Node,
    second: &Node,
    turn: Turn,
    kept: &'k [Option<usize>],
    after: Option<usize>,
    next: &mut Vec<Option<usize>>,
) -> Result<Begun<'k>, Memory>
    ensures end { IfOk result (λ begun. begun.end ≡ (step_of ends_values (Choice (facing_node turn.way first.now) (facing_node turn.way second.now)) turn.keeps turn.byte kept.now after).value) }
    ensures rest { IfOk result (λ begun. begun.rest.now ≡ (step_of ends_values (Choice (facing_node turn.way first.now) (facing_node turn.way second.now)) turn.keeps turn.byte kept.now after).rest) }
    ensures kept { OnOk result (next.new.items ≡ next.old.items ++ (step_of ends_values (Choice (facing_node turn.way first.now) (facing_node turn.way second.now)) turn.keeps turn.byte kept.now after).kept) }
{
    let one = step(second, turn, kept, after, next)?;
    let other = step(first, turn, one.rest, after, next)?;
    Ok(Begun {
        end: nearer(one.end, other.end),
        rest: other.rest,
    })
}

// The step of a tree or no byte.
#[cycle(step)]
#[tactic(auto, unfolding(crate::specs::Walk::step))]
fn step_optional<'k>(
    inner: &Node,
    turn: Turn,
    kept: &'k [Option<usize>],
    after: Option<usize>,
    next: &mut Vec<Option<usize>>,
) -> Result<Begun<'k>, Memory>
    ensures end { IfOk result (λ begun. begun.end ≡ (step_of ends_values (AtMostOnce (facing_node turn.way inner.now)) turn.keeps turn.byte kept.now after).value) }
    ensures rest { IfOk result (λ begun. begun.rest.now ≡ (step_of ends_values (AtMostOnce (facing_node turn.way inner.now)) turn.keeps turn.byte kept.now after).rest) }
    ensures kept { OnOk result (next.new.items ≡ next.old.items ++ (step_of ends_values (AtMostOnce (facing_node turn.way inner.now)) turn.keeps turn.byte kept.now after).kept) }
{
    let once = step(inner, turn, kept, after, next)?;
    Ok(Begun {
        end: nearer(after, once.end),
        rest: once.rest,
    })
}

// The step of a tree any number of times. What it is when the tree matches once more tells where that may end.
#[cycle(step)]
#[tactic(auto, unfolding(crate::specs::Walk::step))]
fn step_repeated<'k>(
    inner: &Node,
    turn: Turn,
    kept: &'k [Option<usize>],
    after: Option<usize>,
    next: &mut Vec<Option<usize>>,
) -> Result<Begun<'k>, Memory>
    ensures end { IfOk result (λ begun. begun.end ≡ (step_of ends_values (AnyTimes (facing_node turn.way inner.now)) turn.keeps turn.byte kept.now after).value) }
    ensures rest { IfOk result (λ begun. begun.rest.now ≡ (step_of ends_values (AnyTimes (facing_node turn.way inner.now)) turn.keeps turn.byte kept.now after).rest) }
    ensures kept { OnOk result (next.new.items ≡ next.old.items ++ (step_of ends_values (AnyTimes (facing_node turn.way inner.now)) turn.keeps turn.byte kept.now after).kept) }
{
    let ahead = step(inner, turn.looking(), kept, None, next)?;
    let end = nearer(after, ahead.end);
    if !turn.keeps {
        return Ok(Begun {
            end,
            rest: ahead.rest,
        });
    }
    let again = step(inner, turn, kept, end, next)?;
    Ok(Begun {
        end,
        rest: again.rest,
    })
}

// The step of a tree once or more.
#[cycle(step)]
#[tactic(auto, unfolding(crate::specs::Walk::step))]
fn step_once_or_more<'k>(
    inner: &Node,
    turn: Turn,
    kept: &'k [Option<usize>],
    after: Option<usize>,
    next: &mut Vec<Option<usize>>,
) -> Result<Begun<'k>, Memory>
    ensures end { IfOk result (λ begun. begun.end ≡ (step_of ends_values (OnceOrMore (facing_node turn.way inner.now)) turn.keeps turn.byte kept.now after).value) }
    ensures rest { IfOk result (λ begun. begun.rest.now ≡ (step_of ends_values (OnceOrMore (facing_node turn.way inner.now)) turn.keeps turn.byte kept.now after).rest) }
    ensures kept { OnOk result (next.new.items ≡ next.old.items ++ (step_of ends_values (OnceOrMore (facing_node turn.way inner.now)) turn.keeps turn.byte kept.now after).kept) }
{
    if !turn.keeps {
        return step(inner, turn, kept, after, next);
    }
    let ahead = step(inner, turn.looking(), kept, None, next)?;
    step(inner, turn, kept, nearer(after, ahead.end), next)
}

// Puts a value at the end, where values are to be kept.
fn keep(keeps: bool, end: Option<usize>, next: &mut Vec<Option<usize>>) -> Result<(), Memory>
    ensures { OnOk result (next.new.items ≡ next.old.items ++ kept_if keeps end) }
{
    if keeps {
        next.push(end)?;
    }
    Ok(())
}

// A walk of a plain node, which keeps for each place in the node where the match of the rest ends that begins there.
#[derive(Drop)]
struct Walker<'n> {
    node: &'n Node,
    way: Way,
    kept: Vec<Option<usize>>,
    next: Vec<Option<usize>>,
}

impl<'n> Walker<'n> {
    fn new(alloc: Global, node: &'n Node, way: Way) -> Walker<'n>
        ensures node { result.node.now ≡ node.now }
        ensures way { result.way ≡ way }
        ensures kept { result.kept.items ≡ [] }
    {
        Walker {
            node,
            way,
            kept: Vec::new(alloc),
            next: Vec::new(alloc),
        }
    }

    // Goes on to a byte, or begins. Says where the match of the node ends that begins there; `after` is where one may
    // end that ends there.
    fn go(&mut self, byte: Option<u8>, after: Option<usize>) -> Result<Option<usize>, Memory>
        ensures node { OnOk result (self.new.node.now ≡ self.old.node.now) }
        ensures way { OnOk result (self.new.way ≡ self.old.way) }
        ensures end { IfOk result (λ end. end ≡ (step_of ends_values (facing_node self.old.way self.old.node.now) true byte self.old.kept.items after).value) }
        ensures kept { OnOk result (self.new.kept.items ≡ (step_of ends_values (facing_node self.old.way self.old.node.now) true byte self.old.kept.items after).kept) }
    {
        self.next.clear();
        let turn = Turn {
            way: self.way,
            byte,
            keeps: true,
        };
        let begun = step(self.node, turn, self.kept.as_slice(), after, &mut self.next)?;
        let end = begun.end;
        mem::swap(&mut self.kept, &mut self.next);
        Ok(end)
    }
}

/// Walks the whole text, and says for each place on the way, the one where the walk begins first, whether the node can
/// begin there.
///
/// # Errors
/// `Memory` where there is no room for the walk.
pub fn walk(
    alloc: Global,
    node: &Node,
    way: Way,
    text: &[u8],
    goal: Goal,
) -> Result<Vec<bool>, Memory>
    ensures { IfOk result (λ values. values.items ≡ grown (starts (facing_form way (form_of node.now)) (holds goal)) (facing way text.now)) }
{
    if node.is_plain() {
        walk_plain(alloc, node, way, text, goal)
    } else {
        follow(alloc, node, way, text, goal)
    }
}

// The same for a plain node.
fn walk_plain(
    alloc: Global,
    node: &Node,
    way: Way,
    text: &[u8],
    goal: Goal,
) -> Result<Vec<bool>, Memory>
    requires { is_plain (form_of node.now) ≡ true }
    ensures { IfOk result (λ values. values.items ≡ grown (starts (facing_form way (form_of node.now)) (holds goal)) (facing way text.now)) }
{
    let mut walk = Walker::new(alloc, node, way);
    let mut values = Vec::new(alloc);
    let first = walk.go(None, goal.end(0))?;
    values.push(first.is_some())?;
    for count in 0..text.len() {
        let next = walk.go(Some(way.byte(text, count)), goal.end(count + 1))?;
        values.push(next.is_some())?;
    }
    Ok(values)
}

/// Walks the whole text from its end, and says for each place on the way, the text's end first, where the longest match
/// of a plain node ends that begins there: how many bytes of the text are left after it.
///
/// # Errors
/// `Memory` where there is no room for the walk.
pub fn ends(alloc: Global, node: &Node, text: &[u8]) -> Result<Vec<Option<usize>>, Memory>
    requires { is_plain (form_of node.now) ≡ true }
    ensures { IfOk result (λ ends. AreEnds (form_of node.now) text.now ends.items) }
{
    let mut walk = Walker::new(alloc, node, Way::Backward);
    let mut ends = Vec::new(alloc);
    let first = walk.go(None, Some(0))?;
    ends.push(first)?;
    for count in 0..text.len() {
        let next = walk.go(Some(Way::Backward.byte(text, count)), Some(count + 1))?;
        ends.push(next)?;
    }
    Ok(ends)
}
