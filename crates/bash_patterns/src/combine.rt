ghost use Rattle.std.specs.Prelude.{◌≡◌, ◌+◌, ◌-◌, ◌<◌, ◌≤◌, true, [], length, OnOk, IfOk, IfNone, IfSome};
ghost use Rattle.std.specs.declared.cmp.Ordering.TheVariants.{Equal, Greater, Less};
ghost use Rattle.bash_patterns.specs.declared.way.Way.{Way};
ghost use Rattle.bash_patterns.specs.Form.{Both, Choice, Not};
ghost use Rattle.bash_patterns.specs.Left.{IsSame, IsSameLast, IsWithin, any_form, both_form, last_of, left_form, next_form};

use crate::left::Left;
use crate::node::Node;
use eb_bytes::Memory;
use std::alloc::Global;
use std::cmp::Ordering;

// Of so many alternatives each is compared with each.
const FEW: usize = 4;

/// One or the other. Where both are trees of alternatives in order, it is one too, and has none twice.
///
/// # Errors
/// `Memory` where there is no room for it.
#[tactic(auto, using(crate::proofs::Combined::same_beside_never, crate::proofs::Combined::same_never_beside, crate::proofs::Combined::same_all_beside, crate::proofs::Combined::same_beside_all), unfolding(crate::specs::Left::left_form))]
pub fn either<'n>(alloc: Global, first: Left<'n>, second: Left<'n>) -> Result<Left<'n>, Memory>
    ensures { IfOk result (λ left. (way : Way) → IsSame (left_form way left) (Choice (left_form way first.entry) (left_form way second.entry))) }
{
    match (first, second) {
        (Left::Never, left) | (left, Left::Never) => Ok(left),
        (Left::Anything, _) => Ok(Left::Anything),
        (_, Left::Anything) => Ok(Left::Anything),
        (first, second) => if first.is_one() && second.is_one() {
            pair(alloc, first, second)
        } else {
            merged(alloc, first, second)
        },
    }
}

// Two alternatives in order, or one where the other is seen to lie within it.
#[tactic(auto, using(crate::proofs::Combined::same_first, crate::proofs::Combined::same_second, crate::proofs::Combined::same_swapped))]
fn pair<'n>(alloc: Global, first: Left<'n>, second: Left<'n>) -> Result<Left<'n>, Memory>
    ensures { IfOk result (λ left. (way : Way) → IsSame (left_form way left) (Choice (left_form way first.entry) (left_form way second.entry))) }
{
    match kept_of(&first, &second) {
        Kept::First => Ok(first),
        Kept::Second => Ok(second),
        Kept::InOrder => both(alloc, first, second),
        Kept::Turned => both(alloc, second, first),
    }
}

// Which of two alternatives are kept: one alone, or both, in their order or turned round.
#[derive(Clone, Copy)]
enum Kept {
    First,
    Second,
    InOrder,
    Turned,
}

#[tactic(auto, using(crate::proofs::Combined::within_itself))]
fn kept_of<'n>(first: &Left<'n>, second: &Left<'n>) -> Kept
    ensures first { result ≡ Kept.First → (way : Way) → IsWithin (left_form way second.now) (left_form way first.now) }
    ensures second { result ≡ Kept.Second → (way : Way) → IsWithin (left_form way first.now) (left_form way second.now) }
{
    let order = first.compare(second);
    if order.is_eq() || first.is_within(second) {
        Kept::Second
    } else if second.is_within(first) {
        Kept::First
    } else if order.is_lt() {
        Kept::InOrder
    } else {
        Kept::Turned
    }
}

// One alternative or the other.
#[tactic(auto, using(crate::proofs::Combined::same_itself), unfolding(crate::specs::Left::left_form))]
fn both<'n>(alloc: Global, near: Left<'n>, far: Left<'n>) -> Result<Left<'n>, Memory>
    ensures { IfOk result (λ left. (way : Way) → IsSame (left_form way left) (Choice (left_form way near.entry) (left_form way far.entry))) }
{
    let near = Box::new(alloc, near)?;
    let far = Box::new(alloc, far)?;
    Ok(Left::Either(near, far))
}

// The alternatives of two trees, in order, where both have theirs in order.
#[tactic(auto, using(crate::proofs::Alternatives::same_merged))]
fn merged<'n>(alloc: Global, first: Left<'n>, second: Left<'n>) -> Result<Left<'n>, Memory>
    ensures { IfOk result (λ left. (way : Way) → IsSame (left_form way left) (Choice (left_form way first.entry) (left_form way second.entry))) }
{
    let mut firsts = Vec::new(alloc);
    push_alternatives(&mut firsts, first)?;
    let mut seconds = Vec::new(alloc);
    push_alternatives(&mut seconds, second)?;
    let parts = merge(alloc, firsts, seconds)?;
    let mut parts = thin(alloc, parts)?;
    let count = parts.len();
    gather(alloc, &mut parts, count)
}

// Puts the alternatives of a tree at the end.
#[tactic(auto, using(crate::proofs::Alternatives::any_pushed, crate::proofs::Alternatives::same_further), unfolding(crate::specs::Left::left_form))]
fn push_alternatives<'n>(parts: &mut Vec<Left<'n>>, left: Left<'n>) -> Result<(), Memory>
    ensures { OnOk result ((way : Way) → IsSame (any_form way parts.new.items) (Choice (any_form way parts.old.items) (left_form way left.entry))) }
{
    match left {
        Left::Either(near, far) => {
            push_alternatives(parts, Box::into_inner(near))?;
            push_alternatives(parts, Box::into_inner(far))
        }
        _ => {
            parts.push(left)?;
            Ok(())
        }
    }
}

// The parts of two lists, the last in order first; one of two that are the same.
#[tactic(auto, using(crate::proofs::Alternatives::merge_begun, crate::proofs::Alternatives::merge_next, crate::proofs::Alternatives::merge_done))]
fn merge<'n>(
    alloc: Global,
    mut firsts: Vec<Left<'n>>,
    mut seconds: Vec<Left<'n>>,
) -> Result<Vec<Left<'n>>, Memory>
    ensures { IfOk result (λ parts. (way : Way) → IsSame (any_form way parts.items) (both_form way firsts.entry.items seconds.entry.items)) }
{
    let mut parts = Vec::new(alloc);
    while let Some(part) = take_last(&mut firsts, &mut seconds) {
        parts.push(part)?;
    }
    Ok(parts)
}

// Takes the last in order from two lists that are in order; from both, where theirs are the same.
#[tactic(auto, using(crate::proofs::Alternatives::taken_none, crate::proofs::Alternatives::taken_first, crate::proofs::Alternatives::taken_second, crate::proofs::Alternatives::taken_twice, crate::proofs::Alternatives::same_last_first, crate::proofs::Alternatives::same_last_second))]
fn take_last<'n>(firsts: &mut Vec<Left<'n>>, seconds: &mut Vec<Left<'n>>) -> Option<Left<'n>>
    ensures taken { IfSome result (λ left. (way : Way) → IsSame (both_form way firsts.old.items seconds.old.items) (Choice (left_form way left) (both_form way firsts.new.items seconds.new.items))) }
    ensures none { IfNone result ((way : Way) → IsSame (both_form way firsts.old.items seconds.old.items) (any_form way [])) }
    ensures fewer { IfSome result (λ _. length firsts.new.items + length seconds.new.items < length firsts.old.items + length seconds.old.items) }
{
    match later(firsts.as_slice(), seconds.as_slice()) {
        Ordering::Greater => firsts.pop(),
        Ordering::Less => seconds.pop(),
        Ordering::Equal => match seconds.pop() {
            Some(_) => firsts.pop(),
            None => None,
        },
    }
}

// The order of the last parts of two lists; an empty list is before any other.
#[tactic(auto, using(crate::proofs::Alternatives::last_some))]
fn later<'n>(firsts: &[Left<'n>], seconds: &[Left<'n>]) -> Ordering
    ensures first { result ≡ Greater → 1 ≤ length firsts.now }
    ensures second { result ≡ Less → length seconds.now ≡ 0 → length firsts.now ≡ 0 }
    ensures same { result ≡ Equal → IsSameLast (last_of firsts.now) (last_of seconds.now) }
{
    match (firsts.last(), seconds.last()) {
        (Some(first), Some(second)) => first.compare(second),
        (Some(_), None) => Ordering::Greater,
        (None, _) => Ordering::Less,
    }
}

// The parts, the last of them first. Of few, none is kept that is seen to lie within another: to compare each with each
// takes the square of their number.
#[tactic(auto, using(crate::proofs::Alternatives::thin_begun, crate::proofs::Alternatives::thin_kept, crate::proofs::Alternatives::thin_dropped, crate::proofs::Alternatives::thin_done))]
fn thin<'n>(alloc: Global, mut parts: Vec<Left<'n>>) -> Result<Vec<Left<'n>>, Memory>
    ensures { IfOk result (λ kept. (way : Way) → IsSame (any_form way kept.items) (any_form way parts.entry.items)) }
{
    let are_few = parts.len() <= FEW;
    let mut kept = Vec::new(alloc);
    while let Some(part) = parts.pop() {
        if !(are_few && is_needless(&part, kept.as_slice(), parts.as_slice())) {
            kept.push(part)?;
        }
    }
    Ok(kept)
}

// Whether this part is seen to lie within another.
#[tactic(auto, using(crate::proofs::Combined::within_first, crate::proofs::Combined::within_second))]
fn is_needless<'n>(part: &Left<'n>, kept: &[Left<'n>], parts: &[Left<'n>]) -> bool
    ensures { result ≡ true → (way : Way) → IsWithin (left_form way part.now) (both_form way kept.now parts.now) }
{
    part.is_within_one(kept) || part.is_within_one(parts)
}

// The last so many of these parts as a tree whose depth grows with the logarithm of their number.
#[tactic(auto, using(crate::proofs::Alternatives::any_popped, crate::proofs::Alternatives::any_none, crate::proofs::Alternatives::same_gathered), unfolding(crate::specs::Left::left_form))]
fn gather<'n>(alloc: Global, parts: &mut Vec<Left<'n>>, count: usize) -> Result<Left<'n>, Memory>
    ensures same { IfOk result (λ left. (way : Way) → IsSame (any_form way parts.old.items) (Choice (left_form way left) (any_form way parts.new.items))) }
    ensures rest { OnOk result (length parts.new.items ≤ length parts.old.items - count) }
{
    if count <= 1 {
        return match parts.pop() {
            Some(part) => Ok(part),
            None => Ok(Left::Never),
        };
    }
    let half = count / 2;
    let second = gather(alloc, parts, half)?;
    let first = gather(alloc, parts, count - half)?;
    both(alloc, first, second)
}

/// A tree that comes after what is left: once, or any number of times.
#[derive(Clone, Copy)]
pub enum Next<'n> {
    Once(&'n Node),
    AnyTimes(&'n Node),
}

/// What is left of one tree, and another after it. Each alternative gets it after itself, so that equal ones are
/// seen.
///
/// # Errors
/// `Memory` where there is no room for it.
#[tactic(auto, using(crate::proofs::Combined::same_never, crate::proofs::Combined::same_Both), unfolding(crate::specs::Left::left_form))]
pub fn then<'n>(alloc: Global, first: Left<'n>, next: Next<'n>) -> Result<Left<'n>, Memory>
    ensures { IfOk result (λ left. (way : Way) → IsSame (left_form way left) (Both (left_form way first.entry) (next_form way next.entry))) }
{
    match first {
        Left::Never => Ok(Left::Never),
        Left::Either(near, far) => {
            let near = then(alloc, Box::into_inner(near), next)?;
            let far = then(alloc, Box::into_inner(far), next)?;
            either(alloc, near, far)
        }
        _ => before(alloc, first, next),
    }
}

// The same of what is one alternative.
#[tactic(auto, using(crate::proofs::Combined::same_Empty, crate::proofs::Combined::same_itself), unfolding(crate::specs::Left::left_form))]
fn before<'n>(alloc: Global, first: Left<'n>, next: Next<'n>) -> Result<Left<'n>, Memory>
    ensures { IfOk result (λ left. (way : Way) → IsSame (left_form way left) (Both (left_form way first.entry) (next_form way next.entry))) }
{
    match next {
        Next::Once(node) => match first {
            Left::Nothing => Ok(Left::Whole(node)),
            _ => Ok(Left::Then(Box::new(alloc, first)?, node)),
        },
        Next::AnyTimes(node) => Ok(Left::Repeated(Box::new(alloc, first)?, node)),
    }
}

/// What does not match.
///
/// # Errors
/// `Memory` where there is no room for it.
#[tactic(auto, using(crate::proofs::Combined::same_all, crate::proofs::Combined::same_twice, crate::proofs::Combined::same_itself), unfolding(crate::specs::Left::left_form))]
pub fn none_of<'n>(alloc: Global, inner: Left<'n>) -> Result<Left<'n>, Memory>
    ensures { IfOk result (λ left. (way : Way) → IsSame (left_form way left) (Not (left_form way inner.entry))) }
{
    match inner {
        Left::Never => Ok(Left::Anything),
        Left::Anything => Ok(Left::Never),
        Left::NoneOf(again) => Ok(Box::into_inner(again)),
        _ => Ok(Left::NoneOf(Box::new(alloc, inner)?)),
    }
}
