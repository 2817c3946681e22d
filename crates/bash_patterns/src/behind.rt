ghost use Rattle.std.specs.Prelude.{◌≡◌, IfOk};
ghost use Rattle.bash_patterns.specs.Form.{Both, form_of};
ghost use Rattle.bash_patterns.specs.Left.{IsBehind, left_form, met, next_form};

use crate::combine::{Next, either, none_of, then};
use crate::left::Left;
use crate::node::Node;
use crate::way::Way;
use eb_bytes::Memory;
use std::alloc::Global;

/// What is left of a tree after a byte, for a walk that comes to the tree's bytes this way.
///
/// # Errors
/// `Memory` where there is no room for it.
#[cycle(behind_node)]
#[tactic(auto, using(crate::proofs::Derived::behind_Empty, crate::proofs::Derived::behind_passed, crate::proofs::Derived::behind_failed, crate::proofs::Derived::behind_Whatever, crate::proofs::Derived::behind_back, crate::proofs::Derived::behind_forth, crate::proofs::Derived::behind_Choice, crate::proofs::Derived::behind_AtMostOnce, crate::proofs::Derived::behind_AnyTimes, crate::proofs::Derived::behind_OnceOrMore, crate::proofs::Derived::behind_Not), unfolding(crate::specs::Left::left_form, crate::specs::Form::form_of))]
pub fn behind_node<'n>(
    alloc: Global,
    node: &'n Node,
    way: Way,
    byte: u8,
) -> Result<Left<'n>, Memory>
    ensures { IfOk result (λ left. IsBehind byte (met way (form_of node.now)) (left_form way left)) }
{
    match node {
        Node::Nothing => Ok(Left::Never),
        Node::One(test) => Ok(if test.passes(byte) {
            Left::Nothing
        } else {
            Left::Never
        }),
        Node::AnyText => Ok(Left::Anything),
        Node::Then(first, second) => match way {
            Way::Backward => behind_both(alloc, second, first, way, byte),
            Way::Forward => behind_both(alloc, first, second, way, byte),
        },
        Node::Either(first, second) => {
            let near = behind_node(alloc, first, way, byte)?;
            let far = behind_node(alloc, second, way, byte)?;
            either(alloc, near, far)
        }
        Node::Optional(inner) => behind_node(alloc, inner, way, byte),
        Node::ZeroOrMore(inner) | Node::OneOrMore(inner) => {
            let first = behind_node(alloc, inner, way, byte)?;
            then(alloc, first, Next::AnyTimes(inner))
        }
        Node::NoneOf(inner) => {
            let left = behind_node(alloc, inner, way, byte)?;
            none_of(alloc, left)
        }
    }
}

// The same of two trees, one after the other.
#[cycle(behind_node)]
#[tactic(auto, using(crate::proofs::Derived::left_closed, crate::proofs::Derived::left_open, crate::proofs::Derived::met_empty), unfolding(crate::specs::Left::left_form, crate::specs::Form::form_of))]
fn behind_both<'n>(
    alloc: Global,
    near: &'n Node,
    far: &'n Node,
    way: Way,
    byte: u8,
) -> Result<Left<'n>, Memory>
    ensures { IfOk result (λ left. IsBehind byte (Both (met way (form_of near.now)) (met way (form_of far.now))) (left_form way left)) }
{
    let first = behind_node(alloc, near, way, byte)?;
    let both = then(alloc, first, Next::Once(far))?;
    if !near.may_end() {
        return Ok(both);
    }
    let second = behind_node(alloc, far, way, byte)?;
    either(alloc, both, second)
}

/// What is left after a byte of what was left before it.
///
/// # Errors
/// `Memory` where there is no room for it.
#[cycle(behind)]
#[tactic(auto, using(crate::proofs::Derived::left_Choice, crate::proofs::Derived::left_Not, crate::proofs::Derived::left_never, crate::proofs::Derived::left_Empty, crate::proofs::Derived::left_Whatever), unfolding(crate::specs::Left::left_form, crate::specs::Form::form_of))]
pub fn behind<'n>(alloc: Global, left: &Left<'n>, way: Way, byte: u8) -> Result<Left<'n>, Memory>
    ensures { IfOk result (λ rest. IsBehind byte (left_form way left.now) (left_form way rest)) }
{
    match left {
        Left::Never | Left::Nothing => Ok(Left::Never),
        Left::Anything => Ok(Left::Anything),
        Left::Whole(node) => behind_node(alloc, node, way, byte),
        Left::Then(first, second) => behind_rest(alloc, first, Next::Once(second), way, byte),
        Left::Repeated(first, node) => behind_rest(alloc, first, Next::AnyTimes(node), way, byte),
        Left::Either(first, second) => {
            let near = behind(alloc, first, way, byte)?;
            let far = behind(alloc, second, way, byte)?;
            either(alloc, near, far)
        }
        Left::NoneOf(inner) => {
            let rest = behind(alloc, inner, way, byte)?;
            none_of(alloc, rest)
        }
    }
}

// The same of what is left of one tree, with another after it.
#[cycle(behind)]
#[tactic(auto, using(crate::proofs::Derived::left_closed, crate::proofs::Derived::left_open), unfolding(crate::specs::Left::left_form))]
fn behind_rest<'n>(
    alloc: Global,
    first: &Left<'n>,
    next: Next<'n>,
    way: Way,
    byte: u8,
) -> Result<Left<'n>, Memory>
    ensures { IfOk result (λ left. IsBehind byte (Both (left_form way first.now) (next_form way next.entry)) (left_form way left)) }
{
    let rest = behind(alloc, first, way, byte)?;
    let both = then(alloc, rest, next)?;
    if !first.may_end() {
        return Ok(both);
    }
    let again = behind_next(alloc, next, way, byte)?;
    either(alloc, both, again)
}

// What is left after a byte of a tree that comes next.
#[tactic(auto, using(crate::proofs::Derived::left_AnyTimes), unfolding(crate::specs::Left::left_form))]
fn behind_next<'n>(alloc: Global, next: Next<'n>, way: Way, byte: u8) -> Result<Left<'n>, Memory>
    ensures { IfOk result (λ left. IsBehind byte (next_form way next.entry) (left_form way left)) }
{
    match next {
        Next::Once(node) => behind_node(alloc, node, way, byte),
        Next::AnyTimes(node) => {
            let first = behind_node(alloc, node, way, byte)?;
            then(alloc, first, next)
        }
    }
}
