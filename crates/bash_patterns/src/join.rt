ghost use Rattle.std.specs.Prelude.{◌≡◌, ◌-◌, ◌≤◌, [], drop, length, take, IfOk, OnOk};
ghost use Rattle.bash_patterns.specs.Joining.{joined, language, languages, paired};

use crate::node::Node;
use eb_bytes::Memory;
use std::alloc::Global;

/// How trees are joined.
#[derive(Clone, Copy)]
pub enum Join {
    /// One after the other.
    Row,
    /// One or the other.
    Choice,
}

/// The last so many of these trees, joined to one whose depth grows with the logarithm of their number.
///
/// # Errors
/// `Memory` where there is no room for it.
pub fn join_last(
    alloc: Global,
    how: Join,
    nodes: &mut Vec<Node>,
    count: usize,
) -> Result<Node, Memory>
    requires { count ≤ length nodes.old.items }
    ensures node { IfOk result (λ node. language node ≡ joined how (drop (length nodes.old.items - count) (languages nodes.old.items))) }
    ensures rest { OnOk result (nodes.new.items ≡ take (length nodes.old.items - count) nodes.old.items) }
{
    if count == 0 {
        let node = none_of(alloc, how)?;
        return Ok(node);
    }
    if count == 1 {
        return match nodes.pop() {
            Some(node) => Ok(node),
            None => Ok(Node::Nothing),
        };
    }
    let half = count / 2;
    let second = join_last(alloc, how, nodes, half)?;
    let first = join_last(alloc, how, nodes, count - half)?;
    let node = pair(alloc, how, first, second)?;
    Ok(node)
}

// No trees, joined.
#[tactic(auto, unfolding(crate::specs::Joining::language, crate::specs::Joining::joined, crate::specs::Form::form_of, crate::specs::Matching::matches))]
fn none_of(alloc: Global, how: Join) -> Result<Node, Memory>
    ensures { IfOk result (λ node. language node ≡ joined how []) }
{
    match how {
        Join::Row => Ok(Node::Nothing),
        Join::Choice => Ok(Node::NoneOf(Box::new(alloc, Node::AnyText)?)),
    }
}

#[tactic(auto, unfolding(crate::specs::Joining::language, crate::specs::Joining::joined, crate::specs::Form::form_of, crate::specs::Matching::matches))]
fn pair(alloc: Global, how: Join, first: Node, second: Node) -> Result<Node, Memory>
    ensures { IfOk result (λ node. language node ≡ paired how (language first) (language second)) }
{
    let first = Box::new(alloc, first)?;
    let second = Box::new(alloc, second)?;
    match how {
        Join::Row => Ok(Node::Then(first, second)),
        Join::Choice => Ok(Node::Either(first, second)),
    }
}
