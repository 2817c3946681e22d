ghost use Rattle.std.specs.Prelude.{◌≡◌, [], IfOk};
ghost use Rattle.bash_patterns.specs.declared.way.Way.{Way};
ghost use Rattle.bash_patterns.specs.Facing.{facing, facing_form, grown, holds};
ghost use Rattle.bash_patterns.specs.Form.{form_of};
ghost use Rattle.bash_patterns.specs.Kept.{starts};
ghost use Rattle.bash_patterns.specs.Left.{IsAhead, left_form};

use crate::behind::behind;
use crate::left::Left;
use crate::node::Node;
use crate::way::{Goal, Way};
use eb_bytes::Memory;
use std::alloc::Global;

/// Walks the whole text with what is left of the node, and says for each place on the way, the one where the walk
/// begins first, whether the node can begin there.
///
/// # Errors
/// `Memory` where there is no room for the walk.
pub fn follow(
    alloc: Global,
    node: &Node,
    way: Way,
    text: &[u8],
    goal: Goal,
) -> Result<Vec<bool>, Memory>
    ensures { IfOk result (λ values. values.items ≡ grown (starts (facing_form way (form_of node.now)) (holds goal)) (facing way text.now)) }
{
    let mut values = Vec::new(alloc);
    let mut left = begun(alloc, node, goal)?;
    values.push(left.may_end())?;
    for count in 0..text.len() {
        left = behind(alloc, &left, way, way.byte(text, count))?;
        values.push(left.may_end())?;
    }
    Ok(values)
}

// What is left before the first byte.
#[tactic(auto, using(crate::proofs::Followed::begun_End, crate::proofs::Followed::begun_Anywhere), unfolding(crate::specs::Left::left_form))]
fn begun(alloc: Global, node: &Node, goal: Goal) -> Result<Left<'_>, Memory>
    ensures { IfOk result (λ left. (way : Way) → IsAhead (starts (facing_form way (form_of node.now)) (holds goal)) [] (left_form way left)) }
{
    match goal {
        Goal::End => Ok(Left::Whole(node)),
        Goal::Anywhere => Ok(Left::Then(Box::new(alloc, Left::Anything)?, node)),
    }
}
