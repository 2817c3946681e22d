ghost use Rattle.std.specs.Prelude.{◌≡◌, []};
ghost use Rattle.bash_patterns.specs.declared.way.Way.{Way};
ghost use Rattle.bash_patterns.specs.Form.{form_of};
ghost use Rattle.bash_patterns.specs.Left.{left_form};
ghost use Rattle.bash_patterns.specs.Matching.{matches};

use crate::node::Node;

/// What is left of a tree after the bytes that a walk has passed. What the walk has not come to yet is borrowed
/// from the tree.
#[derive(Drop)]
pub enum Left<'n> {
    /// What no text matches.
    Never,
    /// The empty text.
    Nothing,
    /// Any text.
    Anything,
    /// A tree that the walk has not begun.
    Whole(&'n Node),
    /// What is left of one tree, and another after it.
    Then(Box<Left<'n>>, &'n Node),
    /// What is left of one tree, and another any number of times after it.
    Repeated(Box<Left<'n>>, &'n Node),
    /// One or the other.
    Either(Box<Left<'n>>, Box<Left<'n>>),
    /// What does not match.
    NoneOf(Box<Left<'n>>),
}

impl<'n> Left<'n> {
    /// Whether it is no tree of alternatives.
    pub fn is_one(&self) -> bool {
        !matches!(self, Left::Either(_, _))
    }

    /// Whether the empty text matches.
    #[tactic(auto, using(crate::proofs::Derived::met_empty, crate::proofs::Derived::and_none), unfolding(crate::specs::Left::left_form, crate::specs::Matching::matches))]
    pub fn may_end(&self) -> bool
        ensures { (way : Way) → result ≡ matches (left_form way self.now) [] }
    {
        match self {
            Left::Never => false,
            Left::Nothing | Left::Anything => true,
            Left::Whole(node) => node.may_end(),
            Left::Then(first, second) => first.may_end() && second.may_end(),
            Left::Repeated(first, _) => first.may_end(),
            Left::Either(first, second) => first.may_end() || second.may_end(),
            Left::NoneOf(inner) => !inner.may_end(),
        }
    }
}

impl Node {
    /// Whether the node matches the empty text.
    #[tactic(auto, using(crate::proofs::Derived::and_none), unfolding(crate::specs::Form::form_of, crate::specs::Matching::matches))]
    pub fn may_end(&self) -> bool
        ensures { result ≡ matches (form_of self.now) [] }
    {
        match self {
            Node::Nothing | Node::AnyText | Node::Optional(_) | Node::ZeroOrMore(_) => true,
            Node::One(_) => false,
            Node::Then(first, second) => first.may_end() && second.may_end(),
            Node::Either(first, second) => first.may_end() || second.may_end(),
            Node::OneOrMore(inner) => inner.may_end(),
            Node::NoneOf(inner) => !inner.may_end(),
        }
    }
}
