ghost use Rattle.std.specs.Prelude.{◌≡◌};
ghost use Rattle.bash_patterns.specs.Form.{form_of};
ghost use Rattle.bash_patterns.specs.Walk.{is_plain};

use crate::test::Test;

/// A pattern as a tree.
#[derive(Drop)]
pub enum Node {
    Nothing,
    One(Test),
    AnyText,
    Then(Box<Node>, Box<Node>),
    Either(Box<Node>, Box<Node>),
    Optional(Box<Node>),
    ZeroOrMore(Box<Node>),
    OneOrMore(Box<Node>),
    NoneOf(Box<Node>),
}

impl Node {
    /// Whether no part of the tree is what does not match another.
    #[tactic(auto, unfolding(crate::specs::Form::form_of))]
    pub fn is_plain(&self) -> bool
        ensures { result ≡ is_plain (form_of self.now) }
    {
        match self {
            Node::Nothing | Node::One(_) | Node::AnyText => true,
            Node::Then(first, second) | Node::Either(first, second) => first.is_plain()
                && second.is_plain(),
            Node::Optional(inner) | Node::ZeroOrMore(inner) | Node::OneOrMore(inner) =>
                inner.is_plain(),
            Node::NoneOf(_) => false,
        }
    }
}
