ghost use Rattle.std.specs.Prelude.{◌≡◌};
ghost use Rattle.std.specs.declared.cmp.Ordering.TheVariants.{Equal};
ghost use Rattle.bash_patterns.specs.declared.way.Way.{Way};
ghost use Rattle.bash_patterns.specs.Form.{form_of};
ghost use Rattle.bash_patterns.specs.Left.{left_form};

use crate::bracket::Bracket;
use crate::left::Left;
use crate::node::Node;
use crate::test::Test;
use std::cmp::Ordering;

// An order of trees. Which comes first counts for nothing; only equal ones must be found, and never two that differ.

impl<'n> Left<'n> {
    /// The order of what is left. What is left of trees is compared before the trees after them, which are larger.
    #[tactic(auto, unfolding(crate::specs::Left::left_form))]
    pub fn compare(&self, other: &Left<'n>) -> Ordering
        ensures { result ≡ Equal → (way : Way) → left_form way self.now ≡ left_form way other.now }
    {
        match (self, other) {
            (Left::Never, Left::Never)
            | (Left::Nothing, Left::Nothing)
            | (Left::Anything, Left::Anything) => Ordering::Equal,
            (Left::Whole(node), Left::Whole(another)) => node.compare(another),
            (Left::Then(first, node), Left::Then(second, another))
            | (Left::Repeated(first, node), Left::Repeated(second, another)) => match first.compare(
                second,
            ) {
                Ordering::Equal => node.compare(another),
                order => order,
            },
            (Left::Either(near, far), Left::Either(first, second)) => match near.compare(first) {
                Ordering::Equal => far.compare(second),
                order => order,
            },
            (Left::NoneOf(inner), Left::NoneOf(another)) => inner.compare(another),
            _ => by_rank(self.rank(), other.rank()),
        }
    }

    // The place of its kind among the kinds.
    fn rank(&self) -> u8 {
        match self {
            Left::Never => 0,
            Left::Nothing => 1,
            Left::Anything => 2,
            Left::Whole(_) => 3,
            Left::Then(_, _) => 4,
            Left::Repeated(_, _) => 5,
            Left::Either(_, _) => 6,
            Left::NoneOf(_) => 7,
        }
    }
}

impl Node {
    /// The order of trees.
    #[tactic(auto, unfolding(crate::specs::Form::form_of))]
    pub fn compare(&self, other: &Node) -> Ordering
        ensures { result ≡ Equal → form_of self.now ≡ form_of other.now }
    {
        match (self, other) {
            (Node::Nothing, Node::Nothing) | (Node::AnyText, Node::AnyText) => Ordering::Equal,
            (Node::One(test), Node::One(another)) => test.compare(another),
            (Node::Then(first, second), Node::Then(third, fourth))
            | (Node::Either(first, second), Node::Either(third, fourth)) => match first.compare(
                third,
            ) {
                Ordering::Equal => second.compare(fourth),
                order => order,
            },
            (Node::Optional(inner), Node::Optional(another))
            | (Node::ZeroOrMore(inner), Node::ZeroOrMore(another))
            | (Node::OneOrMore(inner), Node::OneOrMore(another))
            | (Node::NoneOf(inner), Node::NoneOf(another)) => inner.compare(another),
            _ => by_rank(self.rank(), other.rank()),
        }
    }

    // The place of its kind among the kinds.
    fn rank(&self) -> u8 {
        match self {
            Node::Nothing => 0,
            Node::One(_) => 1,
            Node::AnyText => 2,
            Node::Then(_, _) => 3,
            Node::Either(_, _) => 4,
            Node::Optional(_) => 5,
            Node::ZeroOrMore(_) => 6,
            Node::OneOrMore(_) => 7,
            Node::NoneOf(_) => 8,
        }
    }
}

impl Test {
    /// The order of tests.
    pub fn compare(&self, other: &Test) -> Ordering
        ensures { result ≡ Equal → self.now ≡ other.now }
    {
        match (self, other) {
            (Test::Byte(byte), Test::Byte(another)) => byte.cmp(another),
            (Test::Any, Test::Any) => Ordering::Equal,
            (Test::Bracket(bracket), Test::Bracket(another)) => bracket.compare(another),
            _ => by_rank(self.rank(), other.rank()),
        }
    }

    // The place of its kind among the kinds.
    fn rank(&self) -> u8 {
        match self {
            Test::Byte(_) => 0,
            Test::Any => 1,
            Test::Bracket(_) => 2,
        }
    }
}

impl Bracket {
    /// The order of bracket expressions.
    pub fn compare(&self, other: &Bracket) -> Ordering
        ensures { result ≡ Equal → self.now ≡ other.now }
    {
        if self.negated != other.negated {
            return by_rank(self.negated as u8, other.negated as u8);
        }
        self.members.compare(&other.members)
    }
}

// The order of two that differ.
fn by_rank(rank: u8, other: u8) -> Ordering
    ensures { result ≡ Equal → ⊥ }
{
    if rank < other {
        Ordering::Less
    } else {
        Ordering::Greater
    }
}
