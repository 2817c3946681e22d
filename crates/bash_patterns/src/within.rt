ghost use Rattle.std.specs.Prelude.{◌≡◌, true};
ghost use Rattle.bash_patterns.specs.declared.way.Way.{Way};
ghost use Rattle.bash_patterns.specs.Left.{IsWithin, any_form, left_form};

use crate::left::Left;

impl<'n> Left<'n> {
    /// Whether it is seen that all that matches this matches the other too.
    #[cycle(within)]
    #[tactic(auto, using(crate::proofs::Combined::within_never, crate::proofs::Combined::within_all, crate::proofs::Combined::within_itself, crate::proofs::Combined::within_Choice, crate::proofs::Combined::within_first, crate::proofs::Combined::within_second, crate::proofs::Combined::within_Both, crate::proofs::Combined::within_Not), unfolding(crate::specs::Left::left_form))]
    pub fn is_within(&self, other: &Left<'n>) -> bool
        ensures { result ≡ true → (way : Way) → IsWithin (left_form way self.now) (left_form way other.now) }
    {
        match self {
            Left::Never => true,
            Left::Either(first, second) => first.is_within(other) && second.is_within(other),
            _ => match other {
                Left::Anything => true,
                Left::Either(first, second) => self.is_within(first) || self.is_within(second),
                _ => self.is_part(other),
            },
        }
    }

    // The same of two that have no alternatives. What is left is compared before the trees after it, which are larger.
    #[cycle(within)]
    #[tactic(auto, using(crate::proofs::Combined::within_never, crate::proofs::Combined::within_all, crate::proofs::Combined::within_itself, crate::proofs::Combined::within_Choice, crate::proofs::Combined::within_first, crate::proofs::Combined::within_second, crate::proofs::Combined::within_Both, crate::proofs::Combined::within_Not), unfolding(crate::specs::Left::left_form))]
    fn is_part(&self, other: &Left<'n>) -> bool
        ensures { result ≡ true → (way : Way) → IsWithin (left_form way self.now) (left_form way other.now) }
    {
        match (self, other) {
            (Left::Nothing, Left::Nothing) => true,
            (Left::Whole(node), Left::Whole(another)) => node.compare(another).is_eq(),
            (Left::Then(first, node), Left::Then(second, another)) => first.is_within(second)
                && node.compare(another).is_eq(),
            (Left::Repeated(first, node), Left::Repeated(second, another)) => first.is_within(
                second,
            ) && node.compare(another).is_eq(),
            (Left::NoneOf(inner), Left::NoneOf(another)) => another.is_within(inner),
            _ => false,
        }
    }

    /// Whether it is seen that all that matches this matches one of the others too.
    pub fn is_within_one(&self, others: &[Left<'n>]) -> bool
        ensures { result ≡ true → (way : Way) → IsWithin (left_form way self.now) (any_form way others.now) }
    {
        match others {
            [] => false,
            [other, more @ ..] => self.is_within(other) || self.is_within_one(more),
        }
    }
}
