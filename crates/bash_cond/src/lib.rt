//! Conditions (Bash Reference Manual, "Bash Conditional Expressions"): the operators of `[[ .. ]]`, and the words of
//! `test`.
#![tactic(auto)]

mod numbers;
mod one_operand;
mod operator;
mod patterns;
mod test_rules;
mod test_words;
mod two_operands;
mod value;

pub use numbers::{Numbers, compare_numbers};
pub use one_operand::text_test;
pub use operator::{FileRelation, Question, Relation, asks, is_before};
pub use patterns::{Match, matches};
pub use test_rules::test_args;
pub use two_operands::{Operands, binary};
pub use value::value_of;
