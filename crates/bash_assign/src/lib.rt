//! Assignments, once they are expanded: a value given to a variable, a text to an element, the array of a literal, and
//! what is bound before a command; each as a part of a run.
#![tactic(auto)]

mod assignment;
mod literal;
mod values;

pub use assignment::{Assignment, Given, give, value_given};
pub use literal::Element;
pub use values::{assign, set};
