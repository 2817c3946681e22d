//! Requests on conditions: the words of `test`, and the operators of `[[ .. ]]`. No part of the product.
#![tactic(auto)]

mod operators;
mod stops;
mod words;

pub use operators::{binary, unary};
pub use stops::put_stop;
pub use words::truth;
