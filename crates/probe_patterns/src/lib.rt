//! Requests on patterns, on the operators of `${..}`, and on word splitting. No part of the product.
#![tactic(auto)]

mod operators;
mod patterns;
mod splits;

pub use operators::{operate, parameters, slice, substring};
pub use patterns::{Search, find};
pub use splits::split;
