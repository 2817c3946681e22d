//! Requests on shell variables, and on arithmetic expressions over them; the variables of other requests. No part of the
//! product.
#![tactic(auto)]

mod arithmetic;
mod fields;
mod known;
mod place;
mod variables;

pub use arithmetic::{arith, read};
pub use fields::{before_set, read_limit};
pub use known::Known;
pub use variables::vars;
