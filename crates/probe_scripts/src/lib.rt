//! Requests on scripts, and on conditions with one operand. No part of the product.
#![tactic(auto)]

mod conditions;
mod scripts;

pub use conditions::condition;
pub use scripts::parse;
