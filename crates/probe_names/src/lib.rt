//! Requests on the names of builtins. No part of the product.
#![tactic(auto)]

mod builtins;

pub use builtins::builtin;
