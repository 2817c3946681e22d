//! Requests on the options of a shell. No part of the product.
#![tactic(auto)]

mod given;
mod set_request;
mod shopt_request;

pub use set_request::set;
pub use shopt_request::shopt;
