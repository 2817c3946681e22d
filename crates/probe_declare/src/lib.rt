//! Requests on the declarations. No part of the product.
#![tactic(auto)]

mod arguments;
mod history;
mod literals;

pub use history::declares;
