//! Requests on what is open while a script runs: arguments, loops, inputs and outputs. No part of the product.
#![tactic(auto)]

mod history;
mod openings;
mod redirections;
mod values;

pub use history::calls;
