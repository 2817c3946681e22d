//! Requests on how the words of a script are read. No part of the product.
#![tactic(auto)]

mod lists;
mod words;

pub use words::word;
