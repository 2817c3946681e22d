//! Requests on the braces of a word. No part of the product.
#![tactic(auto)]

mod lexeme;
mod request;
mod text;
mod word;

pub use request::{brace_count, braces};
