//! What a reference to a parameter finds (Bash Reference Manual, "Shell Parameters", "Special Parameters", "Arrays").
#![tactic(auto)]

mod found;
mod lookup;
mod named;

pub use found::{Found, Place, Source};
pub use lookup::{array, element, number, positional, special, variable};
pub use named::{first_of_ifs, home, ifs, value_named};
