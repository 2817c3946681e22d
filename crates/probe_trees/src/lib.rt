//! Requests on what is read of a script: quoting, trees and functions; and on the faults of one. No part of the
//! product.
#![tactic(auto)]

mod faults;
mod functions;
mod quoting;
mod trees;

pub use faults::fault;
pub use functions::funcs;
pub use quoting::{ansi, ansi_expanded};
pub use trees::share;
