//! Requests on the builtins `echo`, `printf` and `read`. No part of the product.
#![tactic(auto)]

mod capture;
mod printing;
mod reading;

pub use printing::{echo, printf};
pub use reading::reads;
