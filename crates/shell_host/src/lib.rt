//! The host of a script: the commands that come from outside of the shell, as `inherit`, and what a shell without any
//! has.
#![tactic(auto)]

mod ctx;
mod host;
mod no_host;

pub use ctx::Ctx;
pub use host::{Host, HostCall, HostStep};
pub use no_host::NoHost;
