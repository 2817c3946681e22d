//! A host over scripts in memory, each of which is a command by its name: for tests of what runs over any host. No part of
//! the product.
#![tactic(auto)]

mod host;
mod scripts;

pub use host::ScriptHost;
pub use scripts::{Script, Scripts};
