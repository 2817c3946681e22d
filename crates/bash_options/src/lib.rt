//! The options of a shell (Bash Reference Manual, "Modifying Shell Behavior"): `shopt`, and the options of `set`.
#![tactic(auto)]

mod refused;
mod set_builtin;
mod shopt_builtin;
mod shopt_words;

#[doc(hidden)]
pub use set_builtin::Job as SetJob;
pub use set_builtin::set_options;
pub use shopt_builtin::shopt;
#[doc(hidden)]
pub use shopt_words::{Asked, Job, Wrong};
