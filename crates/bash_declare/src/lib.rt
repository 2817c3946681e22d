//! The declarations: `declare`, `typeset`, `local`, `export` and `readonly` (Bash Reference Manual, "Bash Builtin
//! Commands").
#![tactic(auto)]

mod argument;
mod declarations;
mod effects;
mod options;
mod shown;

pub use argument::{Argument, Declaration};
pub use declarations::declare;
#[doc(hidden)]
pub use effects::Place;
#[doc(hidden)]
pub use options::{Options, Unknown};
