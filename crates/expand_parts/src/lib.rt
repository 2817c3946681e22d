//! What each part of a word comes to: marks, a level that is opened, or commands that are run (Bash Reference Manual,
//! "Shell Expansions").
#![tactic(auto)]

mod dollars;
mod leaves;
mod level;
mod next;
mod operators;
mod refer;
mod references;
mod scene;

pub use dollars::{found_act, pointed_act, pointed_to, shown_act};
pub use level::{Act, Level, Parts, Target, Use};
pub use next::{Next, take_next};
pub use scene::Scene;
