//! What a script acts on, and what ends its run: faults, the state, outcomes and their order, steps, what is open, and
//! what a command of the host does.
#![tactic(auto)]

mod captures;
mod fault;
mod io;
pub mod laws;
mod opened;
mod opts;
mod spending;
mod stop;
mod text;

pub use captures::Captures;
pub use fault::Fault;
pub use io::{Io, Target};
pub use opened::Opened;
pub use opts::Opts;
pub use spending::{spend, text_cost};
pub use stop::Stop;
pub use text::fault_text;
