//! What a tree of files and an output do at each call, and both in memory, with failures that are asked for.
#![tactic(auto)]

mod call;
mod faults;
mod mem_sink;
mod mem_tree;
mod path;
mod plan;
mod sink;
mod store;
mod tree;

pub use call::{Call, CallKind, Left};
pub use faults::Faults;
pub use mem_sink::MemSink;
pub use mem_tree::MemTree;
pub use path::Path;
pub use sink::{Sink, SinkErr};
pub use tree::{Tree, TreeErr};
