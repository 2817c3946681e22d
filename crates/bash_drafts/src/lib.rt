//! Commands as they are read, before the bodies of their here-documents are known, and how the bodies are put into them.
//! Contracts see such a command as the tree that it becomes, with the bodies that it holds so far.
#![tactic(auto)]

mod bodies;
mod commands;
mod draft;
mod inner;
mod lists;
mod redirections;

pub use commands::filled_items;
pub use draft::{AndOrDraft, Draft, ItemDraft, JoinedDraft, PipeDraft, PipedDraft};
pub use inner::Inner;
