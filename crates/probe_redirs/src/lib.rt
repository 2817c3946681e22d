//! Requests on how assignments, redirections, here-documents and regular expressions of a script are read. No part of the
//! product.
#![tactic(auto)]

mod ends;
mod here_documents;
mod readers;

pub use ends::{assign, mark, redir, redir_of, regex};
pub use here_documents::documents;
