//! Names of categories, packages and USE flags, and what the path of an ebuild gives.
#![tactic(auto)]

mod form;
pub mod laws;
mod path;

pub use form::{is_category, is_flag, is_package};
pub use path::{EbuildPath, NameErr, NameKind, Names, bad_kind, read_path};
