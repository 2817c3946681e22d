//! Versions of packages, their order, and the version functions of EAPI 7.
#![tactic(auto)]

mod class;
mod compare;
mod cut;
mod error;
mod kind;
pub mod laws;
mod number;
mod operator;
mod pieces;
mod range;
mod read;
mod replace;

pub use compare::{compare_versions, ver_test};
pub use cut::ver_cut;
pub use error::VerErr;
pub use kind::SuffixKind;
pub use read::read_version;
pub use replace::ver_rs;
