//! The tables of the Package Manager Specification by EAPI: the EAPIs, the keys of a cache entry, the phase functions;
//! the line of an ebuild that names its EAPI; and the names of eclasses.
#![tactic(auto)]

mod eapi;
mod eclass_name;
mod key;
mod line;
mod phase;

pub use eapi::{Eapi, EapiUnknown, accumulates, has_key};
pub use eclass_name::is_eclass_name;
pub use key::Key;
pub use line::eapi_line;
pub use phase::{Phase, is_phase};
