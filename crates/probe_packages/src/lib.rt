//! Requests on texts, digests, EAPIs, entries, versions and names. No part of the product.
#![tactic(auto)]

mod bytes;
mod eapis;
mod entries;
mod package_names;
mod versions;

pub use bytes::{digest, read_digest, signed, unquoted, unsigned, words};
pub use eapis::{eapi, key, phase, phases};
pub use entries::{entry, make};
pub use package_names::{form, names, paths};
pub use versions::{cut, rs, test, version};
