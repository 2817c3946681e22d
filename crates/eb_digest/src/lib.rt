//! MD5 digests, and the 32 hexadecimal digits that write one.
#![tactic(auto)]

mod digest;

pub use digest::{Digest, NotDigest, digest_of};
