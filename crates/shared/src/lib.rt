//! A pointer that several owners hold, and that contracts see as the value that it points to. So a tree that holds its
//! parts by it is plain data to a contract, and to hand a part on costs no copy.
#![tactic(auto)]

mod shared;

pub use shared::Shared;
