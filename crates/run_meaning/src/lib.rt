//! What a script does: from the state in which it begins to how it ends. Its definitions are in specs/, and the laws
//! that hold of every run are the contracts of the functions of `laws`.
#![tactic(auto)]

pub mod laws;
