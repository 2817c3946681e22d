//! What stands after a parameter's name in `${..}` (Bash Reference Manual, "Shell Parameter Expansion"): strips,
//! replacements, changes of case, substrings and slices, on texts and elements.
#![tactic(auto)]

mod case;
mod cost;
mod cuts;
mod error;
mod operator;
mod part;
mod replacement;
mod slices;
mod stripping;

pub use case::change_case;
pub use cost::{match_cost, replace_cost};
pub use cuts::substring;
pub use error::ParamErr;
pub use operator::{CaseOp, Replace, Strip};
pub use replacement::replace;
pub use slices::{slice, slice_parameters};
pub use stripping::strip;
