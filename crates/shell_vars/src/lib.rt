//! Shell variables: values, attributes, dynamic scope and subshells.
#![tactic(auto)]

mod attr;
mod binding;
mod calls;
mod change;
mod elements;
mod error;
mod frame;
mod kind;
pub mod laws;
mod names;
mod plan;
mod refused;
mod store;
mod value;
mod vars;

pub use attr::Attr;
pub use binding::Binding;
pub use elements::Elements;
pub use error::VarErr;
pub use kind::FrameKind;
pub use refused::is_refused;
pub use value::Value;
pub use vars::Vars;
