//! What every request of the probe stands on: how a line is cut into fields, how texts and marks are read, and how an
//! answer is written. No part of the product.
#![tactic(auto)]

mod answer;
mod fault;
mod marks;
mod text;
mod token;

pub use answer::{Answer, Style};
pub use fault::Fault;
pub use marks::read_marks;
pub use text::{read_text, read_texts};
pub use token::{End, cut, parts, split_before};
