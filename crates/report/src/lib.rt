//! From the bytes of an input to the text that is printed for it.

#![tactic(auto)]

mod entry;
mod printing;
mod session;

pub use session::{LONGEST_INPUT, report};
