//! Records of any kind kept by rising key; the caller lends the places for each call.

#![tactic(auto)]

mod keyed;
mod table;

pub use keyed::Keyed;
pub use table::{find, insert, remove, replace};
