//! The payments of a bond that alter, written into a list that the caller lends.

#![tactic(auto)]

mod change;
mod revision;
mod turn;

pub use change::Change;
pub use revision::Revision;
pub use turn::Turn;
