//! Amendable calendars: what one is, and the amendment layer, which makes one of any calendar.

#![tactic(auto)]

mod amendable;
mod amendment;
mod entered;
mod layer;

pub use amendable::Amendable;
pub use amendment::Amendment;
pub use layer::AmendmentLayer;
