//! Bonds: their terms, the unadjusted rolls that these give, and amounts of interest.

#![tactic(auto)]

mod amounts;
mod bond;
mod checks;
mod regular_dates;
mod rolls;
mod shifts;
mod stub;
mod terms;

pub use bond::Bond;
pub use rolls::Rolls;
pub use stub::{Stub, UnknownStub};
pub use terms::Terms;
