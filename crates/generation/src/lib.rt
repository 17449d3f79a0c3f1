//! From a bond's rolls to adjusted days, fixings and payments, over any calendar and any convention.

#![tactic(auto)]

mod fixing;
mod footing;
mod generating;
mod payment;
mod roll;
mod schedule;
mod worked_cases;

pub use fixing::fixing_before;
pub use footing::{Footing, footing_of};
pub use generating::{bond_roll, generate};
pub use payment::Payment;
pub use roll::Roll;
pub use schedule::Schedule;
pub use worked_cases::worked_cases_hold;
