//! The standing sheet: live bonds with their schedules, over one amendable calendar and one convention.

#![tactic(auto)]

mod call;
mod plan;
mod run;
mod sheet;

pub use call::{Answer, Call, Counts};
pub use run::{Outcome, Run, make_calls};
pub use sheet::Sheet;
