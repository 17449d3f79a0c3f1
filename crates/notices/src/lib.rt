//! Notices that amend a calendar, and the calendar as it would be.

#![tactic(auto)]

mod amending;
mod notice;
mod trial;

pub use amending::{amend, check_notice};
pub use calendars::Code;
pub use notice::Notice;
pub use trial::Trial;
