//! Holiday calendars: each gives every day one code, 0 where the day is good, else the layer that closes it.

#![tactic(auto)]

mod calendar;
mod code;
mod easter_offset;
mod good_days;
mod joint;
mod layer;
mod listed;
mod month_day;
mod rule;
mod target_days;
mod weekly;

pub use calendar::Calendar;
pub use code::Code;
pub use easter_offset::{EasterOffset, EasterRule};
pub use good_days::is_good_day;
pub use joint::Joint;
pub use layer::Layer;
pub use listed::Listed;
pub use month_day::{MonthDay, Yearly};
pub use rule::{Entry, Rule};
pub use target_days::{Target, target_calendar};
pub use weekly::Weekly;
