//! Days since 1 January 1900, civil dates, months, weekdays and Easter, from 1900 to 2199.

#![tactic(auto)]

mod civil_date;
mod conversion;
mod day;
mod easter;
mod easter_table;
mod gregorian;
mod month;
mod weekday;

pub use civil_date::CivilDate;
pub use day::{Day, LAST_DAY};
pub use easter::easter_sunday;
pub use gregorian::is_leap;
pub use month::{Month, MonthPlace};
pub use weekday::Weekday;
