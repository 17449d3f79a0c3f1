//! A calendar and a convention of one's own, as docs/EXTENDING.md shows them, under a sheet that knows neither.

#![tactic(auto)]

mod closed_season;
mod next_day;
#[cfg(test)]
mod own_sheets;

pub use closed_season::ClosedSeason;
pub use next_day::NextDay;
