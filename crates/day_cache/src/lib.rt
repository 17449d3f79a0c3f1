//! The day cache: the codes of some three years kept at hand, over any amendable calendar.

#![tactic(auto)]

mod day_cache;
mod kept_days;
mod nibbles;

pub use day_cache::DayCache;
