//! Refusals by origin: each case has one number and names the values that a caller needs to find the cause.

#![tactic(auto)]

mod family;
mod origins;

pub use origins::{CalendarFault, Fault, GenerationFault, RollAt, SheetFault, TextFault};
