//! The text of the program: lines, entries, and what is printed.

#![tactic(auto)]

mod date_text;
mod fields;
mod line;
mod lines;
mod numeral;
mod scan;

pub use date_text::date_of;
pub use fields::entry_of;
pub use line::{LONGEST_LINE, Line};
pub use lines::Lines;
pub use numeral::number_of;
