//! Examples of the standing sheet, as tests: its room, its readings, its notices and its refusals.

#![tactic(auto)]

#[cfg(test)]
mod bench;
#[cfg(test)]
mod good_friday;
#[cfg(test)]
mod lines;
#[cfg(test)]
mod notice_examples;
#[cfg(test)]
mod notice_refusals;
#[cfg(test)]
mod reading_examples;
#[cfg(test)]
mod refusal_examples;
#[cfg(test)]
mod room_examples;
#[cfg(test)]
mod run_examples;
#[cfg(test)]
mod sheets;
