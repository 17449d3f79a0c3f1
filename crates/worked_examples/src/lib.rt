//! Worked examples of the layers, as tests.

#![tactic(auto)]

#[cfg(test)]
mod amendment_examples;
#[cfg(test)]
mod bond_examples;
#[cfg(test)]
mod calendar_examples;
#[cfg(test)]
mod convention_examples;
#[cfg(test)]
mod date_examples;
#[cfg(test)]
mod rule_examples;
#[cfg(test)]
mod schedule_examples;
