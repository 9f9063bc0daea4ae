//! Tests of the scenario reader: whole texts, and the first line at fault with its cause.
#![tactic(auto)]

#[cfg(test)]
mod faults;
#[cfg(test)]
mod texts;
