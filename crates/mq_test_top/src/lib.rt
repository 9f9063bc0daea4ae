//! Tests of the program's call: each status by its cause, the worked turns of a channel, phases in threads.
#![tactic(auto)]

#[cfg(test)]
mod channels;
#[cfg(test)]
mod fixture;
#[cfg(test)]
mod phases;
#[cfg(test)]
mod statuses;
