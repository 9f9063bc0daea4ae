//! Tests of records: each kind as the format's table lays it out, bodies that are none, and what a log of them tells.
#![tactic(auto)]

#[cfg(test)]
mod fields;
#[cfg(test)]
mod logs;
#[cfg(test)]
mod reading;
#[cfg(test)]
mod recovery;
#[cfg(test)]
mod samples;
#[cfg(test)]
mod writing;
