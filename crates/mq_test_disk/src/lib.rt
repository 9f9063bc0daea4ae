//! Tests of disks and of the forced log, a file for each crate.
#![tactic(auto)]

#[cfg(test)]
mod disk;
#[cfg(test)]
mod log;
