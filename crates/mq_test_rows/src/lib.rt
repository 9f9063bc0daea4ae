//! Tests of the lowest layers, a file for each crate: lists, names, descriptors and headers, queues, codes, dates, objects and
//! name resolution.
#![tactic(auto)]

#[cfg(test)]
mod base;
#[cfg(test)]
mod clock;
#[cfg(test)]
mod codes;
#[cfg(test)]
mod fixture;
#[cfg(test)]
mod heads;
#[cfg(test)]
mod indexed;
#[cfg(test)]
mod message;
#[cfg(test)]
mod name;
#[cfg(test)]
mod objects;
#[cfg(test)]
mod queue;
#[cfg(test)]
mod resolve;
