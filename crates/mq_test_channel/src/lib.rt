//! Tests of the layers of a channel, a file for each crate.
#![tactic(auto)]

#[cfg(test)]
mod cable;
#[cfg(test)]
mod fixture;
#[cfg(test)]
mod frame;
#[cfg(test)]
mod pair;
#[cfg(test)]
mod receiver;
#[cfg(test)]
mod sender;
#[cfg(test)]
mod sync;
