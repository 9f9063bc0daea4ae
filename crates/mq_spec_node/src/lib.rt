//! What is meant by one node: a queue manager with the ends of its channels, its handlers, monitors
//! and scripts; what each event does, and when a history replays. Definitions alone.
#![tactic(auto)]

pub mod below;
