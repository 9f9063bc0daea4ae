//! What is meant by a network of queue managers: its story, when that is lawful, the ledger, the
//! standing rows, conflicts, the order on a channel, and which logs belong together. Definitions
//! alone.
#![tactic(auto)]

pub mod below;
