//! The ledger of a network's story: where each message is, by commits and name resolution alone.
#![tactic(auto)]

mod answers;
mod arriving;
pub mod below;
mod ledger;
mod messages;
mod opening;
mod posting;
mod posts;
mod reasons;
mod units;

pub use ledger::ledger_of;
