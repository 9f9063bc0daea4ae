//! What the report of a run prints of replies, and of how queues, channels and the ledger stand at the end.
#![tactic(auto)]

mod replies;
mod standing;
mod stands;
mod writing;

pub use replies::{put_act, put_displayed, put_line};
pub use standing::{
    CableStanding, ManagerStanding, QueueStanding, ReceiverStanding, SenderStanding, Standing,
};
pub use stands::{put_cables, put_ledger, put_managers};
pub use writing::{Text, put, put_ident, put_number, put_number4, put_unit, put_word};
