//! What a network's ledger keeps: rows by manager and queue, who is connected with what open and what pending, and what
//! is gone.
#![tactic(auto)]

mod accounts;
mod books;
mod caller;
mod callers;
mod gone;
mod handles;
mod no_use;

pub use accounts::Account;
pub use books::{Books, Halted, User};
pub use caller::Caller;
