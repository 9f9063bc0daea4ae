//! What turns of channel ends are made of: calls of a manager as parts of a turn, what passes on a wire, how a turn is closed; and a
//! sender's timeout.
#![tactic(auto)]

pub mod below;
mod binding;
mod parting;
mod passing;
mod telling;
mod timing;

pub use binding::unbind;
pub use parting::{
    expired, hardened, has_run, is_commit, is_up, leave_if, leave_in, nothing_done, ran, released,
    stopped,
};
pub use passing::{has_spelling, pass};
pub use telling::{Passed, Turn, close_turn, end_turn, keep_end};
pub use timing::timeout;
