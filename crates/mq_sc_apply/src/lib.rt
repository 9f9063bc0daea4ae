//! What a command on objects does at a manager: what refuses it, the change that it makes, the lines
//! that it shows.
#![tactic(auto)]

mod answers;
pub mod below;
mod changes;
mod command;
mod display;
mod in_use;
mod plans;

pub use answers::{Plan, Planned};
pub use changes::same_delivery;
pub use command::{apply, plan};
pub use in_use::InUse;
pub use plans::defined_object;
