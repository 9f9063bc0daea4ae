//! Recovery: the image that the bodies of a log tell.
#![tactic(auto)]

pub mod below;
mod bounds;
mod kept;
mod named;
mod objects;
mod receivers;
mod recovering;
mod recovery;
mod senders;
mod sides;
mod start;
mod steps;
mod strikes;

pub use recovering::Recovering;
pub use recovery::{RecoverFault, begins, image, walk_on};
pub use start::Start;
