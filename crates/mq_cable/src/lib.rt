//! One direction of a channel: items, the wire that an end reads and writes, and the scripted faults on it.
#![tactic(auto)]

pub mod below;
mod fault;
mod item;
mod items;
mod laws;
mod near;
mod offers;
mod push;
mod wire;

pub use fault::{Fault, Faults};
pub use item::{Full, Item};
pub use items::Items;
pub use laws::{
    each_pushed_item_was_offered, one_more_offer_adds_its_own, without_faults_all_is_pushed,
};
pub use near::Near;
pub use offers::{OfferFault, Offers};
pub use wire::Wire;
