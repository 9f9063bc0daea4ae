//! A network whose nodes are real: managers over disks, each with its history, as the steps of a scenario run over them.
#![tactic(auto)]

mod acting;
pub mod below;
mod cabling;
mod ends;
mod idling;
mod lines;
mod marks;
mod network;
mod parts;
mod phasing;
mod resting;
mod settling;
mod starting;
mod timing;
mod turning;
mod turns;

pub use mq_world_begin::{Fresh, Rested, begin};
pub use network::Network;
