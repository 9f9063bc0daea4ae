//! A forced log on a disk: bodies behind gates. A body stands in the log once its gate is open on the disk.
#![tactic(auto)]

mod bodies;
mod force;
mod images;
mod log;
mod open;
mod scan;

pub use bodies::{Bodies, Split, next_body};
pub use images::Found;
pub use log::{Log, LogFull, Unstarted};
pub use open::StartFault;
