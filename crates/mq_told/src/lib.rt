//! What the log of a manager tells, read on from what its beginning told before.
#![tactic(auto)]

mod front;
mod imaging;
mod told;

pub use imaging::image_on;
pub use told::LogTold;
