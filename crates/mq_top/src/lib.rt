//! The one call that the program makes, with what is promised of a run: its words, a scenario that is read and run or only checked, a
//! large run.
#![tactic(auto)]

mod top;

pub use mq_run::{Ended, Status};
pub use top::{Purpose, Task, mqnet};
