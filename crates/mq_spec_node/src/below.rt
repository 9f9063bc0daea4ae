//! What of the crates below those above take through this one.

pub use mq_history::below::{Answer, Did, Hconn, Hobj, Messages};
pub use mq_history::{
    Act, Actor, Body, Call, Entry, GetOptions, History, MonitorLine, PutOptions, Reply, ScriptLine,
    ScriptPart,
};
pub use mq_receiver::Receiver;
pub use mq_sender::Sender;
