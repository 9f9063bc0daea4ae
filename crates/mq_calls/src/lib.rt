//! Plain data of calls: arguments, answers, free choices, what a call changed, records of the log,
//! and the parts of a manager's state; and, in definitions, what is meant by that state and by a call's step.
//!
//! All of it is data without behaviour: definitions and contracts speak of these very types. A
//! publication's answer will stand beside `Sent`, with the idents of its copies.
#![tactic(auto)]

mod agents;
mod answers;
pub mod below;
mod choices;
mod commands;
mod deltas;
mod image;
mod records;
mod state;

pub use agents::{AgentStop, Messages, Note, PlaceFault, PrepareFault, SeizeFault};
pub use answers::{Answer, Appl, Get, GetAnswer, Got, Hconn, Hobj, Input, Open, Sent, Take};
pub use choices::{Choice, Return};
pub use commands::{BeginFault, Halt, Kept, RestartFault, ScRefusal, Shown};
pub use deltas::{Delta, Did, Why};
pub use image::{Image, Shelf};
pub use records::{Add, LogRecord, Remove};
pub use state::{Batch, Connection, Handle, Item, ReceiverSide, Seizure, SenderSide};
