//! What happened at one queue manager: its opening, its entries, its marks; and what a scenario
//! gives it. Plain data alone: what it means stands in the definitions of the plain node.
#![tactic(auto)]

mod acts;
pub mod below;
mod calls;
mod history;
mod scenario;
mod scripts;
mod story;

pub use acts::{Act, Acted, OpRefusal};
pub use calls::{Actor, Call, Chance, Effect, Entry, Reply};
pub use history::{History, Mark};
pub use mq_cable::{Fault, Faults};
pub use mq_calls::{Image, Shelf};
pub use scenario::{
    CableLine, ManagerLine, MonitorLine, RulesPart, Scenario, ScriptPart, Section, Step,
};
pub use scripts::{Body, GetOptions, PutOptions, ScriptLine};
pub use story::{Apart, Conflict, ManagerPlaces};
