//! The parts of a node, and its events: a call of its manager, and the entry that tells it in the node's history.
#![tactic(auto)]

mod acting;
pub mod below;
mod calling;
mod commanding;
mod counting;
mod entries;
mod events;
mod node;
mod obeying;
mod outcome;
mod state;

pub use calling::{mqback, mqclose, mqcmit, mqconn, mqdisc, mqget, mqopen, mqput, mqput1, trigger};
pub use counting::has_few_rows;
pub use entries::{Entries, last_entry};
pub use node::Node;
pub use obeying::obey;
pub use outcome::{Obeyed, Outcome, Told};
pub use state::{NodeParts, Opening};
