//! What is asked of a node, as events with their entries: acts, calls with the trigger turns behind them, the next line of a script.
#![tactic(auto)]

mod acting;
mod advancing;
mod answering;
mod asking;
mod beginning;
pub mod below;
mod playing;
mod restarting;
mod serving;
mod showing;

pub use acting::act;
pub use advancing::{Advanced, advance};
pub use answering::show;
pub use asking::ask;
pub use beginning::begin;
pub use playing::play;
pub use restarting::restart;
pub use serving::serve;
pub use showing::{receiver_kept, sender_kept, show_status};
