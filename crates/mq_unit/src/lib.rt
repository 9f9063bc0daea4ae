//! Units of work: uncommitted puts and held rows, with the room that the unit's end needs.
#![tactic(auto)]

pub mod below;
mod effects;
mod laws;
mod record;
mod unit;

pub use effects::Effects;
pub use laws::a_unit_needs_its_record;
pub use record::can_be_kept;
pub use unit::{Ended, Unit};
