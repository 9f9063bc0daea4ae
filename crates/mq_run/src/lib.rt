//! A scenario's run: its managers begin, its steps are done, and its report is written.
#![tactic(auto)]

pub mod below;
mod reporting;
mod running;
mod standing;
mod status;

pub use reporting::{Form, report_run};
pub use running::{Ended, ended_early, run_scenario};
pub use standing::standing_at_rest;
pub use status::{BadCause, Status, net_status, stop_status, verdict_status};
