//! Headers that stand at the beginning of a body: those of transmission queues, dead letters and
//! trigger messages, written and read by the manual's layout.
#![tactic(auto)]

pub mod below;
mod dead_letter;
mod headers;
mod transmission;
mod trigger;

pub use dead_letter::{DLH_SIZE, dlh_of, dlh_to_bytes};
pub use headers::{Dlh, Tm, Xqh};
pub use transmission::{XQH_SIZE, xqh_of, xqh_to_bytes};
pub use trigger::{TM_SIZE, tm_of, tm_to_bytes};
