//! Calls of the MQI on one queue manager: MQCONN, MQOPEN, MQCLOSE, MQPUT, MQPUT1.
#![tactic(auto)]

mod connecting;
mod drafts;
mod putting;

pub use connecting::{mqclose, mqconn, mqopen};
pub use drafts::Letter;
pub use putting::{mqput, mqput1};
