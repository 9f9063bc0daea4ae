//! What is meant by one queue manager: for each MQI call, object command, trigger turn, stop and
//! restart, and for what channel ends and the handler ask of it, what it answers and what it leaves. Definitions alone.
#![tactic(auto)]

pub mod below;
