//! What is kept of a sender.

use mq_sync::SenderData;

/// What a sender has hardened last. Idents that were struck since its unit was prepared still stand in the list of the unit.
#[derive(Drop)]
pub struct Kept {
    /// As it was hardened, struck idents with it.
    pub hardened: SenderData,
    /// The number of the last strike before the unit in doubt was prepared.
    pub since: u64,
}
