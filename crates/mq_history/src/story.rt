//! What a story shows: an operator's settlement at odds with its receiver, logs that don't belong together, and
//! where rows stand.
use mq_cable::below::Ident;
use mq_calls::Shelf;
use mq_calls::below::{ChName, Definitions, Items, QName, Unit};

/// The first operator's settlement that the receiver doesn't bear out.
#[derive(Clone, Copy)]
pub struct Conflict {
    /// The manager's number, 1 to 8.
    pub manager: u8,
    pub channel: ChName,
    /// The unit that was settled.
    pub unit: Unit,
}

/// Why the logs of a scenario's managers don't belong together. Cables are places in the scenario.
#[derive(Clone, Copy)]
pub enum Apart {
    /// A kept partner is not the cable's other end.
    Partner(u16),
    /// The receiver's session is above the sender's; both.
    Session(u16, u64, u64),
    /// The receiver's last unit is above the sender's unit in doubt; both.
    Unit(u16, Unit, Unit),
    /// An ident stands in two rows.
    Twice(Ident),
    /// An ident is of a later incarnation than its manager's log knew, which was this one.
    Newer(Ident, u64),
}

/// A manager's definitions, and its rows, queue by queue.
#[derive(Drop)]
pub struct ManagerPlaces {
    pub name: QName,
    pub definitions: Definitions,
    /// Lists by name, each in order of place with no count of arrivals; one may have no definition any more.
    pub queues: Items<Shelf>,
}
