//! How managers, queues and channels stand at a run's end, as plain data.
use mq_base::{ChName, Items, QName};
use mq_queue::Row;
use mq_receiver::ReceiverState;
use mq_sender::SenderState;
use mq_sync::Unit;

/// A local queue with its rows.
#[derive(Drop)]
pub struct QueueStanding {
    pub name: QName,
    /// CURDEPTH: free committed rows and uncommitted puts.
    pub depth: u64,
    /// In order of place, held ones too.
    pub rows: Items<Row>,
}

/// A manager that is up or down, with its local queues in order of definition; none are told of one that is down.
#[derive(Drop)]
pub struct ManagerStanding {
    pub name: QName,
    pub is_up: bool,
    pub queues: Items<QueueStanding>,
}

/// The sender end of a cable: its state, its session, the last sequence number that is settled, and the unit in doubt.
#[derive(Clone, Copy)]
pub struct SenderStanding {
    pub state: SenderState,
    pub session: u64,
    pub last: u32,
    pub in_doubt: Option<Unit>,
}

/// The receiver end of a cable: its state, its session, and the last unit that it committed with its last number.
#[derive(Clone, Copy)]
pub struct ReceiverStanding {
    pub state: ReceiverState,
    pub session: u64,
    pub last: u32,
    pub unit: Unit,
}

/// A cable's ends; none of a manager that is down.
#[derive(Clone, Copy)]
pub struct CableStanding {
    pub channel: ChName,
    pub sender: Option<SenderStanding>,
    pub receiver: Option<ReceiverStanding>,
}

/// How a network stands: managers in the scenario's order, cables in its order.
#[derive(Drop)]
pub struct Standing {
    pub managers: Items<ManagerStanding>,
    pub cables: Items<CableStanding>,
}
