//! The parts of a queue manager, as its code keeps them.
use mq_base::{ChName, Items, QName};
use mq_calls::below::{Defs, Unit};
use mq_calls::{Note, Remove, Seizure, Why};
use mq_codes::Reason;
use mq_disk::Disk;
use mq_index::IndexedQueue;
use mq_log::Log;
use mq_message::{Dest, Ident, Message};
use mq_place::{Queues, RowRoom};
use mq_sides::below::Buffer;
use mq_sides::{Bonds, KeptBatch, KeptReceiver, KeptSender};
use mq_spec_manager::below::Planned;
use mq_trigger::below::Live;
use std::alloc::Global;
use std::marker::Model;

/// A forced write that was stopped: what a restart does where it finds it.
#[derive(Drop)]
pub enum StoppedWrite {
    /// A message that was put outside units.
    Put {
        queue: QName,
        message: Message,
    },
    /// The unit of a connection, which ends with it or not.
    Commit {
        number: u64,
        ends: bool,
    },
    /// Rows of a queue that go, not for a unit, of which some last.
    Removal {
        queue: QName,
        /// Those that last, as the record names them.
        removes: Items<Remove>,
        /// All of them, in order of place.
        idents: Items<Ident>,
        why: Why,
    },
    /// A change of objects by a command.
    Objects {
        planned: Planned,
    },
    /// What a channel's end hardened beside its messages; not that a unit was settled.
    Hardened {
        channel: ChName,
        note: Note,
    },
    /// A unit in doubt that is settled, with the rows that its channel's batch held, in order.
    Settled {
        channel: ChName,
        unit: Unit,
        commit: bool,
        operator: bool,
        rows: Items<Remove>,
    },
    /// A batch that becomes the unit in doubt, with its last sequence number.
    Prepared {
        channel: ChName,
        last: u32,
    },
    /// A row that goes from one queue to another by a rule that has this target, without its header where `bare`.
    Moved {
        from: QName,
        target: Dest,
        bare: bool,
        /// The queue that it goes to, and the message as it stands there.
        to: QName,
        message: Message,
    },
    /// A batch of messages that a receiver commits, as they are placed, in order.
    Received {
        channel: ChName,
        unit: Unit,
        /// The last sequence number of the batch.
        last: u32,
        landed: Items<Arrival>,
    },
}

/// A message that a channel brought, as it is placed.
#[derive(Drop)]
pub struct Arrival {
    /// The local queue on which it is put.
    pub queue: QName,
    /// The message as it stands there: by its route, or as a dead letter.
    pub message: Message,
    /// Why it is a dead letter; none where it is put by its route.
    pub dead: Option<Reason>,
    /// The queue of the row of a unit in doubt that goes for it, where its ident stood here already.
    pub dropped: Option<QName>,
}

/// What the first restart that read the log found there.
#[derive(Clone, Copy)]
pub struct ReadLog {
    /// Whether the log holds the stopped write.
    pub kept: bool,
    /// The log's length at the stop, in bytes.
    pub length: u64,
}

/// Up, or down, with the write that was stopped, how many Started writes were stopped since, and
/// what the first restart found that has read the log since, if one has.
#[derive(Drop)]
pub enum Mode {
    Up,
    Down {
        write: Option<StoppedWrite>,
        starts: u64,
        read: Option<ReadLog>,
    },
}

/// What the ends of channels have hardened, and what the running ones have here; each list in the
/// order of the channels' names, one entry a channel.
#[derive(Drop)]
pub struct ChannelEnds {
    /// What each sender channel has hardened, with room for what its unit in doubt tells where it is settled.
    pub senders: Items<KeptSender>,
    /// What each receiver channel has hardened, with room for what it tells where its session is closed.
    pub receivers: Items<KeptReceiver>,
    /// The sender channels that run, and the queue that each reads.
    pub seizures: Items<Seizure>,
    /// The rows that a sender channel holds for a batch that is not prepared, with room for its release.
    pub batches: Items<KeptBatch>,
    /// The receiver channels that run, with a place for each that has hardened something.
    pub bound: Bonds,
    /// Room for the rows of a unit in doubt, which are noted where the write that settles it is stopped.
    pub rows: RowRoom,
}

/// The parts of a manager. Contracts see each of them, with the room that was taken for rows, for
/// the log and for the bytes of a record.
#[derive(Drop)]
pub struct Parts<D: Disk> {
    /// Where memory comes from.
    pub alloc: Global,
    /// The manager's number in its network, 1 to 8.
    pub number: u8,
    /// The manager's name.
    pub name: QName,
    /// Up, or down.
    pub mode: Mode,
    /// Its objects.
    pub defs: Defs,
    /// Its local queues by name, with the puts that wait for them.
    pub queues: Queues<IndexedQueue>,
    /// Its live connections by number, and who uses a queue.
    pub live: Live,
    /// What channel ends have here.
    pub ends: ChannelEnds,
    /// Milliseconds since 1970, at most 253,402,300,799,999.
    pub moment: u64,
    /// The number of its last start, from 1.
    pub incarnation: u64,
    /// The last number given to an ident in this incarnation.
    pub idents: u64,
    /// The forced log, with what units reserve of it.
    pub log: Log<D>,
    /// Room for the body of a record.
    pub body: Buffer,
}

impl<D: Disk> Model for Parts<D> {
    ghost use Rattle.mq_core.specs.Views.{PartsValue};

    ghost Value = { PartsValue };

    ghost view = { λ m. record {
      number = m.number;
      name = m.name;
      mode = m.mode;
      defs = m.defs;
      queues = m.queues;
      desk = m.live;
      ends = m.ends;
      moment = m.moment;
      incarnation = m.incarnation;
      idents = m.idents;
      log = m.log;
      body = m.body;
    } };
}
