//! Events as a history keeps them: who acts, what is called, what came from outside, what was answered and what it did.
use crate::acts::{Act, Acted};
use mq_cable::below::{Bytes, Md};
use mq_calls::below::{QName, Stop};
use mq_calls::{
    Answer, Appl, Choice, Delta, Get, Got, Hconn, Hobj, Image, Messages, Open, Return, Sent,
};
use mq_frame::{Frame, Seen};

/// Who acts. Numbers are places in the scenario: of the script, of the cable for a channel's end, of
/// the rules table for a handler, of the monitor.
#[derive(Clone, Copy)]
pub enum Actor {
    Script(u16),
    /// The sender end of a cable.
    Sender(u16),
    /// The receiver end of a cable.
    Receiver(u16),
    /// The dead-letter handler of a rules table.
    Handler(u16),
    Monitor(u16),
    /// Who gives commands, stops, restarts and arms cuts.
    Operator,
    /// What advances moments.
    Clock,
}

/// An event of one manager, with its arguments.
#[derive(Drop)]
pub enum Call {
    /// `qmgr` is blank for the script's own manager.
    Mqconn {
        qmgr: QName,
        appl: Appl,
    },
    Mqdisc {
        hc: Hconn,
    },
    /// `qmgr` is blank where the name alone is to be resolved.
    Mqopen {
        hc: Hconn,
        name: QName,
        qmgr: QName,
        how: Open,
    },
    Mqclose {
        hc: Hconn,
        ho: Hobj,
    },
    Mqput {
        hc: Hconn,
        ho: Hobj,
        md: Md,
        body: Bytes,
        sync: bool,
    },
    Mqput1 {
        hc: Hconn,
        name: QName,
        qmgr: QName,
        md: Md,
        body: Bytes,
        sync: bool,
    },
    /// `until` is the moment up to which it may wait, in milliseconds since 1970; none where it doesn't.
    Mqget {
        hc: Hconn,
        ho: Hobj,
        get: Get,
        until: Option<u64>,
    },
    Mqcmit {
        hc: Hconn,
    },
    Mqback {
        hc: Hconn,
    },
    /// What a step or a script asks beside MQI calls.
    Act(Act),
    /// A turn of the channel's end or of the handler that acts.
    Turn,
    /// A timeout of the sender that acts.
    Timeout,
    /// A trigger turn, which has the actor of the entry that it follows.
    Trigger,
}

/// What came from outside.
#[derive(Drop)]
pub enum Chance {
    /// The free choice of a call.
    Call(Choice),
    /// How a restart ended.
    Restart(Return),
    /// A restart read a log that is none of those which this history allows, and went on from it: what it read,
    /// the log's length in bytes then, and how many device calls are left before an armed cut, 0 for none.
    Foreign {
        image: Image,
        length: u64,
        left: u32,
    },
}

/// What the event answered.
#[derive(Drop)]
pub enum Reply {
    /// Of MQCONN.
    Connected(Answer<Hconn>),
    /// Of MQOPEN.
    Opened(Answer<Hobj>),
    /// Of MQDISC, MQCLOSE, MQCMIT and MQBACK.
    Ended(Answer<()>),
    /// Of MQPUT and MQPUT1.
    Put(Answer<Sent>),
    /// Of MQGET.
    Got(Answer<Got>),
    /// Of what is asked beside MQI calls.
    Acted(Acted),
    /// Of a turn of a channel's end, and of a timeout.
    Changed,
    /// Of a handler's turn.
    Tried,
    /// The queue whose trigger was served.
    Triggered(QName),
    /// A forced write of the call was stopped: the manager is down.
    Stopped(Stop),
}

/// What the event did.
#[derive(Drop)]
pub struct Effect {
    /// What was done to rows and channel data, in order.
    pub delta: Delta,
    /// The frame that was offered on the cable that the end writes.
    pub pushed: Option<Frame>,
    /// How many extra items were pushed after it: frames that a scripted fault held back or repeats.
    pub extras: u32,
    /// What was popped from the cable that the end reads.
    pub popped: Seen,
    /// Of a receiver's commit, the messages that it placed or was about to place, in order, each with the names
    /// that came with it; else none.
    pub received: Messages,
}

/// An event as the history keeps it.
#[derive(Drop)]
pub struct Entry {
    /// Lamport's clock: one above the last at this manager, and at a pop above the frame's too; from 1.
    pub stamp: u64,
    pub actor: Actor,
    pub call: Call,
    pub chance: Chance,
    pub reply: Reply,
    pub effect: Effect,
}
