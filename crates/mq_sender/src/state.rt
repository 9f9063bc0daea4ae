//! The state of a sender. Source: distributed queuing, "Channel states"; sessions and units are this
//! project's own.

ghost use Rattle.std.specs.Prelude.{◌≡◌, option_copied};
ghost use Rattle.mq_sync.specs.Settlement.{doubt_of};
ghost use Rattle.mq_sender.specs.States.{kept_of};

use mq_sync::{Doubt, InDoubt, SenderData};

/// What a running sender has of its hardened data.
#[derive(Clone, Copy)]
pub struct Kept {
    /// The session it is in, counted from 1; 0 before the first.
    pub session: u64,
    /// The last sequence number without the unit in doubt, 0 to 999,999,999.
    pub last: u32,
    /// The next BIND forces the receiver to that number: set by RESET, until a unit is prepared.
    pub force: bool,
    /// The unit in doubt, if there is one.
    pub doubt: Option<Doubt>,
}

/// BATCHSZ, SEQWRAP and SHORTRTY of the channel's definition, which stand while the channel runs.
#[derive(Clone, Copy)]
pub struct Limits {
    /// BATCHSZ: how many messages a unit has at most, 1 to 9,999.
    pub batch_size: u32,
    /// SEQWRAP: the sequence number after which 1 comes, 100 to 999,999,999; 1 of a sender never started.
    pub sequence_wrap: u32,
    /// SHORTRTY: how many timeouts in a row are tried again, 0 to 999,999,999.
    pub short_retry: u32,
}

/// Why a sender is stopped.
#[derive(Clone, Copy, PartialEq, Eq)]
pub enum StopCause {
    /// An operator's STOP.
    Operator,
    /// After settlement the own last sequence number and the partner's differ.
    SequenceError { own: u32, partner: u32 },
    /// No answer came, with all tries of SHORTRTY used.
    NoAnswer,
    /// A reason code: the receiver's refusal, or 2102 where the log has no room for a unit.
    Reason(u32),
}

/// Where a sender stands.
#[derive(Clone, Copy, PartialEq, Eq)]
pub enum SenderState {
    /// Not started since its manager started, or its manager has stopped.
    Inactive,
    Stopped(StopCause),
    /// A session is to be hardened.
    Starting,
    /// BIND is to be pushed.
    Hailing,
    /// STATUS is awaited.
    Binding,
    /// Bound, with no unit begun: it looks at its transmission queue.
    Running,
    /// So many messages of the unit are pushed, and the sequence number of the last one.
    Sending { sent: u32, number: u32 },
    /// The unit is prepared, END is to be pushed.
    Ready,
    /// ACK or ERR is awaited.
    Waiting,
}

/// A sender.
#[derive(Clone, Copy)]
pub struct Sender {
    pub state: SenderState,
    /// The timeouts since the last STATUS that was awaited, at most SHORTRTY.
    pub tries: u32,
    /// What is hardened of it.
    pub kept: Kept,
    /// The latest unit begun in the session, counted from 1; 0 for none.
    pub begun: u64,
    /// The number of its messages, 1 to BATCHSZ; 0 for none.
    pub count: u32,
    /// What its definition said when it was started.
    pub limits: Limits,
}

fn doubt_of(in_doubt: &Option<InDoubt>) -> Option<Doubt>
    ensures { result ≡ doubt_of in_doubt.now }
{
    match in_doubt {
        Some(doubt) => Some(Doubt {
            unit: doubt.unit,
            last: doubt.last,
        }),
        None => None,
    }
}

impl Kept {
    /// What a sender has of its hardened data; nothing was hardened where there is none.
    pub fn of(hardened: Option<&SenderData>) -> Kept
        ensures { result ≡ kept_of (option_copied hardened.entry) }
    {
        match hardened {
            Some(hardened) => Kept {
                session: hardened.session,
                last: hardened.last,
                force: hardened.force,
                doubt: doubt_of(&hardened.in_doubt),
            },
            None => Kept {
                session: 0,
                last: 0,
                force: false,
                doubt: None,
            },
        }
    }
}
