//! What a turn of a sender does, and what came of it.

use mq_sync::Settle;

/// What a sender's turn does.
#[derive(Clone, Copy, PartialEq, Eq)]
pub enum SenderDoes {
    /// Nothing; no item waits.
    Still,
    /// Pops the item that waits.
    Ignore,
    /// Hardens this session.
    HardenSession(u64),
    /// Pushes BIND of the hardened session.
    PushBind,
    /// Removes the expired free rows of the transmission queue.
    Expire,
    /// Holds the first so many free rows as unit `n` of the session, and pushes the first message of them.
    Begin {
        /// The unit's number in the session, from 1 on.
        n: u64,
        /// 1 to BATCHSZ.
        count: u32,
    },
    /// Pushes the message of this index, from 1.
    PushMsg(u32),
    /// Hardens the unit: it is in doubt from here on.
    Prepare,
    /// Pushes END of the unit in doubt.
    PushEnd,
    /// Pops STATUS and settles a unit in doubt; the partner's last sequence number.
    Bound {
        /// How the unit in doubt is settled; None where there is none.
        settle: Option<Settle>,
        /// 0 to 999,999,999.
        partner: u32,
    },
    /// Pops ACK and hardens the unit in doubt as committed.
    Commit,
    /// Pops ERR, with its reason, and hardens the unit in doubt as backed out.
    Backout(u32),
}

/// What came of a turn.
#[derive(Clone, Copy)]
pub enum SenderOut {
    Done,
    /// The cable refused the push.
    Full,
    /// The log has no room for the unit; it goes with `Prepare` alone.
    NoRoom,
}
