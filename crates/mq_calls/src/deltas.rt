//! What a call did, for the history (this project's choice).

use crate::agents::Note;
use mq_disk::below::{ChName, Items, QName};
use mq_queue::below::{Dest, Holder, Ident};
use mq_resolve::below::Reason;
use mq_sync::Unit;

/// Why a row went.
#[derive(Clone, Copy)]
pub enum Why {
    /// A get took it.
    Got,
    Expired,
    /// A rule of the dead-letter handler removed it.
    Discarded,
    /// Its batch was settled as committed.
    Sent,
    /// It came back, and the new row takes its place.
    CameBack,
}

/// One thing that a call did to a row, or a record of channel data that it hardened.
#[derive(Clone, Copy)]
pub enum Did {
    /// On a queue; with the reason where it is a dead letter.
    Placed {
        queue: QName,
        ident: Ident,
        dead: Option<Reason>,
    },
    Removed {
        queue: QName,
        ident: Ident,
        why: Why,
    },
    /// From one queue to another, by a rule that has this target; without its header where `bare`.
    Moved {
        from: QName,
        ident: Ident,
        to: QName,
        target: Dest,
        bare: bool,
    },
    Held {
        queue: QName,
        ident: Ident,
        by: Holder,
    },
    Released {
        queue: QName,
        ident: Ident,
    },
    Hardened {
        channel: ChName,
        note: Note,
    },
    /// A batch is in doubt from here on.
    Prepared {
        channel: ChName,
        unit: Unit,
    },
    /// A receiver has committed this unit.
    Received {
        channel: ChName,
        unit: Unit,
    },
}

/// What a call did, in order.
pub type Delta = Items<Did>;
