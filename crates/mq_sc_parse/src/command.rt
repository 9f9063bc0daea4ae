//! What a command is.

use mq_sc_keys::below::ChName;
use mq_sync::Settle;

/// A command on a channel's end. Source: MQSC reference, START, STOP, RESET and RESOLVE CHANNEL.
#[derive(Clone, Copy)]
pub enum Op {
    Start(ChName),
    Stop(ChName),
    /// RESET with its sequence number, 0 to 999,999,999.
    Reset(ChName, u32),
    /// RESOLVE with its ACTION.
    Resolve(ChName, Settle),
}

/// An MQSC command (MQSC reference).
#[derive(Drop)]
pub enum Command {
    /// DEFINE, ALTER, DELETE or DISPLAY of objects.
    Objects(mq_sc_keys::below::Command),
    /// START, STOP, RESET or RESOLVE of a channel's end.
    Operate(Op),
    /// DISPLAY CHSTATUS of a name, or of each that begins so.
    ShowStatus {
        /// The name, or the beginning of one, which may be blank.
        name: ChName,
        /// A `*` stood behind it.
        any_end: bool,
    },
}
