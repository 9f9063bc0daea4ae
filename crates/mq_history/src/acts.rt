//! What a step or a script asks of a manager beside MQI calls, and the answers.
use mq_calls::{RestartFault, ScRefusal, Shown};
use mq_sc_parse::Command;

/// Why a command on a channel's end is refused; `Down` is tried first, then as each command says.
#[derive(Clone, Copy)]
pub enum OpRefusal {
    /// The manager is down.
    Down,
    /// No such definition here, or no end of a cable of that kind.
    NotFound,
    /// The sender is neither inactive nor stopped; the receiver is bound.
    Running,
    /// The sender's XMITQ is no local queue of USAGE(XMITQ).
    BadQueue,
    /// The queue is open for input, or a unit or another channel holds a row of it.
    QueueInUse,
    /// RESET of a sender that has a unit in doubt (this project's choice).
    InDoubt,
    /// RESOLVE of a sender that has none.
    NotInDoubt,
    /// A sequence number outside 1 to SEQWRAP.
    BadNumber,
    /// There was no memory.
    NoMemory,
    /// The disk failed in the command's forced write: the manager is down.
    Disk,
    /// The armed cut stopped the command's forced write: the manager is down.
    Cut,
}

/// What a step or a script asks of a manager beside MQI calls.
#[derive(Drop)]
pub enum Act {
    /// A command on objects, on a channel's end, or DISPLAY CHSTATUS.
    Obey(Command),
    /// A stop.
    Crash,
    /// A restart of a manager that is down; of one that is up it is refused and nothing else.
    Restart,
    /// The k-th device call from now on is stopped, k up to 1000; with 0 none.
    Cut(u32),
    /// The moment advances by so many milliseconds.
    Clock(u64),
}

/// How that was answered.
#[derive(Drop)]
pub enum Acted {
    /// A stop, a restart, a cut, a clock advance, and a command on a channel's end that was accepted.
    Done,
    /// A command on objects that was accepted, and DISPLAY CHSTATUS; with the lines displayed, if any.
    Shown(Shown),
    /// A stop of a manager that is down.
    Down,
    /// A command on objects, or DISPLAY CHSTATUS, is refused.
    Sc(ScRefusal),
    /// A command on a channel's end is refused.
    Op(OpRefusal),
    /// A restart is refused.
    Start(RestartFault),
}
