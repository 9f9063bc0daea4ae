//! The lines of a script.
use mq_cable::below::{Bytes, Want};
use mq_calls::below::{Label, QName};
use mq_calls::{Open, Take};
use mq_sc_parse::Command;

/// The body of a put.
#[derive(Drop)]
pub enum Body {
    /// These bytes.
    Text(Bytes),
    /// So many times this byte.
    Fill(u32, u8),
}

/// The options of a put: the line's, or the default that stands for none.
#[derive(Clone, Copy)]
pub struct PutOptions {
    /// Inside the unit of work.
    pub sync: bool,
    /// PRTY(n), else -1.
    pub priority: i32,
    /// 1 for PERSIST, 0 for NOPERSIST, else 2.
    pub persistence: i32,
    /// EXPIRY(n) in tenths of a second, else -1.
    pub expiry: i32,
    /// MSGID('t') with zero bytes after, else zero bytes.
    pub msg_id: [u8; 24],
    /// CORREL('t') with zero bytes after.
    pub correl_id: Option<[u8; 24]>,
    /// MSGTYPE(n), else 8, a datagram.
    pub msg_type: i32,
    pub reply_to_q: QName,
    pub reply_to_q_mgr: QName,
    /// FORMAT('t') with blanks after, else `MQSTR`.
    pub format: [u8; 8],
    pub feedback: i32,
    /// IDDATA('t') with blanks after, else blank.
    pub appl_identity_data: [u8; 32],
}

/// The options of a get.
#[derive(Clone, Copy)]
pub struct GetOptions {
    /// Inside the unit of work.
    pub sync: bool,
    pub take: Take,
    pub want: Want,
    /// ROOM(n) in bytes, else 4,194,304.
    pub room: u64,
    /// A message that is longer is taken, cut to the room.
    pub truncate: bool,
    /// WAIT(ms), 0 to 999,999,999 milliseconds; none where it doesn't wait.
    pub wait: Option<u64>,
}

/// A line of a script.
#[derive(Drop)]
pub enum ScriptLine {
    /// The name is blank for the script's manager.
    Mqconn(QName),
    Mqdisc,
    Mqcmit,
    Mqback,
    Mqopen {
        handle: Label,
        name: QName,
        qmgr: QName,
        how: Open,
    },
    Mqclose(Label),
    Mqput {
        handle: Label,
        body: Body,
        options: PutOptions,
    },
    Mqput1 {
        name: QName,
        qmgr: QName,
        body: Body,
        options: PutOptions,
    },
    /// An MQPUT1 to the reply queue of the message that the script got last.
    Reply {
        body: Body,
        options: PutOptions,
    },
    Mqget {
        handle: Label,
        options: GetOptions,
    },
    /// One command on the script's manager.
    Mqsc(Command),
    Crash,
    Restart,
    /// The k-th device call from now on is stopped, k 1 to 1000.
    Cut(u32),
}
