//! The fields of the three headers. A text field is ASCII with blanks behind; each number is a signed long.

use mq_message::Md;

/// The header of a message on a transmission queue (IBM MQ reference, MQXQH, version 1), without
/// its first two fields. The message's body stands behind it.
#[derive(Clone, Copy)]
pub struct Xqh {
    /// The queue at the remote manager.
    pub remote_q_name: [u8; 48],
    /// The manager to which the message goes.
    pub remote_q_mgr_name: [u8; 48],
    /// The message's descriptor, as it was put.
    pub msg_desc: Md,
}

/// The header of a dead letter (IBM MQ reference, MQDLH, version 1), without its first two fields.
/// The message's body stands behind it.
#[derive(Clone, Copy)]
pub struct Dlh {
    /// Why the message could not be placed: a reason code of the manual, or a feedback code.
    pub reason: i32,
    /// The queue to which the message was to go.
    pub dest_q_name: [u8; 48],
    /// The manager of that queue.
    pub dest_q_mgr_name: [u8; 48],
    /// The Encoding of the body behind the header, as the descriptor had it.
    pub encoding: i32,
    /// The CodedCharSetId of that body.
    pub coded_char_set_id: i32,
    /// The Format of that body.
    pub format: [u8; 8],
    /// Which kind of program wrote the header: an MQAT value.
    pub put_appl_type: i32,
    /// The name of that program.
    pub put_appl_name: [u8; 28],
    /// When the header was written, in GMT: YYYYMMDD.
    pub put_date: [u8; 8],
    /// The time of that day: HHMMSSTH, to hundredths of a second.
    pub put_time: [u8; 8],
}

/// A trigger message (IBM MQ reference, MQTM, version 1), without its first two fields.
#[derive(Clone, Copy)]
pub struct Tm {
    /// The queue whose condition was met.
    pub q_name: [u8; 48],
    /// PROCESS of that queue.
    pub process_name: [u8; 48],
    /// TRIGDATA of that queue.
    pub trigger_data: [u8; 64],
    /// APPLTYPE of the process.
    pub appl_type: i32,
    /// APPLICID of the process.
    pub appl_id: [u8; 256],
    /// ENVRDATA of the process.
    pub env_data: [u8; 128],
    /// USERDATA of the process.
    pub user_data: [u8; 128],
}
