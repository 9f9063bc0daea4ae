//! What several tests begin with.

use mq_base::QName;
use mq_message::Md;

/// A descriptor with blanks and zeros in the fields that no test looks at.
pub fn descriptor() -> Md {
    Md {
        report: 0,
        msg_type: 8,
        expiry: -1,
        feedback: 0,
        encoding: 273,
        coded_char_set_id: 1208,
        format: *b"MQSTR   ",
        priority: 5,
        persistence: 1,
        msg_id: [7; 24],
        correl_id: [0; 24],
        backout_count: 0,
        reply_to_q: [b' '; 48],
        reply_to_q_mgr: [b' '; 48],
        user_identifier: [b' '; 12],
        accounting_token: [0; 32],
        appl_identity_data: [b' '; 32],
        put_appl_type: 6,
        put_appl_name: [b' '; 28],
        put_date: *b"20260101",
        put_time: *b"12345678",
        appl_origin_data: [b' '; 4],
    }
}

/// The name of a queue or a manager; blank where the text is no name.
pub fn name_of(text: &str) -> QName {
    QName::of(text.as_bytes()).unwrap_or(QName::blank())
}
