//! What several tests begin with.

use mq_cable::{Fault, Faults, Items, Near, Offers};
use mq_message::Md;
use std::alloc::Global;

/// A descriptor with blanks and zeros in the fields that no test looks at.
pub fn descriptor() -> Md {
    Md {
        report: 0,
        msg_type: 8,
        expiry: -1,
        feedback: 0,
        encoding: 273,
        coded_char_set_id: 1208,
        format: *b"MQSTR   ",
        priority: 5,
        persistence: 1,
        msg_id: [7; 24],
        correl_id: [0; 24],
        backout_count: 0,
        reply_to_q: [b' '; 48],
        reply_to_q_mgr: [b' '; 48],
        user_identifier: [b' '; 12],
        accounting_token: [0; 32],
        appl_identity_data: [b' '; 32],
        put_appl_type: 6,
        put_appl_name: [b' '; 28],
        put_date: *b"20260101",
        put_time: *b"12345678",
        appl_origin_data: [b' '; 4],
    }
}

/// An end of a cable on which nothing stands; nothing, where memory lacks.
pub fn near(alloc: Global) -> Option<Near> {
    let read = Items::new(alloc).ok()?;
    let write = Items::new(alloc).ok()?;
    Some(Near {
        read,
        write,
        fulls: 0,
        empties: 0,
    })
}

/// What is offered under these faults; nothing, where memory lacks.
pub fn offers(alloc: Global, faults: &[Fault]) -> Option<Offers> {
    match Faults::from_slice(alloc, faults) {
        Ok(faults) => Some(Offers::new(alloc, faults)),
        Err(_) => None,
    }
}
