//! mq_codes: reasons by number and by name, and completion codes.

use mq_codes::{Completion, Reason};
use std::test::Fail;

/// Rows of the manual's table of reason codes.
const ROWS: [(u32, &[u8]); 39] = [
    (2001, b"MQRC_ALIAS_BASE_Q_TYPE_ERROR"),
    (2009, b"MQRC_CONNECTION_BROKEN"),
    (2013, b"MQRC_EXPIRY_ERROR"),
    (2016, b"MQRC_GET_INHIBITED"),
    (2017, b"MQRC_HANDLE_NOT_AVAILABLE"),
    (2018, b"MQRC_HCONN_ERROR"),
    (2019, b"MQRC_HOBJ_ERROR"),
    (2024, b"MQRC_SYNCPOINT_LIMIT_REACHED"),
    (2027, b"MQRC_MISSING_REPLY_TO_Q"),
    (2030, b"MQRC_MSG_TOO_BIG_FOR_Q"),
    (2031, b"MQRC_MSG_TOO_BIG_FOR_Q_MGR"),
    (2033, b"MQRC_NO_MSG_AVAILABLE"),
    (2034, b"MQRC_NO_MSG_UNDER_CURSOR"),
    (2036, b"MQRC_NOT_OPEN_FOR_BROWSE"),
    (2037, b"MQRC_NOT_OPEN_FOR_INPUT"),
    (2039, b"MQRC_NOT_OPEN_FOR_OUTPUT"),
    (2041, b"MQRC_OBJECT_CHANGED"),
    (2042, b"MQRC_OBJECT_IN_USE"),
    (2045, b"MQRC_OPTION_NOT_VALID_FOR_TYPE"),
    (2046, b"MQRC_OPTIONS_ERROR"),
    (2049, b"MQRC_PRIORITY_EXCEEDS_MAXIMUM"),
    (2051, b"MQRC_PUT_INHIBITED"),
    (2053, b"MQRC_Q_FULL"),
    (2058, b"MQRC_Q_MGR_NAME_ERROR"),
    (2059, b"MQRC_Q_MGR_NOT_AVAILABLE"),
    (2071, b"MQRC_STORAGE_NOT_AVAILABLE"),
    (2079, b"MQRC_TRUNCATED_MSG_ACCEPTED"),
    (2080, b"MQRC_TRUNCATED_MSG_FAILED"),
    (2082, b"MQRC_UNKNOWN_ALIAS_BASE_Q"),
    (2085, b"MQRC_UNKNOWN_OBJECT_NAME"),
    (2087, b"MQRC_UNKNOWN_REMOTE_Q_MGR"),
    (2091, b"MQRC_XMIT_Q_TYPE_ERROR"),
    (2092, b"MQRC_XMIT_Q_USAGE_ERROR"),
    (2102, b"MQRC_RESOURCE_PROBLEM"),
    (2184, b"MQRC_REMOTE_Q_NAME_ERROR"),
    (2196, b"MQRC_UNKNOWN_XMIT_Q"),
    (2197, b"MQRC_UNKNOWN_DEF_XMIT_Q"),
    (2198, b"MQRC_DEF_XMIT_Q_TYPE_ERROR"),
    (2199, b"MQRC_DEF_XMIT_Q_USAGE_ERROR"),
];

/// Texts that are no reason's name.
const NO_NAMES: [&[u8]; 6] = [
    b"",
    b"MQRC_",
    b"MQRC_NONE",
    b"Q_FULL",
    b"mqrc_q_full",
    b"MQRC_Q_FULL ",
];

#[test]
fn numbers_and_names_are_those_of_the_table(rt: HostRuntime) -> Result<(), Fail> {
    for (number, name) in &ROWS {
        let reason = Reason::of(*number).ok_or("no reason")?;
        let is_named = reason.name().as_bytes() == *name;
        let is_found = Reason::of_name(name) == Some(reason);
        assert!(rt;
            reason.number() == *number && is_named && is_found,
            "{number}"
        );
    }
    Ok(())
}

#[test]
fn a_reason_is_printed_by_its_name(rt: HostRuntime) -> Result<(), Fail> {
    let reason = Reason::QueueFull;
    let text = format!(in rt.alloc(); "{reason}")?;
    assert_eq!(rt; text.as_str(), "MQRC_Q_FULL");
    Ok(())
}

/// Numbers that are no reason's.
const NO_NUMBERS: [u32; 8] = [0, 1, 2000, 2003, 2010, 2103, 2200, 4294967295];

#[test]
fn no_other_number_or_text_is_a_reason(rt: HostRuntime) {
    assert!(rt; Reason::of(2085) == Some(Reason::UnknownObjectName));
    for number in &NO_NUMBERS {
        assert!(rt; Reason::of(*number).is_none(), "{number}");
    }
    for (place, name) in NO_NAMES.iter().enumerate() {
        assert!(rt; Reason::of_name(name).is_none(), "at {place}");
    }
}

#[test]
fn completion_codes_are_0_to_2(rt: HostRuntime) {
    assert_eq!(rt; Completion::Ok.number(), 0);
    assert_eq!(rt; Completion::Warning.number(), 1);
    assert_eq!(rt; Completion::Failed.number(), 2);
}
