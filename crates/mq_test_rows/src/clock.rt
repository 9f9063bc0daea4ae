//! mq_clock: put dates and put times.

use mq_clock::{LAST_MOMENT, put_stamp};

/// Moments with their date and time in GMT, by the civil calendar.
const ROWS: [(u64, &[u8; 8], &[u8; 8]); 13] = [
    (0, b"19700101", b"00000000"),
    (1767225600000, b"20260101", b"00000000"),
    (31535999999, b"19701231", b"23595999"),
    (68169600000, b"19720229", b"00000000"),
    (946684799990, b"19991231", b"23595999"),
    (951782400010, b"20000229", b"00000001"),
    (951868800000, b"20000301", b"00000000"),
    (1677628800000, b"20230301", b"00000000"),
    (1709210096789, b"20240229", b"12345678"),
    (1735603200000, b"20241231", b"00000000"),
    (4107456000000, b"21000228", b"00000000"),
    (4107542400000, b"21000301", b"00000000"),
    (253402300799999, b"99991231", b"23595999"),
];

#[test]
fn a_moment_has_its_date_and_time(rt: HostRuntime) {
    for (moment, date, time) in &ROWS {
        assert!(rt; *moment <= LAST_MOMENT);
        let stamp = put_stamp(*moment);
        assert!(rt; stamp.0 == **date && stamp.1 == **time, "{moment}");
    }
}
