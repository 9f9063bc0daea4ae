//! mq_sync: settlement of a unit, and sequence numbers.

use mq_sync::{Settle, Unit, next_number, settle_of};
use std::test::*;

#[test]
fn a_unit_is_committed_where_it_is_the_receivers_last_one(rt: HostRuntime) {
    let one = Unit { session: 1, n: 1 };
    let two = Unit { session: 2, n: 1 };
    assert!(rt; settle_of(one, one) == Settle::Commit);
    assert!(rt; settle_of(two, one) == Settle::Backout);
}

#[test]
fn numbers_begin_again_after_the_last(rt: HostRuntime) {
    assert_eq!(rt; next_number(0, 999), 1);
    assert_eq!(rt; next_number(998, 999), 999);
    assert_eq!(rt; next_number(999, 999), 1);
    assert_eq!(rt; next_number(4294967295, 100), 1);
}
