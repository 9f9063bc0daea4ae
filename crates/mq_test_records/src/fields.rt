//! The fields of records, read from their places.

use crate::samples::bytes_of_kind;
use mq_calls::LogRecord;
use mq_record::{Operation, WrittenRecord, read_record};
use mq_sync::End;
use std::alloc::Global;
use std::test::*;

/// The record of the kind with that number, from 1.
fn record_of(alloc: Global, kind: usize) -> Result<WrittenRecord, Fail> {
    let bytes = bytes_of_kind(alloc, kind).ok_or("no such kind")?;
    match read_record(alloc, bytes.as_slice()) {
        Ok(record) => Ok(record),
        Err(_) => Err("no record")?,
    }
}

fn has_fields(record: &WrittenRecord) -> bool {
    match record {
        WrittenRecord::Objects { operation, text } => {
            *operation == Operation::Delete && text.as_slice() == b"DELETE QLOCAL('Q12')".as_slice()
        }
        WrittenRecord::Other(record) => match record {
            LogRecord::Started {
                manager,
                name,
                incarnation,
            } => *manager == 1 && name.text() == b"M1".as_slice() && *incarnation == 4,
            LogRecord::Objects { .. } => false,
            LogRecord::Unit { adds, removes } => adds.len() == 2 && removes.len() == 1,
            LogRecord::Session {
                channel,
                partner,
                session,
            } => channel.text() == b"M1.M2".as_slice()
                && partner.text() == b"M2".as_slice()
                && *session == 5,
            LogRecord::Prepared {
                unit,
                last,
                queue,
                idents,
                ..
            } => {
                unit.session == 5
                    && unit.n == 6
                    && *last == 7
                    && queue.text() == b"M2".as_slice()
                    && idents.len() == 2
            }
            LogRecord::Resolved {
                unit,
                commit,
                operator,
                ..
            } => unit.session == 5 && unit.n == 6 && *commit && !*operator,
            LogRecord::Bound {
                partner,
                session,
                last,
                ..
            } => partner.text() == b"M1".as_slice() && *session == 5 && *last == 7,
            LogRecord::Closed { session, .. } => *session == 5,
            LogRecord::Received {
                unit,
                last,
                adds,
                ..
            } => unit.session == 5 && unit.n == 6 && *last == 7 && adds.len() == 1,
            LogRecord::SeqSet { end, last, .. } => *end == End::Receiver && *last == 7,
            LogRecord::Moved {
                from,
                ident,
                to,
                message,
            } => {
                from.text() == b"DLQ".as_slice()
                    && ident.manager == 1
                    && ident.incarnation == 2
                    && ident.number == 3
                    && to.text() == b"Q1".as_slice()
                    && message.body.as_slice() == b"hello".as_slice()
            }
        },
    }
}

#[test]
fn fields_are_read_from_their_places(rt: HostRuntime) -> Result<(), Fail> {
    for kind in 1..12 {
        let record = record_of(rt.alloc(), kind)?;
        assert!(rt; has_fields(&record), "kind {kind}");
    }
    Ok(())
}
