//! The record that a body is.

ghost use Rattle.std.specs.Prelude.{◌≡◌, IfOk};
ghost use Rattle.mq_spec_log.specs.Bodies.{changing, record_of};

use crate::texts::change_of;
use mq_base::NoMemory;
use mq_objects::ObjectChange;
use mq_spec_log::below::{BodyFault, LogRecord, WrittenRecord, read_record};
use std::alloc::Global;

fn changing(change: Option<ObjectChange>) -> Option<LogRecord>
    ensures { result ≡ changing change }
{
    match change {
        Some(change) => Some(LogRecord::Objects { change }),
        None => None,
    }
}

/// The record that a body of the log is, none where it is no record's, or where the text of its command is none
/// that the log may have.
///
/// # Errors
///
/// No memory.
pub fn log_record(alloc: Global, body: &[u8]) -> Result<Option<LogRecord>, NoMemory>
    ensures { IfOk result (λ o. o ≡ record_of body.now) }
{
    match read_record(alloc, body) {
        Ok(WrittenRecord::Objects { operation, text }) => {
            let change = change_of(alloc, operation, text.as_slice())?;
            Ok(changing(change))
        }
        Ok(WrittenRecord::Other(record)) => Ok(Some(record)),
        Err(BodyFault::NoRecord) => Ok(None),
        Err(BodyFault::NoMemory) => Err(NoMemory),
    }
}
