//! Why a body gave no record.

ghost use Rattle.std.specs.Prelude.{◌≡◌};
ghost use Rattle.mq_record.specs.declared.fault.BodyFault.TheVariants.{NoMemory};

use mq_frame::Stop;
use thiserror::Error;

/// Why no record was read from a body.
#[derive(Clone, Copy, Debug, Error)]
pub enum BodyFault {
    /// The bytes are no record's.
    #[error("the body is no record")]
    NoRecord,
    /// There was no memory for its messages and lists.
    #[error("out of memory")]
    NoMemory,
}
