//! Why bytes are no structure of the manual.
use thiserror::Error;

/// Why bytes are no structure, in the order in which it is tried.
#[derive(Clone, Copy, Debug, PartialEq, Eq, Error)]
pub enum HeadFault {
    /// There are fewer bytes than the structure has.
    #[error("the bytes are fewer than the structure's")]
    Short,
    /// The first four bytes are another structure's id.
    #[error("the bytes don't begin with the structure's id")]
    BadId,
    /// The version isn't 1.
    #[error("the structure's version isn't 1")]
    BadVersion,
}
