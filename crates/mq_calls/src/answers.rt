//! Arguments and answers of the MQI calls. Source: MQI application reference, the calls' descriptions.

use mq_queue::below::{Bytes, Ident, Md, Want};
use mq_resolve::below::Reason;

/// A connection handle; manager 0 stands for none.
#[derive(Clone, Copy)]
pub struct Hconn {
    pub manager: u8,
    pub incarnation: u64,
    pub number: u64,
}

/// An object handle of a connection; 0 is none.
#[derive(Clone, Copy)]
pub struct Hobj {
    pub number: u64,
}

/// Who connects: PutApplName and UserIdentifier of its messages.
#[derive(Clone, Copy)]
pub struct Appl {
    pub name: [u8; 28],
    pub user: [u8; 12],
}

/// The completion code of an MQI call, with its reason where it is not OK.
#[derive(Drop)]
pub enum Answer<T> {
    Ok(T),
    Warning(Reason, T),
    Failed(Reason),
}

/// Whether an MQOPEN asks for input, and whether alone.
#[derive(Clone, Copy)]
pub enum Input {
    No,
    Shared,
    Exclusive,
}

/// The options of an MQOPEN.
#[derive(Clone, Copy)]
pub struct Open {
    pub input: Input,
    pub browse: bool,
    pub output: bool,
}

/// What a put gives back: the ident of the message, and its descriptor as the manager filled it.
#[derive(Clone, Copy)]
pub struct Sent {
    pub ident: Ident,
    pub md: Md,
}

/// Which message a get takes: the next, or that under the cursor; or it browses.
#[derive(Clone, Copy)]
pub enum Take {
    Next,
    UnderCursor,
    BrowseFirst,
    BrowseNext,
    BrowseUnder,
}

/// The options of an MQGET. `room` is the length of the caller's buffer in bytes.
#[derive(Clone, Copy)]
pub struct Get {
    pub sync: bool,
    pub take: Take,
    pub want: Want,
    pub room: u64,
    pub truncate: bool,
}

/// A message as it is read: at most the first `room` bytes, and the length of the whole.
#[derive(Drop)]
pub struct Got {
    pub ident: Ident,
    pub md: Md,
    pub body: Bytes,
    pub length: u64,
}

/// An MQGET that may still wait changes nothing and is no event.
#[derive(Drop)]
pub enum GetAnswer {
    NotYet,
    Done(Answer<Got>),
}
