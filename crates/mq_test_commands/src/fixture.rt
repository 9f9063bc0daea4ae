//! What several tests begin with.

use mq_base::QName;
use mq_sc_lex::{LexFault, commands};
use std::alloc::Global;

/// The name of a queue or a manager; blank where the text is no name.
pub fn name_of(text: &str) -> QName {
    QName::of(text.as_bytes()).unwrap_or(QName::blank())
}

fn is_same(told: LexFault, fault: LexFault) -> bool {
    match (told, fault) {
        (LexFault::OpenQuote(line), LexFault::OpenQuote(wanted)) => line == wanted,
        (LexFault::OpenContinuation, LexFault::OpenContinuation) => true,
        _ => false,
    }
}

/// Whether a text has no commands, and this is told of it.
pub fn is_fault(alloc: Global, text: &[u8], fault: LexFault) -> bool {
    match commands(alloc, text) {
        Ok(_) => false,
        Err(told) => is_same(told, fault),
    }
}
