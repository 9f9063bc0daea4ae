//! Whether the numbers and idents of a record stay within what a start takes.
ghost use Rattle.std.specs.Prelude.{◌≡◌};
ghost use Rattle.std.specs.List.{list_all};
ghost use Rattle.mq_calls.specs.declared.records.Add.{Add};
ghost use Rattle.mq_calls.specs.declared.records.Remove.{Remove};
ghost use Rattle.mq_recover_read.specs.from_spec_log.Applies.{is_ident_below, is_unit_below, is_below, is_in_bounds, idents_in};
ghost use Rattle.mq_recover_read.specs.from_spec_log.Applies.Start.{Later};
ghost use Rattle.mq_recover.specs.Found.{start_in};
ghost use Rattle.mq_recover.specs.Recovering.{was_given_by};

use crate::start::Start;
use mq_calls::{Add, LogRecord, Remove};
use mq_message::Ident;
use mq_sync::Unit;

/// Numbers that a first start finds are below this.
const FIRST_BOUND: u64 = 1 << 60;

/// Incarnations and sessions that a later start finds are below this.
const LATER_BOUND: u64 = 1 << 61;

fn is_ident_below(bound: u64, ident: &Ident) -> bool
    ensures { result ≡ is_ident_below bound ident.now }
{
    ident.incarnation < bound && ident.number < bound
}

fn is_unit_below(bound: u64, unit: Unit) -> bool
    ensures { result ≡ is_unit_below bound unit }
{
    unit.session < bound && unit.n < bound
}

fn are_adds_below(bound: u64, adds: &[Add]) -> bool
    ensures { result ≡ list_all (λ (a : Add). is_ident_below bound a.message.ident) adds.now }
{
    adds.iter()
        .all(|add| is_ident_below(bound, &add.message.ident))
}

fn are_removes_below(bound: u64, removes: &[Remove]) -> bool
    ensures { result ≡ list_all (λ (r : Remove). is_ident_below bound r.ident) removes.now }
{
    removes
        .iter()
        .all(|remove| is_ident_below(bound, &remove.ident))
}

fn are_idents_below(bound: u64, idents: &[Ident]) -> bool
    ensures { result ≡ list_all (is_ident_below bound) idents.now }
{
    idents.iter().all(|ident| is_ident_below(bound, ident))
}

/// Whether each session, unit number, incarnation and ident number is below a bound.
fn is_below(bound: u64, record: &LogRecord) -> bool
    ensures { result ≡ is_below bound record.now }
{
    match record {
        LogRecord::Started { incarnation, .. } => *incarnation < bound,
        LogRecord::Objects { .. } => true,
        LogRecord::Unit { adds, removes } => {
            are_adds_below(bound, adds.as_slice()) && are_removes_below(bound, removes.as_slice())
        }
        LogRecord::Session { session, .. } => *session < bound,
        LogRecord::Prepared { unit, idents, .. } => {
            is_unit_below(bound, *unit) && are_idents_below(bound, idents.as_slice())
        }
        LogRecord::Resolved { unit, .. } => is_unit_below(bound, *unit),
        LogRecord::Bound { session, .. } => *session < bound,
        LogRecord::Closed { session, .. } => *session < bound,
        LogRecord::Received { unit, adds, .. } => {
            is_unit_below(bound, *unit) && are_adds_below(bound, adds.as_slice())
        }
        LogRecord::SeqSet { .. } => true,
        LogRecord::Moved { ident, message, .. } => {
            is_ident_below(bound, ident) && is_ident_below(bound, &message.ident)
        }
    }
}

fn is_later_in_bounds(record: &LogRecord) -> bool
    ensures { result ≡ is_in_bounds Later record.now }
{
    match record {
        LogRecord::Started { incarnation, .. } => *incarnation < LATER_BOUND,
        LogRecord::Session { session, .. } => *session < LATER_BOUND,
        LogRecord::Objects { .. }
        | LogRecord::Unit { .. }
        | LogRecord::Prepared { .. }
        | LogRecord::Resolved { .. }
        | LogRecord::Bound { .. }
        | LogRecord::Closed { .. }
        | LogRecord::Received { .. }
        | LogRecord::SeqSet { .. }
        | LogRecord::Moved { .. } => true,
    }
}

/// Whether the numbers of a record are within the bounds of a start.
pub fn is_in_bounds(start: Start, record: &LogRecord) -> bool
    ensures { result ≡ is_in_bounds (start_in start) record.now }
{
    match start {
        Start::First => is_below(FIRST_BOUND, record),
        Start::Later => is_later_in_bounds(record),
    }
}

/// Whether an ident is another manager's, or of an incarnation of this one that has begun.
fn was_given(manager: u8, incarnation: u64, ident: &Ident) -> bool
    ensures { result ≡ was_given_by manager incarnation ident.now }
{
    !(ident.manager == manager) || ident.incarnation <= incarnation
}

fn were_added(manager: u8, incarnation: u64, adds: &[Add]) -> bool
    ensures { result ≡ list_all (λ (a : Add). was_given_by manager incarnation a.message.ident) adds.now }
{
    adds.iter()
        .all(|add| was_given(manager, incarnation, &add.message.ident))
}

fn were_listed(manager: u8, incarnation: u64, idents: &[Ident]) -> bool
    ensures { result ≡ list_all (was_given_by manager incarnation) idents.now }
{
    idents
        .iter()
        .all(|ident| was_given(manager, incarnation, ident))
}

/// Whether the idents that a record places or prepares were given.
pub fn were_given(manager: u8, incarnation: u64, record: &LogRecord) -> bool
    ensures { result ≡ list_all (was_given_by manager incarnation) (idents_in record.now) }
{
    match record {
        LogRecord::Unit { adds, .. } => were_added(manager, incarnation, adds.as_slice()),
        LogRecord::Prepared { idents, .. } => were_listed(manager, incarnation, idents.as_slice()),
        LogRecord::Received { adds, .. } => were_added(manager, incarnation, adds.as_slice()),
        LogRecord::Moved { message, .. } => was_given(manager, incarnation, &message.ident),
        LogRecord::Started { .. }
        | LogRecord::Objects { .. }
        | LogRecord::Session { .. }
        | LogRecord::Resolved { .. }
        | LogRecord::Bound { .. }
        | LogRecord::Closed { .. }
        | LogRecord::SeqSet { .. } => true,
    }
}
