//! What restarts have read of a log, and what one leaves that is refused.
ghost use Rattle.std.specs.Prelude.{◌≡◌, IfSome};
ghost use Rattle.mq_restart.specs.from_core.Views.{plain_of};
ghost use Rattle.mq_restart.specs.Stands.{is_kept, read_found, read_up, read_fallen};
ghost use Rattle.mq_calls.specs.Counts.{starts_of};
ghost use Rattle.mq_restarts.specs.Comings.{is_foreign, IsFirstAbove};

use mq_disk::Disk;
use mq_log::Found;
use mq_restart::LogRead;
use mq_restart::below::{Mode, Parts};

/// What is known behind one more restart that read the log.
pub(crate) fn read_found(read: LogRead, found: Found) -> LogRead
    ensures { result ≡ read_found read found }
{
    match read {
        LogRead::Unread => match found {
            Found::Before => LogRead::Known(false),
            Found::After => LogRead::Known(true),
            Found::Other => LogRead::Foreign,
        },
        LogRead::Known(kept) => match found {
            Found::Before => LogRead::Known(kept),
            Found::After => LogRead::Known(kept),
            Found::Other => LogRead::Foreign,
        },
        LogRead::Foreign => LogRead::Foreign,
    }
}

/// What is known behind a restart that was refused.
pub(crate) fn read_fallen(read: LogRead, found: Option<Found>) -> LogRead
    ensures { result ≡ read_fallen found read }
{
    match found {
        None => read,
        Some(found) => read_found(read, found),
    }
}

/// What is known of the log of a manager that came up in this incarnation.
pub(crate) fn read_up(read: LogRead, incarnation: u64) -> LogRead
    ensures { result ≡ read_up incarnation read }
{
    match read {
        LogRead::Unread => LogRead::Unread,
        LogRead::Known(_) => LogRead::Unread,
        LogRead::Foreign => {
            if incarnation < 2_305_843_009_213_693_952 {
                LogRead::Unread
            } else {
                LogRead::Foreign
            }
        }
    }
}

/// Whether the log holds the write that was stopped.
pub(crate) fn is_kept(read: LogRead) -> bool
    ensures { result ≡ is_kept read }
{
    match read {
        LogRead::Unread => false,
        LogRead::Known(kept) => kept,
        LogRead::Foreign => false,
    }
}

/// Whether the log was changed from outside.
pub(crate) fn is_foreign(read: LogRead) -> bool
    ensures { result ≡ is_foreign read }
{
    match read {
        LogRead::Unread => false,
        LogRead::Known(_) => false,
        LogRead::Foreign => true,
    }
}

/// The length that the log of a manager that is down had at the stop, in bytes.
pub(crate) fn length_at_stop<D: Disk>(parts: &Parts<D>) -> u64
    ensures { result ≡ (plain_of parts.now).log.length }
{
    match &parts.mode {
        Mode::Up => parts.log.len(),
        Mode::Down { read, .. } => match read {
            None => parts.log.len(),
            Some(read) => read.length,
        },
    }
}

/// How many device calls are left before an armed cut, 0 for none.
pub(crate) fn cut_left<D: Disk>(parts: &Parts<D>) -> u32
    ensures { result ≡ parts.now.log.armed }
{
    parts.log.armed()
}

/// The number of the manager's last start.
pub(crate) fn incarnation<D: Disk>(parts: &Parts<D>) -> u64
    ensures { result ≡ parts.now.incarnation }
{
    parts.incarnation
}

/// How many Started records of restarts were stopped since.
fn stopped_starts<D: Disk>(parts: &Parts<D>) -> u64
    ensures { result ≡ starts_of (plain_of parts.now).running }
{
    match &parts.mode {
        Mode::Up => 0,
        Mode::Down { starts, .. } => *starts,
    }
}

/// The first incarnation that no restart of this history can have begun. None where numbers have become so high that no restart
/// would read them.
pub(crate) fn first_above<D: Disk>(parts: &Parts<D>) -> Option<u64>
    ensures { IfSome result (λ n. IsFirstAbove n (plain_of parts.now)) }
{
    let starts = stopped_starts(parts);
    if parts.incarnation >= 1_729_382_256_910_270_464 {
        return None;
    }
    if starts >= 288_230_376_151_711_744 {
        return None;
    }
    Some(parts.incarnation + starts + 1)
}
