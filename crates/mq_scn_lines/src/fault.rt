//! What can be wrong in a line, and which of several faults is told.

ghost use Rattle.std.specs.Prelude.{◌≡◌, Result};
ghost use Rattle.mq_scn_lines.specs.declared.fault.LineFault.{LineFault};
ghost use Rattle.mq_scn_lines.specs.Faults.{limit_rank, rank, earlier, both, Reads};

use mq_sc_lex::LexFault;
use mq_sc_parse::ScFault;
use std::alloc::AllocError;
use thiserror::Error;

/// What a scenario has too many of, or which number is outside its limit (this project's limits).
#[derive(Clone, Copy, Debug, Error)]
pub enum Limit {
    /// 40,000 lines.
    #[error("Lines")]
    Lines,
    /// 8 queue managers.
    #[error("Managers")]
    Managers,
    /// 32 cables.
    #[error("Cables")]
    Cables,
    /// 64 scripts.
    #[error("Scripts")]
    Scripts,
    /// 64 sections, of MQSC and of rules together.
    #[error("Sections")]
    Sections,
    /// 16 monitors.
    #[error("Monitors")]
    Monitors,
    /// 3,000 steps.
    #[error("Steps")]
    Steps,
    /// 25,000 lines of one script.
    #[error("ScriptLines")]
    ScriptLines,
    /// 67,108,864 bytes of all bodies.
    #[error("Bodies")]
    Bodies,
    /// 4,194,304 bytes of one body.
    #[error("Body")]
    Body,
    /// 1 to 100,000 turns of PUMP, HANDLE and SERVE.
    #[error("Turns")]
    Turns,
    /// 0 to 999,999,999 milliseconds of CLOCK and WAIT.
    #[error("Clock")]
    Clock,
    /// 4,096 to 268,435,456 bytes of a log.
    #[error("LogMax")]
    LogMax,
}

/// Why a text is none of MQSC commands.
#[derive(Clone, Copy, Debug, Error)]
pub enum MqscFault {
    /// A quote isn't closed on its command.
    #[error("OpenQuote")]
    OpenQuote,
    /// The last line goes on.
    #[error("OpenContinuation")]
    OpenContinuation,
    #[error("{0}")]
    Command(ScFault),
}

/// Why a line can't stand in a scenario, wherever it stands.
#[derive(Clone, Copy)]
pub enum LineFault {
    NoMemory,
    /// It isn't written as any line that may stand there.
    Form,
    /// It passes a limit.
    Limit(Limit),
    /// What stands for a name or a label is none.
    Name,
    /// A label or a manager that isn't declared.
    Unknown,
    /// What may stand once stands twice.
    Twice,
    /// A number outside its range, of a range that is no limit.
    Number,
    /// A part or an MQCONN out of order.
    Order,
    /// It is no MQSC command.
    Mqsc(MqscFault),
}

impl From<AllocError> for LineFault {
    ghost use Rattle.std.specs.Prelude.{◌≡◌};
    ghost use Rattle.mq_scn_lines.specs.declared.fault.LineFault.TheVariants.{NoMemory};

    ghost from_gives = { λ _ e. e ≡ NoMemory };

    fn from(_: AllocError) -> Self {
        LineFault::NoMemory
    }
}

fn limit_rank(limit: Limit) -> u8
    ensures { result ≡ limit_rank limit }
{
    match limit {
        Limit::Lines => 1,
        Limit::Managers => 3,
        Limit::Cables => 4,
        Limit::Scripts => 5,
        Limit::Sections => 6,
        Limit::Monitors => 7,
        Limit::Steps => 8,
        Limit::ScriptLines => 9,
        Limit::Bodies => 10,
        Limit::Body => 11,
        Limit::Turns => 12,
        Limit::Clock => 13,
        Limit::LogMax => 14,
    }
}

/// The place of a fault in the order in which faults of one line are told.
fn rank(fault: LineFault) -> u8
    ensures { result ≡ rank fault }
{
    match fault {
        LineFault::NoMemory => 0,
        LineFault::Form => 2,
        LineFault::Limit(limit) => limit_rank(limit),
        LineFault::Name => 15,
        LineFault::Unknown => 16,
        LineFault::Twice => 17,
        LineFault::Number => 18,
        LineFault::Order => 19,
        LineFault::Mqsc(_) => 20,
    }
}

/// The fault of two that is told.
fn earlier(one: LineFault, other: LineFault) -> LineFault
    ensures { result ≡ earlier one other }
{
    if rank(one) <= rank(other) { one } else { other }
}

fn merged<A: Drop, B: Drop>(
    one: Result<A, LineFault>,
    other: Result<B, LineFault>,
) -> Result<(A, B), LineFault>
    ensures { result ≡ both one other }
{
    match one {
        Ok(a) => match other {
            Ok(b) => Ok((a, b)),
            Err(fault) => Err(fault),
        },
        Err(fault) => match other {
            Ok(_) => Err(fault),
            Err(second) => Err(earlier(fault, second)),
        },
    }
}

/// What two parts of a line say, or the first fault of theirs.
#[tactic(auto, using(crate::proofs::FaultLaws::reads_both))]
pub fn both<A: Drop, B: Drop>(
    one: Result<A, LineFault>,
    other: Result<B, LineFault>,
) -> Result<(A, B), LineFault>
    ensures value { result ≡ both one other }
    ensures reads { (x : Result A LineFault) (y : Result B LineFault) → Reads one x → Reads other y → Reads result (both x y) }
{
    merged(one, other)
}
