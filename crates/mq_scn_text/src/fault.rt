//! Why a text is no scenario.

ghost use Rattle.std.specs.Prelude.{◌≡◌};
ghost use Rattle.mq_scn_text.specs.Faults.{fault_at};
ghost use Rattle.mq_scn_text.specs.FaultWords.{mqsc_word, rules_word};

use mq_rules_text::RulesFault;
use mq_sc_parse::ScFault;
use mq_scn_lines::{Limit, LineFault, MqscFault};
use std::alloc::AllocError;
use thiserror::Error;

/// Why a line can't stand in a scenario.
#[derive(Clone, Copy, Debug, Error)]
pub enum Cause {
    /// It isn't written as any line that may stand there.
    #[error("Form")]
    Form,
    /// What stands for a name or a label is none.
    #[error("Name")]
    Name,
    /// A label or a manager that isn't declared.
    #[error("Unknown")]
    Unknown,
    /// What may stand once stands twice.
    #[error("Twice")]
    Twice,
    /// A number outside its range.
    #[error("Number")]
    Number,
    /// A part or an MQCONN out of order.
    #[error("Order")]
    Order,
    /// No MQSC command.
    #[error("Mqsc {}", mqsc_word(.0))]
    Mqsc(MqscFault),
    /// No entry of a rules table.
    #[error("Rules {}", rules_word(.0))]
    Rules(RulesFault),
    /// The bytes end before ENDSTEPS.
    #[error("Ending")]
    Ending,
}

/// Why a text is read as no scenario: the first line that can't stand in one, counted from 1.
#[derive(Clone, Copy, Debug, Error)]
pub enum ScenarioFault {
    /// The line at fault, and why.
    #[error("line {0}: {1}")]
    BadLine(u32, Cause),
    /// The line that passes a limit.
    #[error("line {0}: Limit {1}")]
    Limit(u32, Limit),
    #[error("there is no memory for the scenario")]
    NoMemory,
}

impl From<AllocError> for ScenarioFault {
    ghost use Rattle.std.specs.Prelude.{◌≡◌};
    ghost use Rattle.mq_scn_text.specs.declared.fault.ScenarioFault.TheVariants.{NoMemory};

    ghost from_gives = { λ _ e. e ≡ NoMemory };

    fn from(_: AllocError) -> Self {
        ScenarioFault::NoMemory
    }
}

/// The fault of a text whose line of that number has a fault.
pub fn fault_at(line: u32, fault: LineFault) -> ScenarioFault
    ensures { result ≡ fault_at line fault }
{
    match fault {
        LineFault::NoMemory => ScenarioFault::NoMemory,
        LineFault::Form => ScenarioFault::BadLine(line, Cause::Form),
        LineFault::Limit(limit) => ScenarioFault::Limit(line, limit),
        LineFault::Name => ScenarioFault::BadLine(line, Cause::Name),
        LineFault::Unknown => ScenarioFault::BadLine(line, Cause::Unknown),
        LineFault::Twice => ScenarioFault::BadLine(line, Cause::Twice),
        LineFault::Number => ScenarioFault::BadLine(line, Cause::Number),
        LineFault::Order => ScenarioFault::BadLine(line, Cause::Order),
        LineFault::Mqsc(fault) => ScenarioFault::BadLine(line, Cause::Mqsc(fault)),
    }
}

/// The word for a fault of MQSC commands.
pub fn mqsc_word(fault: &MqscFault) -> &'static str
    ensures { result.now ≡ mqsc_word fault.now }
{
    match fault {
        MqscFault::OpenQuote => "OpenQuote",
        MqscFault::OpenContinuation => "OpenContinuation",
        MqscFault::Command(ScFault::UnknownVerb(_)) => "UnknownVerb",
        MqscFault::Command(ScFault::UnknownObject(_)) => "UnknownObject",
        MqscFault::Command(ScFault::MissingName(_)) => "MissingName",
        MqscFault::Command(ScFault::UnknownKeyword(_)) => "UnknownKeyword",
        MqscFault::Command(ScFault::Repeated(_)) => "Repeated",
        MqscFault::Command(ScFault::BadValue(_)) => "BadValue",
        MqscFault::Command(ScFault::NoMemory) => "NoMemory",
    }
}

/// The word for a fault of a rules table.
pub fn rules_word(fault: &RulesFault) -> &'static str
    ensures { result.now ≡ rules_word fault.now }
{
    match fault {
        RulesFault::BadLine(_) => "BadLine",
        RulesFault::BadKeyword(_) => "BadKeyword",
        RulesFault::BadValue(_) => "BadValue",
        RulesFault::NoAction(_) => "NoAction",
        RulesFault::FwdqMissing(_) => "FwdqMissing",
        RulesFault::NoMemory => "NoMemory",
    }
}
