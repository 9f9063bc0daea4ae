//! One MQSC command behind a word.

ghost use Rattle.std.specs.Prelude.{◌≡◌};
ghost use Rattle.mq_scn_lines.specs.Faults.{Reads};
ghost use Rattle.mq_scn_script.specs.Commands.{fault_of_text, fault_of_line, one_command, command_in};

use mq_sc_lex::{LexFault, Line, commands};
use mq_sc_parse::{Command, ScFault, parse};
use mq_scn_lines::{LineFault, MqscFault};
use std::alloc::Global;

/// What is wrong with a text that is none of commands.
pub fn fault_of_text(fault: LexFault) -> LineFault
    ensures { result ≡ fault_of_text fault }
{
    match fault {
        LexFault::OpenQuote(_) => LineFault::Mqsc(MqscFault::OpenQuote),
        LexFault::OpenContinuation => LineFault::Mqsc(MqscFault::OpenContinuation),
        LexFault::NoMemory => LineFault::NoMemory,
    }
}

/// What is wrong with a line that is no command.
pub fn fault_of_line(fault: ScFault) -> LineFault
    ensures { result ≡ fault_of_line fault }
{
    match fault {
        ScFault::NoMemory => LineFault::NoMemory,
        ScFault::UnknownVerb(_)
        | ScFault::UnknownObject(_)
        | ScFault::MissingName(_)
        | ScFault::UnknownKeyword(_)
        | ScFault::Repeated(_)
        | ScFault::BadValue(_) => LineFault::Mqsc(MqscFault::Command(fault)),
    }
}

fn one_command(alloc: Global, lines: &[Line]) -> Result<Command, LineFault>
    ensures { Reads result (one_command lines.now) }
{
    match lines {
        [line] => match parse(alloc, line) {
            Ok(command) => Ok(command),
            Err(fault) => Err(fault_of_line(fault)),
        },
        _ => Err(LineFault::Form),
    }
}

/// The one command that a text is.
///
/// # Errors
///
/// `Mqsc` where a quote or the line is left open, or the line is no command; `Form` where there is no command or more
/// than one; `NoMemory`.
pub fn command_in(alloc: Global, text: &[u8]) -> Result<Command, LineFault>
    ensures { Reads result (command_in text.now) }
{
    match commands(alloc, text) {
        Ok(lines) => one_command(alloc, lines.as_slice()),
        Err(fault) => Err(fault_of_text(fault)),
    }
}
