//! A text with every part and every kind of step.

use mq_history::{CableLine, ManagerLine, Scenario, ScriptLine, ScriptPart, Section, Step};
use mq_scn_text::read_scenario;
use std::alloc::Global;
use std::test::*;

const TEXT: &str = "* a comment
NETWORK
MOMENT 1700000000000
QMGR LONDON LOGMAX(1048576)
QMGR 'PARIS'
CABLE LON.PAR LONDON PARIS OUT DROP(2) LATE(3,5) BACK SPOIL(1)
MQSC d1 LONDON
define qlocal(q1); define ql(PARIS) +
  usage(xmitq)
ENDMQSC
RULES R1 PARIS
INPUTQ(DLQ)
ACTION(RETRY)
ENDRULES
MONITOR M1 LONDON QUEUE(INIT)

SCRIPT A LONDON
MQCONN
MQPUT1 QUEUE(Q1) TEXT('It''s') PERSIST PRTY(3)
* a comment
MQDISC
ENDSCRIPT
SCRIPT B PARIS
ENDSCRIPT
STEPS
OBEY D1
RUN A 1
RUN a
PHASE A B
PUMP 100
HANDLE R1 5
WATCH M1
SERVE M1 2
DO LONDON START CHANNEL(LON.PAR)
CUT PARIS 3
CRASH LONDON
RESTART LONDON
CLOCK 0
ENDSTEPS";

fn are_managers(managers: &[ManagerLine]) -> bool {
    match managers {
        [london, paris] => {
            london.name.text() == b"LONDON".as_slice()
                && london.log_max == 1_048_576
                && paris.log_max == 268_435_456
        }
        _ => false,
    }
}

fn is_cable(cables: &[CableLine]) -> bool {
    match cables {
        [cable] => {
            cable.sender == 0
                && cable.receiver == 1
                && cable.out.len() == 2
                && cable.back.len() == 1
        }
        _ => false,
    }
}

fn is_section(sections: &[Section]) -> bool {
    match sections {
        [section] => section.label.text() == b"D1".as_slice() && section.commands.len() == 2,
        _ => false,
    }
}

/// Whether the moment, the managers, the cable, the section, the rules and the monitors are those of the text.
fn is_headed(scenario: &Scenario) -> bool {
    scenario.moment == Some(1_700_000_000_000)
        && are_managers(scenario.managers.as_slice())
        && is_cable(scenario.cables.as_slice())
        && is_section(scenario.sections.as_slice())
        && scenario.rules.len() == 1
        && scenario.monitors.len() == 1
}

fn are_lines(lines: &[ScriptLine]) -> bool {
    matches!(
        lines,
        [
            ScriptLine::Mqconn(_),
            ScriptLine::Mqput1 { .. },
            ScriptLine::Mqdisc
        ]
    )
}

/// Whether the first of two scripts has these lines, and the second none.
fn are_scripts(scripts: &[ScriptPart]) -> bool {
    match scripts {
        [a, b] => b.lines.is_empty() && are_lines(a.lines.as_slice()),
        _ => false,
    }
}

fn are_turns(steps: &[Step]) -> bool {
    matches!(
        steps,
        [
            _,
            _,
            _,
            _,
            Step::Pump(100),
            Step::Handle(0, 5),
            Step::Watch(0),
            Step::Serve(0, 2),
            ..
        ]
    )
}

fn are_an_operators(steps: &[Step]) -> bool {
    matches!(
        steps,
        [
            ..,
            Step::Do(0, _),
            Step::Cut(1, 3),
            Step::Crash(0),
            Step::Restart(0),
            Step::Clock(0)
        ]
    )
}

/// What is asked of the text.
enum Asked {
    Heading,
    Scripts,
    /// The steps that take turns.
    Turns,
    /// The steps that an operator takes.
    Operator,
}

fn has(scenario: &Scenario, asked: &Asked) -> bool {
    match asked {
        Asked::Heading => is_headed(scenario),
        Asked::Scripts => are_scripts(scenario.scripts.as_slice()),
        Asked::Turns => are_turns(scenario.steps.as_slice()),
        Asked::Operator => are_an_operators(scenario.steps.as_slice()),
    }
}

/// Whether the text is read, and is as it is asked there.
fn is_read(alloc: Global, asked: &Asked) -> bool {
    match read_scenario(alloc, TEXT.as_bytes()) {
        Ok(scenario) => has(&scenario, asked),
        Err(_) => false,
    }
}

#[test]
fn every_part_of_a_scenario_is_read(rt: HostRuntime) {
    assert!(rt; is_read(rt.alloc(), &Asked::Heading));
}

#[test]
fn lines_of_scripts_are_read(rt: HostRuntime) {
    assert!(rt; is_read(rt.alloc(), &Asked::Scripts));
}

#[test]
fn steps_that_take_turns_are_read(rt: HostRuntime) {
    assert!(rt; is_read(rt.alloc(), &Asked::Turns));
}

#[test]
fn steps_that_an_operator_takes_are_read(rt: HostRuntime) {
    assert!(rt; is_read(rt.alloc(), &Asked::Operator));
}
