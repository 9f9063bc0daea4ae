//! mq_sc_apply: what commands answer and change.

ghost use Rattle.std.specs.Prelude.{false, ◌≡◌};
ghost use Rattle.mq_sc_apply.specs.Uses.{Uses};

use crate::fixture::name_of;
use mq_base::{ChName, Items, QName};
use mq_calls::{ScRefusal, Shown};
use mq_objects::{
    Alter, Command, Define, Defs, Delete, Display, Keyword, Setting, Subject, Subjects, Usage,
};
use mq_sc_apply::{InUse, apply};
use std::alloc::{AllocError, Global};
use std::test::*;

/// A manager of which each queue is on a path, or has rows.
#[derive(Clone, Copy)]
struct Busy {
    on_path: bool,
    rows: bool,
}

impl InUse for Busy {
    ghost facts = { λ b. record { on_path = λ _. b.on_path; defxmitq_on_path = b.on_path; sending = λ _. false; channel_busy = λ _. false; has_rows = λ _. b.rows; depth = λ _. 7; trigger_off = λ _. false } };

    fn on_path(&self, _name: &QName) -> bool {
        self.on_path
    }

    fn defxmitq_on_path(&self) -> bool {
        self.on_path
    }

    fn sending(&self, _name: &QName) -> bool {
        false
    }

    fn channel_busy(&self, _name: &ChName) -> bool {
        false
    }

    fn has_rows(&self, _name: &QName) -> bool {
        self.rows
    }

    fn depth(&self, _name: &QName) -> u64 {
        7
    }

    fn trigger_off(&self, _name: &QName) -> bool {
        false
    }
}

fn word_of(refusal: ScRefusal) -> &'static [u8] {
    match refusal {
        ScRefusal::Exists => b"Exists",
        ScRefusal::Missing => b"Missing",
        ScRefusal::BadValue(_) => b"BadValue",
        ScRefusal::InUse => b"InUse",
        ScRefusal::NotEmpty => b"NotEmpty",
        _ => b"another",
    }
}

/// The first line shown, or OK.
fn first_line(shown: &Shown) -> &[u8] {
    match shown.lines.as_slice() {
        [line, ..] => line.as_slice(),
        [] => b"OK",
    }
}

fn is_answer(
    alloc: Global,
    defs: &mut Defs,
    busy: &Busy,
    command: &Command,
    wanted: &[u8],
) -> bool {
    match apply(alloc, defs, &name_of("LONDON"), command, busy) {
        Ok(shown) => first_line(&shown) == wanted,
        Err(refusal) => word_of(refusal) == wanted,
    }
}

fn settings_of(alloc: Global, setting: Setting) -> Result<Items<Setting>, AllocError> {
    let mut settings = Items::new(alloc);
    settings.push(setting)?;
    Ok(settings)
}

fn q1() -> Subject {
    Subject::Local(name_of("Q1"))
}

fn define(alloc: Global, replace: bool, setting: Setting) -> Result<Command, AllocError> {
    let settings = settings_of(alloc, setting)?;
    Ok(Command::Define(Define {
        subject: q1(),
        replace,
        settings,
    }))
}

fn alter(alloc: Global, force: bool, setting: Setting) -> Result<Command, AllocError> {
    let settings = settings_of(alloc, setting)?;
    Ok(Command::Alter(Alter {
        subject: q1(),
        force,
        settings,
    }))
}

fn display(
    alloc: Global,
    subjects: Subjects,
    name: &str,
    any_end: bool,
    asked: &[Keyword],
) -> Result<Command, AllocError> {
    let name = Items::from_slice(alloc, name.as_bytes())?;
    let asked = Items::from_slice(alloc, asked)?;
    Ok(Command::Display(Display {
        subjects,
        name,
        any_end,
        asked,
    }))
}

/// A command.
enum Act {
    /// Q1 is defined with a MAXDEPTH of 10; whether it is replaced.
    Define(bool),
    /// PUT(DISABLED) for Q1.
    Disable,
    /// USAGE(XMITQ) for Q1, by force or not.
    Transmit(bool),
    /// The depth of Q1 and whether it takes messages.
    Show,
    /// How many messages the queues have whose names begin with Q.
    ShowDepths,
    Delete,
    /// As an alias.
    DeleteAlias,
}

fn command_of(alloc: Global, act: &Act) -> Result<Command, AllocError> {
    match *act {
        Act::Define(replace) => define(alloc, replace, Setting::MaxDepth(10)),
        Act::Disable => alter(alloc, false, Setting::PutEnabled(false)),
        Act::Transmit(force) => alter(alloc, force, Setting::Usage(Usage::Transmission)),
        Act::Show => {
            let asked = [Keyword::Put, Keyword::MaxDepth];
            display(alloc, Subjects::Locals, "Q1", false, &asked)
        }
        Act::ShowDepths => display(alloc, Subjects::Queues, "Q", true, &[Keyword::CurDepth]),
        Act::Delete => Ok(Command::Delete(Delete { subject: q1() })),
        Act::DeleteAlias => Ok(Command::Delete(Delete {
            subject: Subject::Alias(name_of("Q1")),
        })),
    }
}

/// Whether a command has this answer.
fn meets(alloc: Global, defs: &mut Defs, busy: &Busy, act: &Act, wanted: &[u8]) -> bool {
    match command_of(alloc, act) {
        Ok(command) => is_answer(alloc, defs, busy, &command, wanted),
        Err(_) => false,
    }
}

/// A command, and the first line or the refusal that it has as an answer.
type Step = (Act, &'static str);

/// The first step, from 0, that has another answer, where nothing was defined before.
fn first_wrong(alloc: Global, busy: &Busy, steps: &[Step]) -> Option<usize> {
    let mut defs = Defs::new(alloc);
    let mut wrong = None;
    for (place, (act, wanted)) in steps.iter().enumerate() {
        if wrong.is_none() && !meets(alloc, &mut defs, busy, act, wanted.as_bytes()) {
            wrong = Some(place);
        }
    }
    wrong
}

const IDLE: Busy = Busy {
    on_path: false,
    rows: false,
};

const BUSY: Busy = Busy {
    on_path: true,
    rows: true,
};

const ALTERED: [Step; 4] = [
    (Act::Define(false), "OK"),
    (Act::Define(false), "Exists"),
    (Act::Disable, "OK"),
    (Act::Show, "QLOCAL(Q1) MAXDEPTH(10) PUT(DISABLED)"),
];

#[test]
fn a_queue_is_defined_and_altered(rt: HostRuntime) {
    assert_eq!(rt; first_wrong(rt.alloc(), &IDLE, &ALTERED), None);
}

const SHOWN: [Step; 3] = [
    (Act::Define(false), "OK"),
    (Act::ShowDepths, "QLOCAL(Q1) CURDEPTH(7)"),
    (Act::DeleteAlias, "Missing"),
];

#[test]
fn what_there_is_is_shown(rt: HostRuntime) {
    assert_eq!(rt; first_wrong(rt.alloc(), &IDLE, &SHOWN), None);
}

const IN_USE: [Step; 5] = [
    (Act::Define(false), "OK"),
    (Act::Transmit(false), "InUse"),
    (Act::Transmit(true), "NotEmpty"),
    (Act::Define(true), "OK"),
    (Act::Delete, "InUse"),
];

#[test]
fn what_is_in_use_stays(rt: HostRuntime) {
    assert_eq!(rt; first_wrong(rt.alloc(), &BUSY, &IN_USE), None);
}
