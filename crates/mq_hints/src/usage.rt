//! How each line of a scenario is written (docs/SCENARIO.md).

/// What may stand at a place of a line.
#[derive(Clone, Copy, PartialEq, Eq)]
pub enum Slot {
    /// Nothing more.
    End,
    /// A label of the line's own.
    Label,
    /// The label of a section, a rules table, a script or a monitor that stands above.
    Section,
    Table,
    Script,
    Monitor,
    /// The name of a manager that stands above.
    Manager,
    /// A name of the line's own.
    Name,
    /// A name, or nothing.
    MaybeName,
    Channel,
    /// QUEUE(name).
    Queue,
    /// QUEUE(name) or TOREPLY.
    Target,
    /// QMGR(name), or nothing.
    MaybeManager,
    /// LOGMAX(n), or nothing.
    MaybeLogMax,
    /// TEXT('text') or FILL(n,'c').
    Body,
    Number,
    /// A number, or nothing.
    MaybeNumber,
    /// Options to the end of the line.
    OpenOptions,
    PutOptions,
    GetOptions,
    /// Labels of scripts to the end of the line.
    Scripts,
    /// OUT, BACK and faults of a cable, to the end of the line.
    CableFaults,
    /// Whatever stands there.
    Rest,
}

/// A line that begins with a word: how it is written, and what may stand at its places behind the word.
#[derive(Clone, Copy)]
pub struct Usage {
    pub text: &'static str,
    pub slots: [Slot; 5],
}

fn written(text: &'static str, one: Slot, two: Slot, three: Slot, four: Slot) -> Usage {
    Usage {
        text,
        slots: [one, two, three, four, Slot::End],
    }
}

fn alone(text: &'static str) -> Usage {
    written(text, Slot::End, Slot::End, Slot::End, Slot::End)
}

/// How the line of a part is written; none where no part begins with the word.
pub fn part_usage(word: &[u8]) -> Option<Usage> {
    if word == b"NETWORK".as_slice() {
        return Some(alone("the line is NETWORK"));
    }
    if word == b"MOMENT".as_slice() {
        return Some(written(
            "the line is MOMENT n, n milliseconds since 1970, 0 to 253300000000000",
            Slot::Number,
            Slot::End,
            Slot::End,
            Slot::End,
        ));
    }
    if word == b"QMGR".as_slice() {
        return Some(written(
            "the line is QMGR name, with LOGMAX(n) or without, n 4096 to 268435456",
            Slot::Name,
            Slot::MaybeLogMax,
            Slot::End,
            Slot::End,
        ));
    }
    if word == b"CABLE".as_slice() {
        return Some(written(
            "the line is CABLE channel sender receiver, then OUT and faults, BACK and faults, or neither; a fault is DROP(k), LATE(k,j), COPY(k,j) or SPOIL(k)",
            Slot::Channel,
            Slot::Manager,
            Slot::Manager,
            Slot::CableFaults,
        ));
    }
    section_usage(word)
}

fn section_usage(word: &[u8]) -> Option<Usage> {
    if word == b"MQSC".as_slice() {
        return Some(written(
            "the line is MQSC label manager",
            Slot::Label,
            Slot::Manager,
            Slot::End,
            Slot::End,
        ));
    }
    if word == b"RULES".as_slice() {
        return Some(written(
            "the line is RULES label manager",
            Slot::Label,
            Slot::Manager,
            Slot::End,
            Slot::End,
        ));
    }
    if word == b"SCRIPT".as_slice() {
        return Some(written(
            "the line is SCRIPT label manager",
            Slot::Label,
            Slot::Manager,
            Slot::End,
            Slot::End,
        ));
    }
    if word == b"MONITOR".as_slice() {
        return Some(written(
            "the line is MONITOR label manager QUEUE(name)",
            Slot::Label,
            Slot::Manager,
            Slot::Queue,
            Slot::End,
        ));
    }
    if word == b"STEPS".as_slice() {
        return Some(alone("the line is STEPS"));
    }
    None
}

/// How a line of a script is written; none where no such line begins with the word.
pub fn script_usage(word: &[u8]) -> Option<Usage> {
    if word == b"MQCONN".as_slice() {
        return Some(written(
            "the line is MQCONN, with a manager's name or without",
            Slot::MaybeName,
            Slot::End,
            Slot::End,
            Slot::End,
        ));
    }
    if word == b"MQDISC".as_slice()
        || word == b"MQCMIT".as_slice()
        || word == b"MQBACK".as_slice()
    {
        return Some(alone("nothing stands behind MQDISC, MQCMIT and MQBACK"));
    }
    if word == b"MQOPEN".as_slice() {
        return Some(written(
            "the line is MQOPEN handle QUEUE(name), with QMGR(name) or without, and then SHARED or EXCLUSIVE, BROWSE, OUTPUT as they are wanted",
            Slot::Label,
            Slot::Queue,
            Slot::MaybeManager,
            Slot::OpenOptions,
        ));
    }
    if word == b"MQCLOSE".as_slice() {
        return Some(written(
            "the line is MQCLOSE handle",
            Slot::Label,
            Slot::End,
            Slot::End,
            Slot::End,
        ));
    }
    call_usage(word)
}

fn call_usage(word: &[u8]) -> Option<Usage> {
    if word == b"MQPUT".as_slice() {
        return Some(written(
            "the line is MQPUT handle, then TEXT('text') or FILL(n,'c'), then options: SYNC, PRTY(n), PERSIST or NOPERSIST, EXPIRY(n), MSGID('t'), CORREL('t'), MSGTYPE(n), REPLYQ(name), REPLYQM(name), FORMAT('t'), FEEDBACK(n), IDDATA('t')",
            Slot::Label,
            Slot::Body,
            Slot::PutOptions,
            Slot::End,
        ));
    }
    if word == b"MQPUT1".as_slice() {
        return Some(written(
            "the line is MQPUT1 QUEUE(name), with QMGR(name) or without, or MQPUT1 TOREPLY; then TEXT('text') or FILL(n,'c'), then options as in MQPUT",
            Slot::Target,
            Slot::MaybeManager,
            Slot::Body,
            Slot::PutOptions,
        ));
    }
    if word == b"MQGET".as_slice() {
        return Some(written(
            "the line is MQGET handle, then options: SYNC, one of FIRST, NEXT, CURSOR and UNDER, MSGID('t'), CORREL('t'), ROOM(n), TRUNC, WAIT(ms)",
            Slot::Label,
            Slot::GetOptions,
            Slot::End,
            Slot::End,
        ));
    }
    other_usage(word)
}

fn other_usage(word: &[u8]) -> Option<Usage> {
    if word == b"MQSC".as_slice() {
        return Some(written(
            "the line is MQSC and one command",
            Slot::Rest,
            Slot::End,
            Slot::End,
            Slot::End,
        ));
    }
    if word == b"CRASH".as_slice() || word == b"RESTART".as_slice() {
        return Some(alone(
            "in a script nothing stands behind CRASH and RESTART: they mean its own manager",
        ));
    }
    if word == b"CUT".as_slice() {
        return Some(written(
            "the line is CUT k, k 1 to 1000",
            Slot::Number,
            Slot::End,
            Slot::End,
            Slot::End,
        ));
    }
    None
}

/// How a step is written; none where no step begins with the word.
pub fn step_usage(word: &[u8]) -> Option<Usage> {
    if word == b"OBEY".as_slice() {
        return Some(written(
            "the line is OBEY label, of a section",
            Slot::Section,
            Slot::End,
            Slot::End,
            Slot::End,
        ));
    }
    if word == b"DO".as_slice() {
        return Some(written(
            "the line is DO manager and one command",
            Slot::Manager,
            Slot::Rest,
            Slot::End,
            Slot::End,
        ));
    }
    if word == b"RUN".as_slice() {
        return Some(written(
            "the line is RUN label, of a script, with a number of lines or without",
            Slot::Script,
            Slot::MaybeNumber,
            Slot::End,
            Slot::End,
        ));
    }
    if word == b"PHASE".as_slice() {
        return Some(written(
            "the line is PHASE and the labels of two or more scripts",
            Slot::Scripts,
            Slot::End,
            Slot::End,
            Slot::End,
        ));
    }
    turns_usage(word)
}

fn turns_usage(word: &[u8]) -> Option<Usage> {
    if word == b"PUMP".as_slice() {
        return Some(written(
            "the line is PUMP n, n 1 to 100000",
            Slot::Number,
            Slot::End,
            Slot::End,
            Slot::End,
        ));
    }
    if word == b"HANDLE".as_slice() {
        return Some(written(
            "the line is HANDLE label n, of a rules table, n 1 to 100000",
            Slot::Table,
            Slot::Number,
            Slot::End,
            Slot::End,
        ));
    }
    if word == b"WATCH".as_slice() {
        return Some(written(
            "the line is WATCH label, of a monitor",
            Slot::Monitor,
            Slot::End,
            Slot::End,
            Slot::End,
        ));
    }
    if word == b"SERVE".as_slice() {
        return Some(written(
            "the line is SERVE label n, of a monitor, n 1 to 100000",
            Slot::Monitor,
            Slot::Number,
            Slot::End,
            Slot::End,
        ));
    }
    manager_usage(word)
}

fn manager_usage(word: &[u8]) -> Option<Usage> {
    if word == b"CRASH".as_slice() || word == b"RESTART".as_slice() {
        return Some(written(
            "the line is CRASH manager or RESTART manager",
            Slot::Manager,
            Slot::End,
            Slot::End,
            Slot::End,
        ));
    }
    if word == b"CUT".as_slice() {
        return Some(written(
            "the line is CUT manager k, k 1 to 1000",
            Slot::Manager,
            Slot::Number,
            Slot::End,
            Slot::End,
        ));
    }
    if word == b"CLOCK".as_slice() {
        return Some(written(
            "the line is CLOCK ms, 0 to 999999999",
            Slot::Number,
            Slot::End,
            Slot::End,
            Slot::End,
        ));
    }
    None
}
