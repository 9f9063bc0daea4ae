//! mq_hints: a typo in each kind of line tells where it is and what may stand there.

use mq_hints::fault_text;
use mq_scn_text::read_scenario;
use std::alloc::{AllocError, Global};
use std::test::*;

const TEXT: &str = "NETWORK
QMGR LONDON
QMGR PARIS LOGMAX(1048576)
CABLE LON.PAR LONDON PARIS OUT DROP(2)
MQSC D1 LONDON
DEFINE QLOCAL(Q1)
ENDMQSC
RULES R1 LONDON
REASON(2053) ACTION(RETRY)
ENDRULES
SCRIPT A LONDON
MQCONN
MQOPEN H1 QUEUE(Q1) SHARED OUTPUT
MQPUT H1 TEXT('HELLO') PERSIST
MQGET H1 WAIT(100)
MQSC DISPLAY QLOCAL(Q1)
ENDSCRIPT
MONITOR M1 LONDON QUEUE(INIT)
STEPS
OBEY D1
RUN A 2
DO PARIS START CHANNEL(LON.PAR)
PUMP 100
CRASH LONDON
ENDSTEPS
";

/// The text with a line in place of another.
fn with_line(alloc: Global, old: &str, new: &str) -> Result<String, AllocError> {
    let mut text = String::new(alloc);
    for line in TEXT.lines() {
        if line.as_bytes() == old.as_bytes() {
            text.push_str(new)?;
        } else {
            text.push_str(line)?;
        }
        text.push_str("\n")?;
    }
    Ok(text)
}

/// What is told of a text; nothing where it is a scenario.
fn told(alloc: Global, text: &str) -> Result<String, AllocError> {
    match read_scenario(alloc, text.as_bytes()) {
        Ok(_) => Ok(String::new(alloc)),
        Err(fault) => fault_text(alloc, text.as_bytes(), fault),
    }
}

/// A line, what stands in its place, and what is told of that.
const TYPOS: [(&str, &str, &str); 37] = [
    (
        "CABLE LON.PAR LONDON PARIS OUT DROP(2)",
        "CABLE LON.PAR LONDON PARIS OUT DROP(2) BACK DORP(1)",
        "line 4: Form: 'DORP(1)' can't stand here: the line is CABLE ",
    ),
    (
        "CABLE LON.PAR LONDON PARIS OUT DROP(2)",
        "CABLE LON.PAR LONDON PARIS OUT DROP(2) BACK LATE(3,3)",
        "line 4: Number: 'LATE(3,3)' is out of range: the line is CABLE ",
    ),
    (
        "MQOPEN H1 QUEUE(Q1) SHARED OUTPUT",
        "MQOPEN H1 QUEUE(Q1) SHARED OUTPUT EXCLUSIVE",
        "line 13: Form: 'EXCLUSIVE' can't stand here: the line is MQOPEN ",
    ),
    (
        "MQPUT H1 TEXT('HELLO') PERSIST",
        "MQPUT H1 TEXT('HELLO') FORMAT('LONGERTHAN8') PERSIST",
        "line 14: Form: 'FORMAT('LONGERTHAN8')' can't stand here: the ",
    ),
    (
        "MQGET H1 WAIT(100)",
        "MQGET H1 WAIT(100) ROOM(x)",
        "line 15: Form: 'ROOM(x)' can't stand here: the line is MQGET ",
    ),
    (
        "MQSC DISPLAY QLOCAL(Q1)",
        "MQSC ALTER QMGR DEADQ((DLQ)",
        "line 16: Mqsc UnknownKeyword: '(' can't stand here: ",
    ),
    (
        "NETWORK",
        "NETWORK 1",
        "line 1: Form: '1' can't stand here: the line is NETWORK\nNETWORK 1\n",
    ),
    (
        "QMGR LONDON",
        "QMRG LONDON",
        "line 2: Form: 'QMRG' can't stand here: a MOMENT or a QMGR line comes next\n",
    ),
    (
        "QMGR LONDON",
        "QMGR LON DON",
        "line 2: Form: 'DON' can't stand here: the line is QMGR name, ",
    ),
    (
        "QMGR LONDON",
        "QMGR LOND?N",
        "line 2: Name: 'LOND?N' is no name: ",
    ),
    (
        "QMGR PARIS LOGMAX(1048576)",
        "QMGR LONDON",
        "line 3: Twice: 'LONDON' stands twice: ",
    ),
    (
        "QMGR PARIS LOGMAX(1048576)",
        "QMGR PARIS LOGMAX(1)",
        "line 3: Limit LogMax: LOGMAX is 4,096 to 268,435,456\n",
    ),
    (
        "CABLE LON.PAR LONDON PARIS OUT DROP(2)",
        "CABLE LON.PAR LONDON PARS",
        "line 4: Unknown: 'PARS' is unknown: no QMGR line above has that name\n",
    ),
    (
        "MQSC D1 LONDON",
        "MQSC D1",
        "line 5: Form: the line is MQSC label manager\n",
    ),
    (
        "DEFINE QLOCAL(Q1)",
        "DEFIN QLOCAL(Q1)",
        "line 6: Mqsc UnknownVerb: 'DEFIN' can't stand here: a command begins with ALTER, ",
    ),
    (
        "DEFINE QLOCAL(Q1)",
        "DEFINE QLOCL(Q1)",
        "line 6: Mqsc UnknownObject: 'QLOCL' can't stand here: ",
    ),
    (
        "DEFINE QLOCAL(Q1)",
        "DEFINE QLOCAL(Q1) MAXDEPT(3)",
        "line 6: Mqsc UnknownKeyword: 'MAXDEPT' can't stand here: ",
    ),
    (
        "DEFINE QLOCAL(Q1)",
        "DEFINE QLOCAL('Q1)",
        "line 6: Mqsc OpenQuote: a quote isn't closed on its command; ",
    ),
    (
        "REASON(2053) ACTION(RETRY)",
        "REASON(2053) ACTION(RETRI)",
        "line 9: Rules BadValue: a value of the entry that begins here is none that its keyword takes\n",
    ),
    (
        "SCRIPT A LONDON",
        "SCRIPT D1 LONDON",
        "line 11: Twice: 'D1' stands twice: ",
    ),
    (
        "SCRIPT A LONDON",
        "SCRIPT LONGLABEL LONDON",
        "line 11: Name: 'LONGLABEL' is no name: ",
    ),
    (
        "MQCONN",
        "MQCON",
        "line 12: Form: 'MQCON' can't stand here: a line of a script begins with MQCONN, ",
    ),
    (
        "MQCONN",
        "mqconn",
        "line 12: Form: 'mqconn' can't stand here: ",
    ),
    (
        "MQCONN",
        "MQCONN\r",
        "line 12: Form: the line ends with a carriage return, ",
    ),
    (
        "MQOPEN H1 QUEUE(Q1) SHARED OUTPUT",
        "MQOPEN H1 QUEUE(Q1) SHARD OUTPUT",
        "line 13: Form: 'SHARD' can't stand here: the line is MQOPEN ",
    ),
    (
        "MQOPEN H1 QUEUE(Q1) SHARED OUTPUT",
        "MQOPEN H1 QUEUE(a?)",
        "line 13: Name: 'QUEUE(a?)' is no name: ",
    ),
    (
        "MQPUT H1 TEXT('HELLO') PERSIST",
        "MQPUT1 QUEUE(Q1) TEXT('A') PUMP",
        "line 14: Form: 'PUMP' can't stand here: the line is MQPUT1 ",
    ),
    (
        "MQPUT H1 TEXT('HELLO') PERSIST",
        "MQPUT H1",
        "line 14: Form: the line is MQPUT handle, then TEXT('text') or ",
    ),
    (
        "MQPUT H1 TEXT('HELLO') PERSIST",
        "MQPUT H1 TEXT('HELLO)",
        "line 14: Form: a quote isn't closed; ",
    ),
    (
        "MQGET H1 WAIT(100)",
        "MQGET H1 WAIT(1000000000)",
        "line 15: Limit Clock: CLOCK and WAIT take 0 to 999,999,999 milliseconds\n",
    ),
    (
        "MQSC DISPLAY QLOCAL(Q1)",
        "MQSC DISPLY QLOCAL(Q1)",
        "line 16: Mqsc UnknownVerb: 'DISPLY' can't stand here: ",
    ),
    (
        "MQGET H1 WAIT(100)",
        "MQCONN",
        "line 15: Order: an MQCONN behind another needs an MQDISC between them\n",
    ),
    (
        "MONITOR M1 LONDON QUEUE(INIT)",
        "MONITOR M1 LONDON INIT",
        "line 18: Form: 'INIT' can't stand here: the line is MONITOR label manager QUEUE(name)\n",
    ),
    (
        "OBEY D1",
        "OBEY D2",
        "line 20: Unknown: 'D2' is unknown: no MQSC section above has that label\n",
    ),
    (
        "DO PARIS START CHANNEL(LON.PAR)",
        "DO PARIS STRT CHANNEL(LON.PAR)",
        "line 22: Mqsc UnknownVerb: 'STRT' can't stand here: ",
    ),
    (
        "PUMP 100",
        "PUMP 0",
        "line 23: Limit Turns: PUMP, HANDLE and SERVE take 1 to 100,000 turns\nPUMP 0\n",
    ),
    (
        "ENDSTEPS",
        "",
        "line 26: Ending: the text ends here, and ENDSTEPS is missing\n",
    ),
];

/// Whether what is told of the text with one line in place of another begins so.
fn is_told(alloc: Global, old: &str, new: &str, wanted: &str) -> bool {
    let Ok(text) = with_line(alloc, old, new) else {
        return false;
    };
    match told(alloc, text.as_str()) {
        Ok(told) => told.starts_with(wanted),
        Err(_) => false,
    }
}

/// The first row, from 0, of which something else is told.
fn first_wrong(alloc: Global) -> Option<usize> {
    for (row, (old, new, wanted)) in TYPOS.iter().enumerate() {
        if !is_told(alloc, old, new, wanted) {
            return Some(row);
        }
    }
    None
}

#[test]
fn a_typo_tells_its_line_its_word_and_what_may_stand_there(rt: HostRuntime) -> Result<(), Fail> {
    assert_eq!(rt; told(rt.alloc(), TEXT)?.as_str(), "");
    assert_eq!(rt; first_wrong(rt.alloc()), None);
    Ok(())
}
