//! The top call: each status by its cause, and what is told of it.

use crate::fixture::{call, put_disk};
use mq_base::{MemSink, MemSource};
use mq_disk::{Image, MemDisk, MemShelf};
use mq_gate::OpenGate;
use std::alloc::{AllocError, Global};
use std::test::*;

const HEAD: &str = "NETWORK
QMGR LONDON
MQSC D1 LONDON
DEFINE QLOCAL(Q1)
ENDMQSC
SCRIPT A LONDON
MQCONN
";

const TAIL: &str = "ENDSCRIPT
STEPS
OBEY D1
RUN A
CRASH LONDON
RESTART LONDON
ENDSTEPS
";

/// A call of the program: a word, the script's lines, the calls of source, sink, shelf and disk that fail, the bytes of the
/// manager's log, and what is wanted.
#[derive(Clone, Copy)]
struct Case {
    word: &'static str,
    script: &'static str,
    failing_read: Option<u64>,
    failing_write: Option<u64>,
    failing_take: Option<u64>,
    failing_disk: Option<u64>,
    log: &'static [u8],
    status: u8,
    /// A piece of the output; none where nothing is written.
    piece: Option<&'static str>,
    /// With what begins what is told; none where nothing is.
    told: Option<&'static str>,
}

fn plain(
    word: &'static str,
    script: &'static str,
    status: u8,
    piece: Option<&'static str>,
) -> Case {
    Case {
        word,
        script,
        failing_read: None,
        failing_write: None,
        failing_take: None,
        failing_disk: None,
        log: b"",
        status,
        piece,
        told: None,
    }
}

const PUT_AND_GET: &str = "MQOPEN H1 QUEUE(Q1) SHARED OUTPUT\nMQPUT H1 TEXT('HELLO')\nMQGET H1\n";

const PUT_THAT_LASTS: &str = "MQOPEN H1 QUEUE(Q1) OUTPUT\nMQPUT H1 TEXT('HELLO') PERSIST\n";

fn cases() -> [Case; 14] {
    [
        plain(
            "run",
            PUT_AND_GET,
            0,
            Some("0004 MQGET 0 0 ID 1.1.1 LEN 5 BYTES 'HELLO'\n"),
        ),
        plain(
            "run",
            PUT_THAT_LASTS,
            0,
            Some(
                "Q1 DEPTH 1\n  1.1.1 PRTY 0 PERSIST YES LEN 5 FREE\nCHANNELS\nLEDGER\nLONDON Q1 1.1.1\nSTATUS 0\n",
            ),
        ),
        plain("x", PUT_AND_GET, 1, None),
        plain("check", "", 0, Some("CHECK OK\n")),
        plain(
            "run",
            "MQOPEN H1 QUEUE(Q2) SHARED OUTPUT\nMQPUT H1 TEXT('')\n",
            0,
            Some("0002 MQOPEN 2 2085\n0003 MQPUT 2 2019\n"),
        ),
        Case {
            told: Some("line 8: Form: 'PUT' can't stand here: "),
            ..plain("run", "PUT H1\n", 2, None)
        },
        Case {
            told: Some("line 8: Name: 'QUEUE(a?)' is no name: "),
            ..plain("check", "MQOPEN H1 QUEUE(a?)\n", 2, None)
        },
        Case {
            failing_read: Some(1),
            ..plain("run", PUT_AND_GET, 3, None)
        },
        Case {
            failing_write: Some(0),
            ..plain("run", PUT_AND_GET, 4, None)
        },
        Case {
            failing_write: Some(0),
            ..plain("check", PUT_AND_GET, 4, None)
        },
        Case {
            failing_take: Some(0),
            ..plain("run", PUT_AND_GET, 5, None)
        },
        Case {
            failing_disk: Some(0),
            ..plain("run", PUT_AND_GET, 5, None)
        },
        Case {
            failing_disk: Some(9),
            ..plain("run", PUT_THAT_LASTS, 5, Some("STATUS 5\n"))
        },
        Case {
            log: b"\xa5\0",
            ..plain("run", PUT_AND_GET, 9, None)
        },
    ]
}

fn calls(alloc: Global, call: Option<u64>) -> Result<Vec<u64>, AllocError> {
    let mut calls = Vec::new(alloc);
    if let Some(call) = call {
        calls.push(call)?;
    }
    Ok(calls)
}

fn source(alloc: Global, case: &Case) -> Result<MemSource, AllocError> {
    let mut text = String::from_str(alloc, HEAD)?;
    text.push_str(case.script)?;
    text.push_str(TAIL)?;
    Ok(MemSource::new(text.into_bytes(), calls(alloc, case.failing_read)?))
}

fn shelf(alloc: Global, case: &Case) -> Result<MemShelf<MemDisk>, AllocError> {
    let mut shelf = MemShelf::new(alloc, calls(alloc, case.failing_take)?);
    let failing = calls(alloc, case.failing_disk)?;
    put_disk(
        alloc,
        &mut shelf,
        b"LONDON",
        case.log,
        65_536,
        Image::Kept,
        failing,
    );
    Ok(shelf)
}

/// The large run of a number: the words, the status, and the line.
const SOAKS: [(&str, &str, u8, &str); 9] = [
    ("soak", "1", 0, "SOAK 1 PUTS 20 M1 0 M2 0 M3 20 STATUS 0\n"),
    (
        "soak",
        "20",
        0,
        "SOAK 20 PUTS 400 M1 0 M2 0 M3 400 STATUS 0\n",
    ),
    ("soak", "0", 1, ""),
    ("soak", "1001", 1, ""),
    ("soak", "01", 1, ""),
    ("soak", "", 1, ""),
    ("soak", "+1", 1, ""),
    ("run", "1", 1, ""),
    ("SOAK", "1", 1, ""),
];

#[test]
fn a_number_makes_a_large_run(rt: HostRuntime) -> Result<(), Fail> {
    for (word, number, status, line) in &SOAKS {
        let mut source = MemSource::new(Vec::new(rt.alloc()), Vec::new(rt.alloc()));
        let mut sink = MemSink::new(rt.alloc(), 4096, Vec::new(rt.alloc()))?;
        let mut shelf = MemShelf::new(rt.alloc(), Vec::new(rt.alloc()));
        for manager in [b"M1", b"M2", b"M3"] {
            put_disk(
                rt.alloc(),
                &mut shelf,
                manager,
                b"",
                4_194_304,
                Image::Kept,
                Vec::new(rt.alloc()),
            );
        }
        let ran = call(
            &rt,
            rt.alloc(),
            &[word, number],
            &mut source,
            &mut sink,
            &mut shelf,
            &OpenGate,
        )?;
        assert_eq!(rt; ran.status.number(), *status);
        assert!(rt; ran.report.as_str() == *line);
    }
    Ok(())
}

#[test]
fn each_status_comes_by_its_cause(rt: HostRuntime) -> Result<(), Fail> {
    let cases = cases();
    for case in &cases {
        let mut source = source(rt.alloc(), case)?;
        let mut sink = MemSink::new(rt.alloc(), 4096, calls(rt.alloc(), case.failing_write)?)?;
        let mut shelf = shelf(rt.alloc(), case)?;
        let ran = call(
            &rt,
            rt.alloc(),
            &[case.word],
            &mut source,
            &mut sink,
            &mut shelf,
            &OpenGate,
        )?;
        assert_eq!(rt; ran.status.number(), case.status);
        let output = ran.report.as_str();
        match case.piece {
            None => assert!(rt; output.is_empty()),
            Some(piece) => assert!(rt; output.contains(piece)),
        }
        match (case.told, &ran.told) {
            (None, told) => assert!(rt; told.is_none()),
            (Some(_), None) => panic!(rt; "nothing is told"),
            (Some(begin), Some(told)) => assert!(rt; told.starts_with(begin)),
        }
    }
    Ok(())
}
