//! The worked turns of a channel's two ends, over disks in memory.

use crate::fixture::{Ran, call, put_disk};
use mq_base::{MemSink, MemSource};
use mq_disk::{Image, MemDisk, MemShelf};
use mq_gate::OpenGate;
use mq_history::Apart;
use mq_top::Status;
use std::alloc::{AllocError, Global};
use std::sync::Wait;
use std::test::*;
use std::thread::Threads;

const HEAD: &str = "NETWORK
QMGR LONDON
QMGR PARIS
CABLE LON.PAR LONDON PARIS";

/// The definitions of both managers.
const DEFINITIONS: &str = "
MQSC DL LONDON
DEFINE QLOCAL(PARIS) USAGE(XMITQ)
DEFINE QREMOTE(R1) RNAME(Q1) RQMNAME(PARIS)
DEFINE CHANNEL(LON.PAR) CHLTYPE(SDR) XMITQ(PARIS) BATCHSZ(1)
START CHANNEL(LON.PAR)
ENDMQSC
MQSC DP PARIS
DEFINE QLOCAL(Q1)
DEFINE CHANNEL(LON.PAR) CHLTYPE(RCVR)
ENDMQSC
SCRIPT A LONDON
MQCONN
MQOPEN H1 QUEUE(R1) OUTPUT
";

const PUT: &str = "MQPUT H1 TEXT('HELLO') PERSIST\n";

/// The first steps of a run over empty disks.
const FIRST: &str = "OBEY DP
OBEY DL
RUN A
";

/// One message, or two: what the cable's faults are, the steps, what the report says of them, and how it ends.
struct Case {
    faults: &'static str,
    puts: u32,
    steps: &'static str,
    did: &'static str,
    ends: &'static str,
}

/// Where a message arrived in the first session.
const ARRIVED: &str = "PARIS DEPTH 0
QMGR PARIS UP
Q1 DEPTH 1
  1.1.1 PRTY 0 PERSIST YES LEN 5 FREE
CHANNELS
CH LON.PAR SENDER RUNNING SESSION 1 SEQ 1 INDOUBT -
CH LON.PAR RECEIVER RUNNING SESSION 1 SEQ 1 LAST 1.1
LEDGER
PARIS Q1 1.1.1
STATUS 0
";

/// Where its unit was committed, and the sender learned it in the second session.
const LEARNED: &str = "PARIS DEPTH 0
QMGR PARIS UP
Q1 DEPTH 1
  1.1.1 PRTY 0 PERSIST YES LEN 5 FREE
CHANNELS
CH LON.PAR SENDER RUNNING SESSION 2 SEQ 1 INDOUBT -
CH LON.PAR RECEIVER RUNNING SESSION 2 SEQ 1 LAST 1.1
LEDGER
PARIS Q1 1.1.1
STATUS 0
";

/// Where its unit was backed out, and it went anew in the second session.
const ANEW: &str = "PARIS DEPTH 0
QMGR PARIS UP
Q1 DEPTH 1
  1.1.1 PRTY 0 PERSIST YES LEN 5 FREE
CHANNELS
CH LON.PAR SENDER RUNNING SESSION 2 SEQ 1 INDOUBT -
CH LON.PAR RECEIVER RUNNING SESSION 2 SEQ 1 LAST 2.1
LEDGER
PARIS Q1 1.1.1
STATUS 0
";

const TWO: &str = "PARIS DEPTH 0
QMGR PARIS UP
Q1 DEPTH 2
  1.1.1 PRTY 0 PERSIST YES LEN 5 FREE
  1.1.2 PRTY 0 PERSIST YES LEN 5 FREE
CHANNELS
CH LON.PAR SENDER RUNNING SESSION 1 SEQ 2 INDOUBT -
CH LON.PAR RECEIVER RUNNING SESSION 1 SEQ 2 LAST 1.2
LEDGER
PARIS Q1 1.1.1 1.1.2
STATUS 0
";

/// Where the receiver has committed, and its ACK was not sent yet.
const IN_DOUBT: &str = "PARIS DEPTH 0
  1.1.1 PRTY 0 PERSIST YES LEN 5 BATCH
QMGR PARIS UP
Q1 DEPTH 1
  1.1.1 PRTY 0 PERSIST YES LEN 5 FREE
CHANNELS
CH LON.PAR SENDER RUNNING SESSION 1 SEQ 0 INDOUBT 1.1
CH LON.PAR RECEIVER RUNNING SESSION 1 SEQ 1 LAST 1.1
LEDGER
PARIS Q1 1.1.1
STATUS 0
";

const CASES: [Case; 6] = [
    Case {
        faults: "",
        puts: 1,
        steps: "PUMP 100\n",
        did: "0004 PUMP 100 TURNS 12 IDLE\n",
        ends: ARRIVED,
    },
    Case {
        faults: "",
        puts: 2,
        steps: "PUMP 100\n",
        did: "0004 PUMP 100 TURNS 19 IDLE\n",
        ends: TWO,
    },
    Case {
        faults: "",
        puts: 1,
        steps: "PUMP 10\n",
        did: "0004 PUMP 10 TURNS 10 LIMIT\n",
        ends: IN_DOUBT,
    },
    Case {
        faults: " BACK DROP(2)",
        puts: 1,
        steps: "PUMP 100\n",
        did: "0004 PUMP 100 TURNS 17 IDLE\n",
        ends: LEARNED,
    },
    Case {
        faults: " OUT DROP(3)",
        puts: 1,
        steps: "PUMP 9\nCRASH LONDON\nRESTART LONDON\nDO LONDON START CHANNEL(LON.PAR)\nPUMP 100\n",
        did: "0004 PUMP 9 TURNS 9 LIMIT\n0005 CRASH LONDON OK\n0006 RESTART LONDON OK\n0007 DO LONDON OK\n0008 PUMP 100 TURNS 12 IDLE\n",
        ends: ANEW,
    },
    Case {
        faults: " OUT COPY(2,4) LATE(3,4)",
        puts: 1,
        steps: "PUMP 100\n",
        did: "0004 PUMP 100 TURNS 24 IDLE\n",
        ends: ANEW,
    },
];

/// A receiver's commit is stopped at a device call, over a disk that then reads as it was written, or not; and whether it is kept.
struct Cut {
    call: &'static str,
    image: Image,
    kept: bool,
}

const CUTS: [Cut; 5] = [
    Cut {
        call: "1",
        image: Image::Kept,
        kept: false,
    },
    Cut {
        call: "2",
        image: Image::Kept,
        kept: false,
    },
    Cut {
        call: "3",
        image: Image::Kept,
        kept: false,
    },
    Cut {
        call: "4",
        image: Image::Kept,
        kept: true,
    },
    Cut {
        call: "4",
        image: Image::Lost,
        kept: false,
    },
];

/// Where a second run brought another message.
const BOTH_RUNS: &str = "PARIS DEPTH 0
QMGR PARIS UP
Q1 DEPTH 2
  1.1.1 PRTY 0 PERSIST YES LEN 5 FREE
  1.2.1 PRTY 0 PERSIST YES LEN 5 FREE
CHANNELS
CH LON.PAR SENDER RUNNING SESSION 2 SEQ 2 INDOUBT -
CH LON.PAR RECEIVER RUNNING SESSION 2 SEQ 2 LAST 2.1
LEDGER
PARIS Q1 1.1.1 1.2.1
STATUS 0
";

/// A scenario of so many puts, and of steps in two parts.
fn scenario(
    alloc: Global,
    faults: &str,
    puts: u32,
    first: &str,
    then: &str,
) -> Result<String, AllocError> {
    let mut text = String::from_str(alloc, HEAD)?;
    text.push_str(faults)?;
    text.push_str(DEFINITIONS)?;
    for _ in 0..puts {
        text.push_str(PUT)?;
    }
    text.push_str("ENDSCRIPT\nSTEPS\n")?;
    text.push_str(first)?;
    text.push_str(then)?;
    text.push_str("ENDSTEPS\n")?;
    Ok(text)
}

/// The log on the disk at a place.
fn log_at(disks: &[MemDisk], place: usize) -> &[u8] {
    match disks.get(place) {
        Some(disk) => disk.bytes(),
        None => b"".as_slice(),
    }
}

/// Runs a scenario over these logs of LONDON and PARIS.
fn run_over<R: Threads + Wait + Sync>(
    rt: &R,
    alloc: Global,
    text: String,
    image: Image,
    london: &[u8],
    paris: &[u8],
) -> Result<Ran<MemDisk>, Fail> {
    let mut source = MemSource::new(text.into_bytes(), Vec::new(alloc));
    let mut sink = MemSink::new(alloc, 4096, Vec::new(alloc))?;
    let mut shelf = MemShelf::new(alloc, Vec::new(alloc));
    for (manager, log) in [(b"LONDON".as_slice(), london), (b"PARIS".as_slice(), paris)] {
        put_disk(
            alloc,
            &mut shelf,
            manager,
            log,
            65_536,
            image,
            Vec::new(alloc),
        );
    }
    call(
        rt,
        alloc,
        &["run"],
        &mut source,
        &mut sink,
        &mut shelf,
        &OpenGate,
    )
}

#[test]
fn messages_take_the_worked_turns(rt: HostRuntime) -> Result<(), Fail> {
    for case in &CASES {
        let text = scenario(rt.alloc(), case.faults, case.puts, FIRST, case.steps)?;
        let ran = run_over(&rt, rt.alloc(), text, Image::Kept, b"", b"")?;
        assert!(rt; ran.report.as_str().contains(case.did));
        assert!(rt; ran.report.as_str().ends_with(case.ends));
    }
    Ok(())
}

#[test]
fn a_commit_that_is_cut_is_kept_from_its_last_device_call_on(rt: HostRuntime) -> Result<(), Fail> {
    for cut in &CUTS {
        let mut steps = String::from_str(rt.alloc(), "PUMP 9\nCUT PARIS ")?;
        steps.push_str(cut.call)?;
        steps.push_str("\nPUMP 1\nRESTART PARIS\nPUMP 100\n")?;
        let text = scenario(rt.alloc(), "", 1, FIRST, steps.as_str())?;
        let ran = run_over(&rt, rt.alloc(), text, cut.image, b"", b"")?;
        assert!(rt;
            ran.report.as_str().contains(
                "0004 PUMP 9 TURNS 9 LIMIT\n0005 CUT PARIS OK\n0006 PUMP 1 TURNS 1 LIMIT\n0007 RESTART PARIS OK\n"
            )
        );
        let (did, ends) = if cut.kept {
            ("0008 PUMP 100 TURNS 6 IDLE\n", LEARNED)
        } else {
            ("0008 PUMP 100 TURNS 13 IDLE\n", ANEW)
        };
        assert!(rt; ran.report.as_str().contains(did));
        assert!(rt; ran.report.as_str().ends_with(ends));
    }
    Ok(())
}

/// An operator settles the unit whose ACK was lost.
const RESOLVED: [(&str, u8, &str); 2] = [
    (
        "PUMP 11\nDO LONDON STOP CHANNEL(LON.PAR)\nDO LONDON RESOLVE CHANNEL(LON.PAR) ACTION(COMMIT)\n",
        0,
        "0005 DO LONDON OK\n0006 DO LONDON OK\nQUEUES\nQMGR LONDON UP\nPARIS DEPTH 0\nQMGR PARIS UP\n",
    ),
    (
        "PUMP 11\nDO LONDON STOP CHANNEL(LON.PAR)\nDO LONDON RESOLVE CHANNEL(LON.PAR) ACTION(BACKOUT)\n",
        8,
        "0005 DO LONDON OK\n0006 DO LONDON OK\nQUEUES\nQMGR LONDON UP\nPARIS DEPTH 1\n  1.1.1 PRTY 0 PERSIST YES LEN 5 FREE\n",
    ),
];

#[test]
fn a_resolve_that_is_not_borne_out_ends_with_8(rt: HostRuntime) -> Result<(), Fail> {
    for (steps, status, piece) in &RESOLVED {
        let text = scenario(rt.alloc(), " BACK DROP(2)", 1, FIRST, steps)?;
        let ran = run_over(&rt, rt.alloc(), text, Image::Kept, b"", b"")?;
        assert_eq!(rt; ran.status.number(), *status);
        assert!(rt; ran.report.as_str().contains(piece));
    }
    Ok(())
}

#[test]
fn channels_go_on_in_the_next_run(rt: HostRuntime) -> Result<(), Fail> {
    let text = scenario(rt.alloc(), "", 1, FIRST, "PUMP 100\n")?;
    let first = run_over(&rt, rt.alloc(), text, Image::Kept, b"", b"")?;
    let steps = "DO LONDON START CHANNEL(LON.PAR)\nRUN A\nPUMP 100\n";
    let text = scenario(rt.alloc(), "", 1, steps, "")?;
    let logs = first.disks.as_slice();
    let second = run_over(
        &rt,
        rt.alloc(),
        text,
        Image::Kept,
        log_at(logs, 0),
        log_at(logs, 1),
    )?;
    assert!(rt;
        second
            .report
            .as_str()
            .contains("0003 PUMP 100 TURNS 12 IDLE\n")
    );
    assert!(rt; second.report.as_str().ends_with(BOTH_RUNS));
    Ok(())
}

#[test]
fn logs_that_do_not_belong_together_are_refused(rt: HostRuntime) -> Result<(), Fail> {
    let text = scenario(rt.alloc(), " BACK DROP(2)", 1, FIRST, "PUMP 100\n")?;
    let first = run_over(&rt, rt.alloc(), text, Image::Kept, b"", b"")?;
    let text = scenario(rt.alloc(), "", 1, "RUN A\n", "")?;
    let paris = log_at(first.disks.as_slice(), 1);
    let second = run_over(&rt, rt.alloc(), text, Image::Kept, b"", paris)?;
    assert!(rt; matches!(second.status, Status::Apart(Apart::Session(0, 0, 2))));
    assert!(rt; second.report.as_str() == "");
    Ok(())
}
