//! PHASE in threads: calls of two scripts overlap, two managers force at the same time, ends of channels take turns, and what two
//! scripts put comes in the order of each. What a gate or a disk waits for comes within 10,000,000 yields of its thread.

use crate::fixture::{Ran, call, put_disk};
use mq_base::{MemSink, MemSource, QName};
use mq_disk::{Image, MemDisk, MemShelf};
use mq_gate::{Gate, Meet, MeetShelf, Meeting, OpenGate, Point, Tally};
use std::alloc::{AllocError, Global};
use std::sync::{Arc, Wait};
use std::test::*;
use std::thread::Threads;

/// How often each is run: by chance alone one run may come out well.
const TIMES: u32 = 100;

/// Runs a scenario over empty disks, with these meets and this gate.
fn run_over<R: Threads + Wait + Sync, G: Gate + Sync>(
    rt: &R,
    alloc: Global,
    text: &str,
    meets: Vec<Meet>,
    gate: &G,
) -> Result<Ran<Meeting<MemDisk>>, Fail> {
    let mut source = MemSource::new(String::from_str(alloc, text)?.into_bytes(), Vec::new(alloc));
    let mut sink = MemSink::new(alloc, 8192, Vec::new(alloc))?;
    let mut inner = MemShelf::new(alloc, Vec::new(alloc));
    for manager in [b"LONDON".as_slice(), b"PARIS".as_slice()] {
        put_disk(
            alloc,
            &mut inner,
            manager,
            b"",
            65_536,
            Image::Kept,
            Vec::new(alloc),
        );
    }
    let mut shelf = MeetShelf { inner, meets };
    call(
        rt,
        alloc,
        &["run"],
        &mut source,
        &mut sink,
        &mut shelf,
        gate,
    )
}

const TWO_SCRIPTS: &str = "NETWORK
QMGR LONDON
MQSC DL LONDON
DEFINE QLOCAL(Q1)
ENDMQSC
SCRIPT A LONDON
MQCONN
MQOPEN H1 QUEUE(Q1) OUTPUT
MQPUT H1 TEXT('A') PERSIST
ENDSCRIPT
SCRIPT B LONDON
MQCONN
MQOPEN H1 QUEUE(Q1) OUTPUT
MQPUT H1 TEXT('B') PERSIST
ENDSCRIPT
STEPS
OBEY DL
PHASE A B
ENDSTEPS
";

/// Holds the first call of script 0 until the third call of script 1 comes, and the second call of script 1 until the first of
/// script 0 has come.
#[derive(Drop)]
struct Overlap {
    first: Tally,
    second: Tally,
}

impl Gate for Overlap {
    fn pass(&self, point: &Point) {
        match (point.script, point.line) {
            (0, 0) => {
                self.first.add();
                self.first.wait_for(&self.second, 1);
            }
            (1, 1) => self.second.wait_for(&self.first, 1),
            (1, 2) => self.second.add(),
            _ => {}
        }
    }
}

#[test]
fn calls_of_two_scripts_overlap(rt: HostRuntime) -> Result<(), Fail> {
    for _ in 0..TIMES {
        let gate = Overlap {
            first: Tally::new(),
            second: Tally::new(),
        };
        gate.first.arm();
        gate.second.arm();
        let ran = run_over(&rt, rt.alloc(), TWO_SCRIPTS, Vec::new(rt.alloc()), &gate)?;
        assert_eq!(rt; ran.status.number(), 0);
        assert!(rt; ran.report.as_str().contains("Q1 DEPTH 2\n"));
        assert!(rt; !gate.first.missed());
        assert!(rt; !gate.second.missed());
    }
    Ok(())
}

/// The tallies of both managers' disks.
#[derive(Drop)]
struct Both {
    london: Arc<Tally>,
    paris: Arc<Tally>,
    /// The gate holds each script until PARIS's tally shows so many; with 0 nobody.
    need: u64,
    held: Tally,
}

impl Gate for Both {
    fn pass(&self, _point: &Point) {
        self.london.arm();
        self.paris.arm();
        self.held.wait_for(&self.paris, self.need);
    }
}

/// Tallies that the first script to come to the gate arms.
fn tallied(alloc: Global, need: u64) -> Result<Both, AllocError> {
    let held = Tally::new();
    held.arm();
    Ok(Both {
        london: Arc::new(alloc, Tally::new())?,
        paris: Arc::new(alloc, Tally::new())?,
        need,
        held,
    })
}

/// Tallies that are armed from the start.
fn armed(alloc: Global, need: u64) -> Result<Both, AllocError> {
    let gate = tallied(alloc, need)?;
    gate.london.arm();
    gate.paris.arm();
    Ok(gate)
}

/// The meet of a manager: its syncs wait until the other's tally shows so many.
fn meet(
    meets: &mut Vec<Meet>,
    manager: &[u8],
    own: &Arc<Tally>,
    other: &Arc<Tally>,
    need: u64,
) -> Result<(), AllocError> {
    let Ok(qmgr) = QName::of(manager) else {
        return Ok(());
    };
    meets.push(Meet {
        qmgr,
        own: Arc::try_clone(own)?,
        other: Arc::try_clone(other)?,
        need,
    })?;
    Ok(())
}

fn meets_of(alloc: Global, gate: &Both, need: u64) -> Result<Vec<Meet>, AllocError> {
    let mut meets = Vec::new(alloc);
    meet(&mut meets, b"LONDON", &gate.london, &gate.paris, need)?;
    meet(&mut meets, b"PARIS", &gate.paris, &gate.london, need)?;
    Ok(meets)
}

const TWO_MANAGERS: &str = "NETWORK
QMGR LONDON
QMGR PARIS
MQSC DL LONDON
DEFINE QLOCAL(Q1)
ENDMQSC
MQSC DP PARIS
DEFINE QLOCAL(Q1)
ENDMQSC
SCRIPT A LONDON
MQCONN
MQOPEN H1 QUEUE(Q1) OUTPUT
MQPUT H1 TEXT('A') PERSIST
ENDSCRIPT
SCRIPT B PARIS
MQCONN
MQOPEN H1 QUEUE(Q1) OUTPUT
MQPUT H1 TEXT('B') PERSIST
ENDSCRIPT
STEPS
OBEY DL
OBEY DP
PHASE A B
ENDSTEPS
";

#[test]
fn two_managers_force_at_the_same_time(rt: HostRuntime) -> Result<(), Fail> {
    for _ in 0..TIMES {
        let gate = tallied(rt.alloc(), 0)?;
        let meets = meets_of(rt.alloc(), &gate, 1)?;
        let ran = run_over(&rt, rt.alloc(), TWO_MANAGERS, meets, &gate)?;
        assert_eq!(rt; ran.status.number(), 0);
        assert!(rt; gate.london.seen() > 0);
        assert!(rt; gate.paris.seen() > 0);
        assert!(rt; !gate.london.missed());
        assert!(rt; !gate.paris.missed());
    }
    Ok(())
}

const CHANNEL: &str = "NETWORK
QMGR LONDON
QMGR PARIS
CABLE LON.PAR LONDON PARIS
MQSC DL LONDON
DEFINE QLOCAL(PARIS) USAGE(XMITQ)
DEFINE QREMOTE(R1) RNAME(Q1) RQMNAME(PARIS)
DEFINE CHANNEL(LON.PAR) CHLTYPE(SDR) XMITQ(PARIS) BATCHSZ(1) SHORTRTY(999999999)
START CHANNEL(LON.PAR)
ENDMQSC
MQSC DP PARIS
DEFINE QLOCAL(Q1)
DEFINE CHANNEL(LON.PAR) CHLTYPE(RCVR)
ENDMQSC
SCRIPT A PARIS
MQCONN
ENDSCRIPT
SCRIPT B PARIS
MQCONN
ENDSCRIPT
STEPS
OBEY DP
OBEY DL
";

/// Behind the definitions PARIS forces in the first turns of the channel alone: how often it does before is seen in a run that ends there.
#[test]
fn ends_of_channels_take_turns(rt: HostRuntime) -> Result<(), Fail> {
    let before = armed(rt.alloc(), 0)?;
    let meets = meets_of(rt.alloc(), &before, 0)?;
    let text = format!(in rt.alloc(); "{CHANNEL}ENDSTEPS\n")?;
    let ran = run_over(&rt, rt.alloc(), text.as_str(), meets, &before)?;
    assert_eq!(rt; ran.status.number(), 0);
    let text = format!(in rt.alloc(); "{CHANNEL}PHASE A B\nENDSTEPS\n")?;
    for _ in 0..TIMES {
        let gate = armed(rt.alloc(), before.paris.seen().saturating_add(1))?;
        let meets = meets_of(rt.alloc(), &gate, 0)?;
        let ran = run_over(&rt, rt.alloc(), text.as_str(), meets, &gate)?;
        assert_eq!(rt; ran.status.number(), 0);
        assert!(rt; !gate.held.missed());
    }
    Ok(())
}

/// Two scripts that put ten rows each, of 1 to 10 bytes and of 11 to 20.
fn twenty_rows(alloc: Global) -> Result<String, AllocError> {
    let mut text = String::from_str(
        alloc,
        "NETWORK
QMGR LONDON
QMGR PARIS
CABLE LON.PAR LONDON PARIS
MQSC DL LONDON
DEFINE QLOCAL(PARIS) USAGE(XMITQ)
DEFINE QREMOTE(R1) RNAME(Q1) RQMNAME(PARIS)
DEFINE CHANNEL(LON.PAR) CHLTYPE(SDR) XMITQ(PARIS) SHORTRTY(999999999)
START CHANNEL(LON.PAR)
ENDMQSC
MQSC DP PARIS
DEFINE QLOCAL(Q1)
DEFINE CHANNEL(LON.PAR) CHLTYPE(RCVR)
ENDMQSC
",
    )?;
    for (script, first) in [("A", 1u32), ("B", 11)] {
        let begin = format!(in alloc;
            "SCRIPT {script} LONDON\nMQCONN\nMQOPEN H1 QUEUE(R1) OUTPUT\n"
        )?;
        text.push_str(begin.as_str())?;
        for len in first..first + 10 {
            let put = format!(in alloc; "MQPUT H1 FILL({len},'x') PERSIST\n")?;
            text.push_str(put.as_str())?;
        }
        text.push_str("ENDSCRIPT\n")?;
    }
    text.push_str("STEPS\nOBEY DP\nOBEY DL\nPHASE A B\nPUMP 10000\nENDSTEPS\n")?;
    Ok(text)
}

/// Where the report tells of the row of this length.
fn place_of(alloc: Global, report: &str, len: u32) -> Result<Option<usize>, AllocError> {
    let row = format!(in alloc; " LEN {len} FREE\n")?;
    Ok(report.find(row.as_str()))
}

#[test]
fn rows_of_each_script_come_in_its_order(rt: HostRuntime) -> Result<(), Fail> {
    let text = twenty_rows(rt.alloc())?;
    for _ in 0..TIMES {
        let ran = run_over(
            &rt,
            rt.alloc(),
            text.as_str(),
            Vec::new(rt.alloc()),
            &OpenGate,
        )?;
        let report = ran.report.as_str();
        assert_eq!(rt; ran.status.number(), 0);
        assert!(rt; report.contains(" IDLE\n"));
        assert!(rt; report.contains("Q1 DEPTH 20\n"));
        for len in 1..20 {
            let before = place_of(rt.alloc(), report, len)?;
            let behind = place_of(rt.alloc(), report, len + 1)?;
            assert!(rt; before.is_some() && behind.is_some());
            assert!(rt; len == 10 || before < behind);
        }
    }
    Ok(())
}
