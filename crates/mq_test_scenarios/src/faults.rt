//! Lines that can't stand, each told with its number and its cause.

use mq_scn_text::read_scenario;
use std::alloc::{AllocError, Global};
use std::test::*;

/// Two managers, on lines 1 to 3.
const HEAD: &str = "NETWORK\nQMGR LONDON\nQMGR PARIS\n";

/// What stands behind the heading, and what is told of it.
const HEADINGS: [(&str, &str); 14] = [
    ("QMGR LONDON\n", "line 4: Twice"),
    ("QMGR ROME LOGMAX(4095)\n", "line 4: Limit LogMax"),
    ("QMGR ROME LOGMAX 4096\n", "line 4: Form"),
    ("MOMENT 0\n", "line 4: Order"),
    ("CABLE A.B LONDON LONDON\n", "line 4: Twice"),
    ("CABLE A.B LONDON ROME\n", "line 4: Unknown"),
    (
        "CABLE A.B LONDON PARIS\nCABLE A.B PARIS LONDON\n",
        "line 5: Twice",
    ),
    ("CABLE A.B LONDON PARIS OUT LATE(2,2)\n", "line 4: Number"),
    (
        "CABLE A.B LONDON PARIS OUT DROP(2) SPOIL(2)\n",
        "line 4: Twice",
    ),
    ("CABLE A.B LONDON PARIS BACK\n", "line 4: Form"),
    ("MQSC NINELETTE LONDON\n", "line 4: Name"),
    ("MQSC D1 ROME\n", "line 4: Unknown"),
    ("MONITOR M1 LONDON QUEUE('')\n", "line 4: Name"),
    ("RUN A\n", "line 4: Form"),
];

const SECTIONS: [(&str, &str); 13] = [
    ("MQSC D1 LONDON\nENDMQSC\nRULES d1 PARIS\n", "line 6: Twice"),
    (
        "MQSC D1 LONDON\n\nDEFINE QLOCL(Q1)\n",
        "line 6: Mqsc UnknownObject",
    ),
    (
        "MQSC D1 LONDON\nDEFINE QLOCAL('Q1\nENDMQSC\n",
        "line 5: Mqsc OpenQuote",
    ),
    (
        "MQSC D1 LONDON\nDEFINE QLOCAL('Q1",
        "line 5: Mqsc OpenQuote",
    ),
    (
        "MQSC D1 LONDON\nDEFINE QLOCAL(Q1) +\nENDMQSC\n",
        "line 6: Mqsc OpenContinuation",
    ),
    ("MQSC D1 LONDON\nDEFINE QLOCAL( +\n", "line 6: Ending"),
    ("MQSC D1 LONDON\n", "line 5: Ending"),
    (
        "RULES R1 LONDON\nDESTQ(A)\nENDRULES\n",
        "line 5: Rules NoAction",
    ),
    ("RULES R1 LONDON\nDESTQ(A) +\n", "line 6: Ending"),
    ("SCRIPT A LONDON\nMQCONN\nMQCONN\n", "line 6: Order"),
    ("SCRIPT A LONDON\nMQOPEN H1 QUEUE(a?)\n", "line 5: Name"),
    ("SCRIPT A LONDON\nPUT H1\n", "line 5: Form"),
    ("SCRIPT A LONDON\nMQPUT H1 TEXT('open\n", "line 5: Form"),
];

const STEPS: [(&str, &str); 13] = [
    ("STEPS\nRUN B\n", "line 5: Unknown"),
    ("STEPS\nPUMP 0\n", "line 5: Limit Turns"),
    ("STEPS\nPUMP +1\n", "line 5: Form"),
    ("STEPS\nCUT LONDON 1001\n", "line 5: Number"),
    (
        "STEPS\nCLOCK 1234567890123456789012345678901234567890\n",
        "line 5: Limit Clock",
    ),
    ("STEPS\nPHASE A\n", "line 5: Form"),
    (
        "STEPS\nDO LONDON DEFINE QLOCL(A)\n",
        "line 5: Mqsc UnknownObject",
    ),
    ("STEPS\nDO ROME START CHANNEL(A.B)\n", "line 5: Unknown"),
    ("STEPS\nOBEY \u{c9}\n", "line 5: Name"),
    ("STEPS\nENDSTEPS\r\n", "line 5: Form"),
    ("STEPS\nENDSTEPS\nNETWORK\n", "line 6: Order"),
    ("STEPS\nENDSTEPS\nMORE\n", "line 6: Form"),
    ("STEPS\nENDSTEPS", "read"),
];

/// A part as often as it may stand, and once more.
struct Counted {
    /// What stands before the parts.
    front: &'static str,
    /// A part before its number and behind it.
    before: &'static str,
    behind: &'static str,
    most: u32,
    /// What ends a whole text behind them.
    back: &'static str,
    /// What is told of one part more.
    want: &'static str,
}

const COUNTED: [Counted; 8] = [
    Counted {
        front: "",
        before: "QMGR M",
        behind: "\n",
        most: 6,
        back: "STEPS\nENDSTEPS\n",
        want: "line 10: Limit Managers",
    },
    Counted {
        front: "",
        before: "CABLE C",
        behind: " LONDON PARIS\n",
        most: 32,
        back: "STEPS\nENDSTEPS\n",
        want: "line 36: Limit Cables",
    },
    Counted {
        front: "",
        before: "SCRIPT S",
        behind: " LONDON\nENDSCRIPT\n",
        most: 64,
        back: "STEPS\nENDSTEPS\n",
        want: "line 132: Limit Scripts",
    },
    Counted {
        front: "",
        before: "MQSC D",
        behind: " LONDON\nENDMQSC\n",
        most: 64,
        back: "STEPS\nENDSTEPS\n",
        want: "line 132: Limit Sections",
    },
    Counted {
        front: "RULES R1 LONDON\nENDRULES\n",
        before: "MQSC D",
        behind: " LONDON\nENDMQSC\n",
        most: 63,
        back: "STEPS\nENDSTEPS\n",
        want: "line 132: Limit Sections",
    },
    Counted {
        front: "",
        before: "MONITOR M",
        behind: " LONDON QUEUE(Q)\n",
        most: 16,
        back: "STEPS\nENDSTEPS\n",
        want: "line 20: Limit Monitors",
    },
    Counted {
        front: "STEPS\n",
        before: "CLOCK ",
        behind: "\n",
        most: 3_000,
        back: "ENDSTEPS\n",
        want: "line 3005: Limit Steps",
    },
    Counted {
        front: "SCRIPT A LONDON\n",
        before: "MQCLOSE H",
        behind: "\n",
        most: 25_000,
        back: "ENDSCRIPT\nSTEPS\nENDSTEPS\n",
        want: "line 25005: Limit ScriptLines",
    },
];

const BODIES: [(&str, &str); 4] = [
    (
        "SCRIPT A LONDON\nMQPUT H FILL(4194304,'A')\nENDSCRIPT\nSTEPS\nENDSTEPS\n",
        "read",
    ),
    (
        "SCRIPT A LONDON\nMQPUT H FILL(4194305,'A')\n",
        "line 5: Limit Body",
    ),
    (
        "SCRIPT A LONDON\nMQGET H WAIT(1000000000)\n",
        "line 5: Limit Clock",
    ),
    (
        "RULES R1 LONDON\nENDRULES\nSTEPS\nHANDLE R1 100001\n",
        "line 7: Limit Turns",
    ),
];

/// Writes what the reader says of a text.
fn tell(alloc: Global, told: &mut String, text: &[u8]) -> Result<(), AllocError> {
    match read_scenario(alloc, text) {
        Ok(_) => told.push_str("read"),
        Err(fault) => write!(told, "{fault}"),
    }
}

/// Whether the reader says this of a text.
fn is_told(alloc: Global, text: &[u8], wanted: &str) -> bool {
    let mut told = String::new(alloc);
    tell(alloc, &mut told, text).is_ok() && told.as_str() == wanted
}

/// Whether the reader says this of what stands behind two managers.
fn is_row(alloc: Global, inner: &str, wanted: &str) -> bool {
    let mut text = String::new(alloc);
    text.push_str(HEAD).is_ok()
        && text.push_str(inner).is_ok()
        && is_told(alloc, text.as_bytes(), wanted)
}

/// The first row, from 0, of which something else is told.
fn first_wrong(alloc: Global, rows: &[(&str, &str)]) -> Option<usize> {
    for (row, (inner, wanted)) in rows.iter().enumerate() {
        if !is_row(alloc, inner, wanted) {
            return Some(row);
        }
    }
    None
}

#[test]
fn a_fault_of_the_heading_is_told_with_its_line(rt: HostRuntime) {
    assert_eq!(rt; first_wrong(rt.alloc(), &HEADINGS), None);
}

#[test]
fn a_fault_within_a_section_has_the_line_of_the_whole_text(rt: HostRuntime) {
    assert_eq!(rt; first_wrong(rt.alloc(), &SECTIONS), None);
}

#[test]
fn a_fault_of_a_step_is_told_with_its_line(rt: HostRuntime) {
    assert_eq!(rt; first_wrong(rt.alloc(), &STEPS), None);
}

#[test]
fn a_text_without_lines_ends_too_early(rt: HostRuntime) {
    assert!(rt; is_told(rt.alloc(), b"", "line 1: Ending"));
}

/// Writes so many lines without a word.
fn write_lines(text: &mut Vec<u8>, count: u32) -> Result<(), AllocError> {
    for _ in 0..count {
        text.push(b'\n')?;
    }
    Ok(())
}

/// Whether the reader says this of so many lines without a word.
fn is_told_of_lines(alloc: Global, count: u32, wanted: &str) -> bool {
    let mut text = Vec::new(alloc);
    write_lines(&mut text, count).is_ok() && is_told(alloc, text.as_slice(), wanted)
}

#[test]
fn a_line_behind_forty_thousand_is_too_many(rt: HostRuntime) {
    assert!(rt; is_told_of_lines(rt.alloc(), 40_001, "line 40001: Limit Lines"));
}

/// Writes a text with so many of the parts.
fn write_parts(text: &mut String, row: &Counted, count: u32) -> Result<(), AllocError> {
    text.push_str(HEAD)?;
    text.push_str(row.front)?;
    for n in 0..count {
        write!(text, "{}{n}{}", row.before, row.behind)?;
    }
    text.push_str(row.back)
}

/// Whether the reader says this of a text with so many of the parts.
fn is_told_of_parts(alloc: Global, row: &Counted, count: u32, wanted: &str) -> bool {
    let mut text = String::new(alloc);
    write_parts(&mut text, row, count).is_ok() && is_told(alloc, text.as_bytes(), wanted)
}

#[test]
fn each_part_stands_as_often_as_it_may(rt: HostRuntime) {
    for (at, row) in COUNTED.iter().enumerate() {
        assert!(rt;
            is_told_of_parts(rt.alloc(), row, row.most, "read"),
            "row {at}"
        );
    }
}

#[test]
fn one_part_more_is_too_many(rt: HostRuntime) {
    for (at, row) in COUNTED.iter().enumerate() {
        let count = row.most.saturating_add(1);
        assert!(rt;
            is_told_of_parts(rt.alloc(), row, count, row.want),
            "row {at}"
        );
    }
}

#[test]
fn a_number_of_a_line_has_its_limit(rt: HostRuntime) {
    assert_eq!(rt; first_wrong(rt.alloc(), &BODIES), None);
}

/// Writes sixteen bodies of the greatest length, and one byte.
fn write_bodies(text: &mut String) -> Result<(), AllocError> {
    text.push_str(HEAD)?;
    text.push_str("SCRIPT A LONDON\n")?;
    for _ in 0..16 {
        text.push_str("MQPUT H FILL(4194304,'A')\n")?;
    }
    text.push_str("MQPUT H TEXT('')\nMQPUT H FILL(1,'A')\n")
}

/// Whether the reader says this of all these bodies.
fn is_told_of_bodies(alloc: Global, wanted: &str) -> bool {
    let mut text = String::new(alloc);
    write_bodies(&mut text).is_ok() && is_told(alloc, text.as_bytes(), wanted)
}

#[test]
fn all_bodies_together_have_a_limit(rt: HostRuntime) {
    assert!(rt; is_told_of_bodies(rt.alloc(), "line 22: Limit Bodies"));
}
