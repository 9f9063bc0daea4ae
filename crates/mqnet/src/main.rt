//! Runs queue managers by a scenario from standard input, over files of the current folder, and reports on standard output.
#![tactic(auto)]

use mq_base::{StdSink, StdSource};
use mq_disk::FileShelf;
use mq_gate::OpenGate;
use mq_top::{Ended, mqnet};
use std::process::ExitCode;
use std::rt::Clock;
use std::time::{SystemTime, UNIX_EPOCH};
use std::{env, io};

/// The moment in milliseconds since 1970, or 0 where the clock tells none.
fn moment(rt: &impl Clock) -> u64 {
    match SystemTime::now(rt) {
        Ok(now) => match now.duration_since(UNIX_EPOCH) {
            Ok(since) => u64::try_from(since.as_millis()).unwrap_or(0),
            Err(_) => 0,
        },
        Err(_) => 0,
    }
}

fn main(rt: HostRuntime) -> io::Result<ExitCode> {
    let mut words = Vec::new(rt.alloc());
    for word in env::args(&rt)?.skip(1) {
        words.push(word)?;
    }
    let mut source = StdSource::new(rt.reader());
    let mut sink = StdSink::new(io::writer(&rt));
    let mut shelf = FileShelf::new(&rt);
    let start = moment(&rt);
    let Ended {
        status,
        network,
        disks,
        told,
    } = mqnet(
        &rt,
        rt.alloc(),
        &words,
        &mut source,
        &mut sink,
        &mut shelf,
        start,
        &OpenGate,
    );
    // (taken apart here, the network has one drop, and none at each way out)
    let _disks = match network {
        Some(rested) => rested.into_disks(),
        None => disks,
    };
    let number = status.number();
    if number != 0 {
        eprintln!(rt; "mqnet: status {number}")?;
        match &told {
            Some(told) => eprint!(rt; "mqnet: {told}")?,
            None => eprintln!(rt; "mqnet: {}", status.words())?,
        }
    }
    Ok(ExitCode::from(number))
}
