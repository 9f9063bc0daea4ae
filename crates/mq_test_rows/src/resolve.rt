//! mq_resolve: where names lead.

use crate::fixture::name_of;
use mq_objects::{AliasQueue, Defs, LocalQueue, ManagerAttributes, Object, RemoteQueue, Usage};
use mq_resolve::{PathStep, Route, RouteEnd, resolve};
use std::alloc::{AllocError, Global};
use std::test::*;

/// An object of a manager.
enum Made {
    Local(&'static str, Usage),
    /// An alias, and what it names.
    Alias(&'static str, &'static str),
    /// A remote queue, and its RNAME, RQMNAME and XMITQ.
    Remote(&'static str, &'static str, &'static str, &'static str),
}

fn local(alloc: Global, name: &str, usage: Usage) -> Object {
    let mut queue = LocalQueue::new(alloc, name_of(name));
    queue.usage = usage;
    Object::Local(queue)
}

fn alias(alloc: Global, name: &str, target: &str) -> Object {
    let mut queue = AliasQueue::new(alloc, name_of(name));
    queue.target = name_of(target);
    Object::Alias(queue)
}

fn remote(alloc: Global, name: &str, remote_name: &str, manager: &str, xmitq: &str) -> Object {
    let mut queue = RemoteQueue::new(alloc, name_of(name));
    queue.remote_name = name_of(remote_name);
    queue.remote_manager = name_of(manager);
    queue.transmission_queue = name_of(xmitq);
    Object::Remote(queue)
}

fn set_default(alloc: Global, defs: &mut Defs, name: &str) {
    let mut attributes = ManagerAttributes::new(alloc);
    attributes.default_transmission_queue = name_of(name);
    defs.set_manager(attributes);
}

fn object_of(alloc: Global, made: &Made) -> Object {
    match made {
        Made::Local(name, usage) => local(alloc, name, *usage),
        Made::Alias(name, target) => alias(alloc, name, target),
        Made::Remote(name, remote_name, manager, xmitq) => {
            remote(alloc, name, remote_name, manager, xmitq)
        }
    }
}

/// An object more; none, where memory lacks.
fn add(alloc: Global, defs: &mut Defs, made: &Made) {
    if defs.reserve().is_ok() {
        defs.set(object_of(alloc, made));
    }
}

fn add_all(alloc: Global, defs: &mut Defs, all: &[Made]) {
    for made in all {
        add(alloc, defs, made);
    }
}

fn write_end(text: &mut String, end: &RouteEnd) -> Result<(), AllocError> {
    match end {
        RouteEnd::Local(name) => write!(text, "LOCAL {name}"),
        RouteEnd::Via { xq, rq, rqm } => write!(text, "VIA {xq} TO {rq} AT {rqm}"),
    }
}

fn write_route(text: &mut String, route: &Route) -> Result<(), AllocError> {
    write_end(text, &route.end)?;
    text.push_str(" BY")?;
    for step in route.path.as_slice() {
        match step {
            PathStep::Queue(name) => write!(text, " {name}")?,
            PathStep::DefXmitq => text.push_str(" DEFXMITQ")?,
        }
    }
    Ok(())
}

/// Writes where a name at a manager's name leads from LONDON, or the number of the reason.
fn tell(text: &mut String, defs: &Defs, name: &str, manager: &str) -> Result<(), AllocError> {
    match resolve(defs, &name_of("LONDON"), &name_of(name), &name_of(manager)) {
        Ok(route) => write_route(text, &route),
        Err(reason) => {
            let number = reason.number();
            write!(text, "{number}")
        }
    }
}

/// Whether a name at a manager's name leads there.
fn leads(alloc: Global, defs: &Defs, name: &str, manager: &str, wanted: &str) -> bool {
    let mut text = String::new(alloc);
    tell(&mut text, defs, name, manager).is_ok() && text.as_str() == wanted
}

/// The first row, from 0, whose name leads elsewhere.
fn first_wrong(alloc: Global, defs: &Defs, rows: &[(&str, &str, &str)]) -> Option<usize> {
    for (row, (name, manager, wanted)) in rows.iter().enumerate() {
        if !leads(alloc, defs, name, manager, wanted) {
            return Some(row);
        }
    }
    None
}

/// The objects of LONDON, whose default transmission queue is T.
const LONDON: [Made; 7] = [
    Made::Local("T", Usage::Transmission),
    Made::Remote("ROME", "", "MILAN", ""),
    Made::Remote("RA", "X", "ROMA", ""),
    Made::Alias("A1", "RA"),
    Made::Alias("A2", "A1"),
    Made::Local("N", Usage::Normal),
    Made::Remote("RN", "X", "P", "N"),
];

/// These objects; fewer, where memory lacks.
fn london(alloc: Global) -> Defs {
    let mut defs = Defs::new(alloc);
    set_default(alloc, &mut defs, "T");
    add_all(alloc, &mut defs, &LONDON);
    defs
}

/// A name, a manager's name, and where they lead from LONDON.
const OPENS: [(&str, &str, &str); 12] = [
    ("A1", "", "VIA T TO X AT ROMA BY A1 RA DEFXMITQ T"),
    ("Y", "ROME", "VIA T TO Y AT MILAN BY ROME DEFXMITQ T"),
    ("A2", "", "2001"),
    ("RN", "", "2092"),
    ("ROME", "", "2184"),
    ("Z", "", "2085"),
    ("Y", "N", "2092"),
    ("Y", "A1", "2091"),
    ("Y", "RA", "2087"),
    ("", "", "2085"),
    ("", "LONDON", "2085"),
    ("", "ROME", "2184"),
];

#[test]
fn names_of_a_manager_lead_where_the_manual_says(rt: HostRuntime) {
    let defs = london(rt.alloc());
    assert_eq!(rt; first_wrong(rt.alloc(), &defs, &OPENS), None);
}

/// What stands beside the objects of `london`.
const BREADTH: [Made; 12] = [
    Made::Local("T2", Usage::Transmission),
    Made::Alias("BLANK", ""),
    Made::Alias("LOST", "NOWHERE"),
    Made::Alias("AN", "N"),
    Made::Remote("NOQM", "X", "", ""),
    Made::Remote("OWN", "X", "LONDON", ""),
    Made::Remote("NOXQ", "X", "P", "NOWHERE"),
    Made::Remote("ALXQ", "X", "P", "A1"),
    Made::Remote("BYT2", "X", "P", "T2"),
    Made::Remote("HERE", "", "", ""),
    Made::Remote("LON", "", "LONDON", ""),
    Made::Remote("FAR", "", "MILAN", "T2"),
];

/// All of these objects; fewer, where memory lacks.
fn breadth(alloc: Global) -> Defs {
    let mut defs = london(alloc);
    add_all(alloc, &mut defs, &BREADTH);
    defs
}

/// The same for a case of each row of the tables.
const ROWS: [(&str, &str, &str); 15] = [
    ("N", "LONDON", "LOCAL N BY N"),
    ("BLANK", "", "2082"),
    ("LOST", "", "2082"),
    ("AN", "", "LOCAL N BY AN N"),
    ("NOQM", "", "2087"),
    ("OWN", "", "2087"),
    ("NOXQ", "", "2196"),
    ("ALXQ", "", "2091"),
    ("BYT2", "", "VIA T2 TO X AT P BY BYT2 T2"),
    ("Y", "T2", "VIA T2 TO Y AT T2 BY T2"),
    ("Y", "PARIS", "VIA T TO Y AT PARIS BY DEFXMITQ T"),
    ("N", "HERE", "LOCAL N BY HERE N"),
    ("A1", "LON", "VIA T TO X AT ROMA BY LON A1 RA DEFXMITQ T"),
    ("Y", "FAR", "VIA T2 TO Y AT MILAN BY FAR T2"),
    ("A2", "LON", "2001"),
];

#[test]
fn each_row_of_the_tables_answers(rt: HostRuntime) {
    let defs = breadth(rt.alloc());
    assert_eq!(rt; first_wrong(rt.alloc(), &defs, &ROWS), None);
}

/// Default transmission queues, and what is told of a message to another manager.
const DEFAULTS: [(&str, &str); 4] = [
    ("", "2087"),
    ("NOWHERE", "2197"),
    ("A1", "2198"),
    ("N", "2199"),
];

/// Whether this is told where LONDON has that default transmission queue.
fn is_default_told(alloc: Global, defs: &mut Defs, name: &str, wanted: &str) -> bool {
    set_default(alloc, defs, name);
    leads(alloc, defs, "Y", "PARIS", wanted)
}

#[test]
fn a_bad_defxmitq_is_told(rt: HostRuntime) {
    let mut defs = london(rt.alloc());
    for (name, wanted) in &DEFAULTS {
        assert!(rt;
            is_default_told(rt.alloc(), &mut defs, name, wanted),
            "{name}"
        );
    }
}
