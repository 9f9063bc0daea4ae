//! Queues, channels and the ledger at the end.
ghost use Rattle.std.specs.Prelude.{◌≡◌, ◌++◌, OnOk};
ghost use Rattle.std.specs.List.{flat_map};
ghost use Rattle.mq_net_stands.specs.Stands.{queued_priority, persist_text, holder_text, row_front, row_back, row_text, queue_text, up_text, queues_text, manager_text, cause_text, sender_word, receiver_word, doubt_text, session_text, sender_text, receiver_text, sender_line, receiver_line, cable_text, rows_of, ident_part, ledger_line, ledger_object, ledger_manager, ledger_text};

use crate::standing::{
    CableStanding, ManagerStanding, QueueStanding, ReceiverStanding, SenderStanding,
};
use crate::writing::{Text, put, put_ident, put_number, put_unit, put_word};
use mq_base::{ChName, NoMemory, QName};
use mq_history::ManagerPlaces;
use mq_message::Holder;
use mq_net_rows::ShelfIndex;
use mq_objects::Object;
use mq_queue::Row;
use mq_receiver::ReceiverState;
use mq_sender::{SenderState, StopCause};
use mq_sync::Unit;
use std::alloc::Global;

/// The priority at which a row is queued.
fn queued_priority(priority: i32) -> u64
    ensures { result ≡ queued_priority priority }
{
    if priority < 0 {
        0
    } else if priority > 9 {
        9
    } else {
        priority as u64
    }
}

fn persist_word(persistence: i32) -> &'static str
    ensures { result.now ≡ persist_text persistence }
{
    if persistence == 1 { "YES" } else { "NO" }
}

fn holder_word(by: &Option<Holder>) -> &'static str
    ensures { result.now ≡ holder_text by.now }
{
    match by {
        None => "FREE",
        Some(Holder::Unit(_)) => "UNIT",
        Some(Holder::Batch(_)) => "BATCH",
    }
}

fn put_row_front(alloc: Global, out: &mut Text, row: &Row) -> Result<(), NoMemory>
    ensures { OnOk result (out.new ≡ out.old ++ row_front row.now) }
{
    put_word(out, "  ")?;
    put_ident(alloc, out, &row.message.ident)?;
    put_word(out, " PRTY ")?;
    put_number(alloc, out, queued_priority(row.message.md.priority))
}

fn put_row_back(alloc: Global, out: &mut Text, row: &Row) -> Result<(), NoMemory>
    ensures { OnOk result (out.new ≡ out.old ++ row_back row.now) }
{
    put_word(out, " PERSIST ")?;
    put_word(out, persist_word(row.message.md.persistence))?;
    put_word(out, " LEN ")?;
    put_number(alloc, out, row.message.body.len() as u64)?;
    put_word(out, " ")?;
    put_word(out, holder_word(&row.by))?;
    put_word(out, "\n")
}

fn put_row(alloc: Global, out: &mut Text, row: &Row) -> Result<(), NoMemory>
    ensures { OnOk result (out.new ≡ out.old ++ row_text row.now) }
{
    put_row_front(alloc, out, row)?;
    put_row_back(alloc, out, row)
}

fn put_rows(alloc: Global, out: &mut Text, rows: &[Row]) -> Result<(), NoMemory>
    ensures { OnOk result (out.new ≡ out.old ++ flat_map row_text rows.now) }
{
    for row in rows {
        put_row(alloc, out, row)?;
    }
    Ok(())
}

fn put_queue(alloc: Global, out: &mut Text, queue: &QueueStanding) -> Result<(), NoMemory>
    ensures { OnOk result (out.new ≡ out.old ++ queue_text queue.now) }
{
    put(out, queue.name.text())?;
    put_word(out, " DEPTH ")?;
    put_number(alloc, out, queue.depth)?;
    put_word(out, "\n")?;
    put_rows(alloc, out, queue.rows.as_slice())
}

fn put_queues(alloc: Global, out: &mut Text, queues: &[QueueStanding]) -> Result<(), NoMemory>
    ensures { OnOk result (out.new ≡ out.old ++ flat_map queue_text queues.now) }
{
    for queue in queues {
        put_queue(alloc, out, queue)?;
    }
    Ok(())
}

fn up_word(is_up: bool) -> &'static str
    ensures { result.now ≡ up_text is_up }
{
    if is_up { " UP\n" } else { " DOWN\n" }
}

fn put_queues_if(
    alloc: Global,
    out: &mut Text,
    is_up: bool,
    queues: &[QueueStanding],
) -> Result<(), NoMemory>
    ensures { OnOk result (out.new ≡ out.old ++ queues_text is_up queues.now) }
{
    if is_up {
        put_queues(alloc, out, queues)
    } else {
        Ok(())
    }
}

fn put_manager(alloc: Global, out: &mut Text, manager: &ManagerStanding) -> Result<(), NoMemory>
    ensures { OnOk result (out.new ≡ out.old ++ manager_text manager.now) }
{
    put_word(out, "QMGR ")?;
    put(out, manager.name.text())?;
    put_word(out, up_word(manager.is_up))?;
    put_queues_if(alloc, out, manager.is_up, manager.queues.as_slice())
}

/// The managers with their queues.
pub fn put_managers(
    alloc: Global,
    out: &mut Text,
    managers: &[ManagerStanding],
) -> Result<(), NoMemory>
    ensures { OnOk result (out.new ≡ out.old ++ flat_map manager_text managers.now) }
{
    for manager in managers {
        put_manager(alloc, out, manager)?;
    }
    Ok(())
}

fn put_cause(alloc: Global, out: &mut Text, cause: &StopCause) -> Result<(), NoMemory>
    ensures { OnOk result (out.new ≡ out.old ++ cause_text cause.now) }
{
    match cause {
        StopCause::Operator => Ok(()),
        StopCause::SequenceError { own, partner } => {
            put_word(out, " SEQERR ")?;
            put_number(alloc, out, *own as u64)?;
            put_word(out, " ")?;
            put_number(alloc, out, *partner as u64)
        }
        StopCause::NoAnswer => put_word(out, " NOANSWER"),
        StopCause::Reason(reason) => {
            put_word(out, " ")?;
            put_number(alloc, out, *reason as u64)
        }
    }
}

fn put_sender_word(alloc: Global, out: &mut Text, state: &SenderState) -> Result<(), NoMemory>
    ensures { OnOk result (out.new ≡ out.old ++ sender_word state.now) }
{
    match state {
        SenderState::Inactive => put_word(out, "INACTIVE"),
        SenderState::Stopped(cause) => {
            put_word(out, "STOPPED")?;
            put_cause(alloc, out, cause)
        }
        SenderState::Starting => put_word(out, "STARTING"),
        SenderState::Hailing => put_word(out, "STARTING"),
        SenderState::Binding => put_word(out, "BINDING"),
        SenderState::Running => put_word(out, "RUNNING"),
        SenderState::Sending { .. } => put_word(out, "RUNNING"),
        SenderState::Ready => put_word(out, "RUNNING"),
        SenderState::Waiting => put_word(out, "RUNNING"),
    }
}

fn receiver_word(state: &ReceiverState) -> &'static str
    ensures { result.now ≡ receiver_word state.now }
{
    match state {
        ReceiverState::Inactive => "INACTIVE",
        ReceiverState::Stopped => "STOPPED",
        ReceiverState::Bound { .. } => "RUNNING",
    }
}

fn put_doubt(alloc: Global, out: &mut Text, unit: &Option<Unit>) -> Result<(), NoMemory>
    ensures { OnOk result (out.new ≡ out.old ++ doubt_text unit.now) }
{
    match unit {
        None => put_word(out, "-"),
        Some(unit) => put_unit(alloc, out, unit),
    }
}

fn put_session(alloc: Global, out: &mut Text, session: u64, last: u32) -> Result<(), NoMemory>
    ensures { OnOk result (out.new ≡ out.old ++ session_text session last) }
{
    put_word(out, " SESSION ")?;
    put_number(alloc, out, session)?;
    put_word(out, " SEQ ")?;
    put_number(alloc, out, last as u64)
}

fn put_sender(alloc: Global, out: &mut Text, end: &Option<SenderStanding>) -> Result<(), NoMemory>
    ensures { OnOk result (out.new ≡ out.old ++ sender_text end.now) }
{
    match end {
        None => put_word(out, "DOWN"),
        Some(end) => {
            put_sender_word(alloc, out, &end.state)?;
            put_session(alloc, out, end.session, end.last)?;
            put_word(out, " INDOUBT ")?;
            put_doubt(alloc, out, &end.in_doubt)
        }
    }
}

fn put_receiver(
    alloc: Global,
    out: &mut Text,
    end: &Option<ReceiverStanding>,
) -> Result<(), NoMemory>
    ensures { OnOk result (out.new ≡ out.old ++ receiver_text end.now) }
{
    match end {
        None => put_word(out, "DOWN"),
        Some(end) => {
            put_word(out, receiver_word(&end.state))?;
            put_session(alloc, out, end.session, end.last)?;
            put_word(out, " LAST ")?;
            put_unit(alloc, out, &end.unit)
        }
    }
}

fn put_sender_line(
    alloc: Global,
    out: &mut Text,
    channel: &ChName,
    end: &Option<SenderStanding>,
) -> Result<(), NoMemory>
    ensures { OnOk result (out.new ≡ out.old ++ sender_line channel.now end.now) }
{
    put_word(out, "CH ")?;
    put(out, channel.text())?;
    put_word(out, " SENDER ")?;
    put_sender(alloc, out, end)?;
    put_word(out, "\n")
}

fn put_receiver_line(
    alloc: Global,
    out: &mut Text,
    channel: &ChName,
    end: &Option<ReceiverStanding>,
) -> Result<(), NoMemory>
    ensures { OnOk result (out.new ≡ out.old ++ receiver_line channel.now end.now) }
{
    put_word(out, "CH ")?;
    put(out, channel.text())?;
    put_word(out, " RECEIVER ")?;
    put_receiver(alloc, out, end)?;
    put_word(out, "\n")
}

/// The cables with both their ends.
pub fn put_cables(alloc: Global, out: &mut Text, cables: &[CableStanding]) -> Result<(), NoMemory>
    ensures { OnOk result (out.new ≡ out.old ++ flat_map cable_text cables.now) }
{
    for cable in cables {
        put_cable(alloc, out, cable)?;
    }
    Ok(())
}

fn put_cable(alloc: Global, out: &mut Text, cable: &CableStanding) -> Result<(), NoMemory>
    ensures { OnOk result (out.new ≡ out.old ++ cable_text cable.now) }
{
    put_sender_line(alloc, out, &cable.channel, &cable.sender)?;
    put_receiver_line(alloc, out, &cable.channel, &cable.receiver)
}

/// The rows of a queue by its name.
#[tactic(auto, using(crate::proofs::RowLaws::same_rows))]
fn rows_of<'a>(index: &ShelfIndex<'a>, name: &QName) -> &'a [Row]
    ensures { result.now ≡ rows_of name.now index.now }
{
    index.rows_in(name)
}

fn put_ident_part(alloc: Global, out: &mut Text, row: &Row) -> Result<(), NoMemory>
    ensures { OnOk result (out.new ≡ out.old ++ ident_part row.now) }
{
    put_word(out, " ")?;
    put_ident(alloc, out, &row.message.ident)
}

fn put_ident_parts(alloc: Global, out: &mut Text, rows: &[Row]) -> Result<(), NoMemory>
    ensures { OnOk result (out.new ≡ out.old ++ flat_map ident_part rows.now) }
{
    for row in rows {
        put_ident_part(alloc, out, row)?;
    }
    Ok(())
}

fn put_ledger_line(
    alloc: Global,
    out: &mut Text,
    manager: &QName,
    name: &QName,
    rows: &[Row],
) -> Result<(), NoMemory>
    ensures { OnOk result (out.new ≡ out.old ++ ledger_line manager.now name.now rows.now) }
{
    if rows.is_empty() {
        return Ok(());
    }
    put(out, manager.text())?;
    put_word(out, " ")?;
    put(out, name.text())?;
    put_ident_parts(alloc, out, rows)?;
    put_word(out, "\n")
}

/// An object where it is a local queue; the index is of the manager's queues.
fn put_ledger_object(
    alloc: Global,
    out: &mut Text,
    index: &ShelfIndex,
    places: &ManagerPlaces,
    object: &Object,
) -> Result<(), NoMemory>
    requires { index.now ≡ places.now.queues }
    ensures { OnOk result (out.new ≡ out.old ++ ledger_object places.now object.now) }
{
    match object {
        Object::Local(queue) => {
            let rows = rows_of(index, &queue.name);
            put_ledger_line(alloc, out, &places.name, &queue.name, rows)
        }
        _ => Ok(()),
    }
}

fn put_ledger_objects(
    alloc: Global,
    out: &mut Text,
    index: &ShelfIndex,
    places: &ManagerPlaces,
    objects: &[Object],
) -> Result<(), NoMemory>
    requires { index.now ≡ places.now.queues }
    ensures { OnOk result (out.new ≡ out.old ++ flat_map (ledger_object places.now) objects.now) }
{
    for object in objects {
        put_ledger_object(alloc, out, index, places, object)?;
    }
    Ok(())
}

/// The ledger of a manager that is up.
fn put_ledger_up(alloc: Global, out: &mut Text, places: &ManagerPlaces) -> Result<(), NoMemory>
    ensures { OnOk result (out.new ≡ out.old ++ flat_map (ledger_object places.now) places.now.definitions.objects) }
{
    let index = ShelfIndex::new(alloc, places.queues.as_slice())?;
    put_ledger_objects(
        alloc,
        out,
        &index,
        places,
        places.definitions.objects.as_slice(),
    )
}

fn put_ledger_manager(
    alloc: Global,
    out: &mut Text,
    is_up: bool,
    places: &ManagerPlaces,
) -> Result<(), NoMemory>
    ensures { OnOk result (out.new ≡ out.old ++ ledger_manager is_up places.now) }
{
    if is_up {
        put_ledger_up(alloc, out, places)
    } else {
        Ok(())
    }
}

/// The ledger of the managers that are up.
pub fn put_ledger(
    alloc: Global,
    out: &mut Text,
    managers: &[ManagerStanding],
    places: &[ManagerPlaces],
) -> Result<(), NoMemory>
    ensures { OnOk result (out.new ≡ out.old ++ ledger_text managers.now places.now) }
{
    for (at, manager) in managers.iter().enumerate() {
        let Some(place) = places.get(at) else {
            return Ok(());
        };
        put_ledger_manager(alloc, out, manager.is_up, place)?;
    }
    Ok(())
}
