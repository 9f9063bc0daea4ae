//! The line that tells of the run.
ghost use Rattle.std.specs.Prelude.{◌≡◌, ◌++◌, IfOk, OnOk};
ghost use Rattle.std.specs.List.{flat_map};
ghost use Rattle.mq_soak.specs.Words as words;

use mq_base::NoMemory;
use mq_calls::{Answer, Sent};
use mq_history::{History, Reply};
use mq_net_stands::{ManagerStanding, Standing, Text, put, put_number, put_word};
use std::alloc::Global;

fn is_ok(answer: &Answer<Sent>) -> bool
    ensures { result ≡ words.is_ok answer.now }
{
    match answer {
        Answer::Ok(_) => true,
        _ => false,
    }
}

/// Whether this is the answer of a put that is OK.
fn is_put(reply: &Reply) -> bool
    ensures { result ≡ words.is_put reply.now }
{
    match reply {
        Reply::Put(answer) => is_ok(answer),
        _ => false,
    }
}

/// How many puts were answered OK.
fn puts_of(histories: &[History]) -> u64
    ensures { result ≡ words.puts_of histories.now }
{
    match histories {
        [] => 0,
        [first, ..] => {
            let entries = first.entries.as_slice();
            entries.iter().filter(|entry| is_put(&entry.reply)).count() as u64
        }
    }
}

/// How many committed rows a manager has. They stand in memory, so their number is below 2^64: were it not, there would be none.
fn rows_at(manager: &ManagerStanding) -> Result<u64, NoMemory>
    ensures { IfOk result (λ n. n ≡ words.rows_at manager.now) }
{
    let mut rows = 0u64;
    for queue in manager.queues.as_slice() {
        rows = match rows.checked_add(queue.rows.len() as u64) {
            Some(rows) => rows,
            None => return Err(NoMemory),
        };
    }
    Ok(rows)
}

fn put_manager(alloc: Global, out: &mut Text, manager: &ManagerStanding) -> Result<(), NoMemory>
    ensures { OnOk result (out.new ≡ out.old ++ words.manager_part manager.now) }
{
    let rows = rows_at(manager)?;
    put_word(out, " ")?;
    put(out, manager.name.text())?;
    put_word(out, " ")?;
    put_number(alloc, out, rows)
}

fn put_managers(alloc: Global, out: &mut Text, managers: &[ManagerStanding]) -> Result<(), NoMemory>
    ensures { OnOk result (out.new ≡ out.old ++ flat_map words.manager_part managers.now) }
{
    for manager in managers {
        put_manager(alloc, out, manager)?;
    }
    Ok(())
}

/// The line of a run of that number: the puts that were answered OK, of each manager its committed rows, and the status.
///
/// # Errors
///
/// No memory.
pub fn soak_line(
    alloc: Global,
    n: u32,
    histories: &[History],
    standing: &Standing,
    status: u8,
) -> Result<Text, NoMemory>
    ensures { IfOk result (λ text. text ≡ words.soak_line n histories.now standing.now status) }
{
    let mut out = Text::new(alloc);
    put_word(&mut out, "SOAK ")?;
    put_number(alloc, &mut out, n as u64)?;
    put_word(&mut out, " PUTS ")?;
    put_number(alloc, &mut out, puts_of(histories))?;
    put_managers(alloc, &mut out, standing.managers.as_slice())?;
    put_word(&mut out, " STATUS ")?;
    put_number(alloc, &mut out, status as u64)?;
    put_word(&mut out, "\n")?;
    Ok(out)
}
