//! The scan of a get over the rows of one queue.
ghost use Rattle.std.specs.Prelude.{◌≡◌, ◌++◌, ◌∷◌, [], map, filter, option_to_list, option_copied, IfOk, OnOk};
ghost use Rattle.mq_queue.specs.Rows.{is_free, is_persistent};
ghost use Rattle.mq_calls.specs.State.{Plain};
ghost use Rattle.mq_calls.specs.Reads.{is_past};
ghost use Rattle.mq_spec_manager.specs.Get.{any_id, is_at, is_under};
ghost use Rattle.mq_place.specs.States.{rows_after};
ghost use Rattle.mq_scan.specs.Scans.{scan_of, scanned_at, start_of, met_of};

use mq_base::{Items, NoMemory};
use mq_calls::{Get, Take};
use mq_message::{Ident, Place, Want};
use mq_place::{LocalRows, is_past};
use mq_queue::{Queue, Row, is_free, is_persistent};

/// An expired row that a scan met.
#[derive(Clone, Copy, Drop)]
pub struct Met {
    /// The ident of its message.
    pub ident: Ident,
    /// Whether its message is persistent.
    pub persistent: bool,
}

impl Met {
    fn of(row: &Row) -> Met
        ensures { result ≡ met_of row.now }
    {
        Met {
            ident: row.message.ident,
            persistent: is_persistent(&row.message),
        }
    }
}

fn scan_from<'a, Q: Queue + Drop>(
    local: &'a LocalRows<Q>,
    want: &Want,
    start: Option<Place>,
    moment: u64,
    met: &mut Items<Met>,
) -> Result<Option<&'a Row>, NoMemory>
    ensures found { IfOk result (λ row. option_copied row ≡ (scanned_at want.now moment (rows_after start local.now.queue.rows)).found) }
    ensures met { OnOk result (met.new ≡ met.old ++ map met_of (scanned_at want.now moment (rows_after start local.now.queue.rows)).expired) }
{
    let mut after = start;
    for seen in 0..local.len() {
        let Some(row) = local.first_row(want, after) else {
            return Ok(None);
        };
        if !is_past(moment, row.message.deadline) {
            return Ok(Some(row));
        }
        if met.push(Met::of(row)).is_err() {
            return Err(NoMemory);
        }
        after = Some(row.place);
    }
    Ok(None)
}

/// The row under a cursor, where one is set.
pub fn row_under<'a, Q: Queue + Drop>(
    local: &'a LocalRows<Q>,
    cursor: Option<Place>,
) -> Option<&'a Row>
    ensures { option_to_list (option_copied result) ≡ filter (is_at cursor) local.now.queue.rows }
{
    let _len = local.len();
    match cursor {
        None => None,
        Some(place) => local.at(place),
    }
}

fn scan_one<'a>(
    row: &'a Row,
    moment: u64,
    met: &mut Items<Met>,
) -> Result<Option<&'a Row>, NoMemory>
    ensures found { IfOk result (λ found. option_copied found ≡ (scanned_at any_id moment (row.now ∷ [])).found) }
    ensures met { OnOk result (met.new ≡ met.old ++ map met_of (scanned_at any_id moment (row.now ∷ [])).expired) }
{
    if !is_free(row) {
        return Ok(None);
    }
    if !is_past(moment, row.message.deadline) {
        return Ok(Some(row));
    }
    if met.push(Met::of(row)).is_err() {
        return Err(NoMemory);
    }
    Ok(None)
}

fn scan_under<'a, Q: Queue + Drop>(
    local: &'a LocalRows<Q>,
    cursor: Option<Place>,
    moment: u64,
    met: &mut Items<Met>,
) -> Result<Option<&'a Row>, NoMemory>
    ensures found { IfOk result (λ row. option_copied row ≡ (scanned_at any_id moment (filter (is_at cursor) local.now.queue.rows)).found) }
    ensures met { OnOk result (met.new ≡ met.old ++ map met_of (scanned_at any_id moment (filter (is_at cursor) local.now.queue.rows)).expired) }
{
    match row_under(local, cursor) {
        None => Ok(None),
        Some(row) => scan_one(row, moment, met),
    }
}

// Whether the row under the cursor is asked for.
fn is_under(take: &Take) -> bool
    ensures { result ≡ is_under take.now }
{
    match take {
        Take::Next | Take::BrowseFirst | Take::BrowseNext => false,
        Take::UnderCursor | Take::BrowseUnder => true,
    }
}

/// The place behind which a scan begins; none for the front.
pub fn start_of(take: &Take, cursor: Option<Place>) -> Option<Place>
    ensures { result ≡ start_of take.now cursor }
{
    match take {
        Take::Next | Take::BrowseFirst => None,
        Take::BrowseNext | Take::UnderCursor | Take::BrowseUnder => cursor,
    }
}

/// The scan of a get at a moment, in milliseconds, over the rows of its queue: the row that it finds, and, added to the
/// list, the expired rows that it meets before it, in order. It begins behind the cursor for BrowseNext, at its row where
/// the row under it is asked for, else at the front. After a refusal some of the expired rows may be there.
pub fn scan<'a, Q: Queue + Drop>(
    local: &'a LocalRows<Q>,
    get: &Get,
    cursor: Option<Place>,
    moment: u64,
    met: &mut Items<Met>,
) -> Result<Option<&'a Row>, NoMemory>
    ensures found { IfOk result (λ row. (p : Plain) → p.moment ≡ moment → option_copied row ≡ (scan_of get.now cursor p local.now.queue.rows).found) }
    ensures met { OnOk result ((p : Plain) → p.moment ≡ moment → met.new ≡ met.old ++ map met_of (scan_of get.now cursor p local.now.queue.rows).expired) }
{
    if is_under(&get.take) {
        scan_under(local, cursor, moment, met)
    } else {
        scan_from(local, &get.want, start_of(&get.take, cursor), moment, met)
    }
}
