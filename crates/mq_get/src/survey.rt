//! What a get's scan will meet and find, counted before any memory is taken.
ghost use Rattle.std.specs.Prelude.{◌≡◌, ◌+◌, ◌<◌, ◌^◌, [], ◌∷◌, length, filter, option_to_list, option_copied};
ghost use Rattle.mq_queue.specs.Rows.{is_free};
ghost use Rattle.mq_calls.specs.State.{Plain};
ghost use Rattle.mq_calls.specs.Reads.{is_past};
ghost use Rattle.mq_spec_manager.specs.Get.{any_id, is_at, persistent_rows};
ghost use Rattle.mq_core.specs.from_place.States.{rows_after};
ghost use Rattle.mq_scan.specs.Scans.{scan_of, scanned_at, start_of};

use crate::takes::is_under;
use mq_calls::{Get, Take};
use mq_core::below::{LocalRows, is_past};
use mq_message::{Place, Want};
use mq_queue::{Queue, Row, is_free, is_persistent};
use mq_scan::{row_under, start_of};

/// One more where the row's message is persistent.
fn count_lasting(row: &Row, lasting: u64) -> u64
    requires { lasting + 1 < 2 ^ 64 }
    ensures { result ≡ lasting + length (persistent_rows (row.now ∷ [])) }
{
    if is_persistent(&row.message) {
        lasting + 1
    } else {
        lasting
    }
}

fn survey_from<'a, Q: Queue + Drop>(
    local: &'a LocalRows<Q>,
    want: &Want,
    start: Option<Place>,
    moment: u64,
    lasting: &mut u64,
) -> Option<&'a Row>
    requires { lasting.old ≡ 0 }
    ensures found { option_copied result ≡ (scanned_at want.now moment (rows_after start local.now.queue.rows)).found }
    ensures lasting { lasting.new ≡ length (persistent_rows (scanned_at want.now moment (rows_after start local.now.queue.rows)).expired) }
{
    let mut after = start;
    for seen in 0..local.len() {
        let Some(row) = local.first_row(want, after) else {
            return None;
        };
        if !is_past(moment, row.message.deadline) {
            return Some(row);
        }
        *lasting = count_lasting(row, *lasting);
        after = Some(row.place);
    }
    None
}

fn survey_one<'a>(row: &'a Row, moment: u64, lasting: &mut u64) -> Option<&'a Row>
    requires { lasting.old ≡ 0 }
    ensures found { option_copied result ≡ (scanned_at any_id moment (row.now ∷ [])).found }
    ensures lasting { lasting.new ≡ length (persistent_rows (scanned_at any_id moment (row.now ∷ [])).expired) }
{
    if !is_free(row) {
        return None;
    }
    if !is_past(moment, row.message.deadline) {
        return Some(row);
    }
    *lasting = count_lasting(row, *lasting);
    None
}

fn survey_under<'a, Q: Queue + Drop>(
    local: &'a LocalRows<Q>,
    cursor: Option<Place>,
    moment: u64,
    lasting: &mut u64,
) -> Option<&'a Row>
    requires { lasting.old ≡ 0 }
    ensures found { option_copied result ≡ (scanned_at any_id moment (filter (is_at cursor) local.now.queue.rows)).found }
    ensures lasting { lasting.new ≡ length (persistent_rows (scanned_at any_id moment (filter (is_at cursor) local.now.queue.rows)).expired) }
{
    match row_under(local, cursor) {
        None => None,
        Some(row) => survey_one(row, moment, lasting),
    }
}

/// The row that a get's scan at a moment finds, in milliseconds; and counted, the expired rows that last, which it meets
/// before it. It takes no memory.
pub(crate) fn survey<'a, Q: Queue + Drop>(
    local: &'a LocalRows<Q>,
    get: &Get,
    cursor: Option<Place>,
    moment: u64,
    lasting: &mut u64,
) -> Option<&'a Row>
    requires { lasting.old ≡ 0 }
    ensures found { (p : Plain) → p.moment ≡ moment → option_copied result ≡ (scan_of get.now cursor p local.now.queue.rows).found }
    ensures lasting { (p : Plain) → p.moment ≡ moment → lasting.new ≡ length (persistent_rows (scan_of get.now cursor p local.now.queue.rows).expired) }
{
    if is_under(&get.take) {
        survey_under(local, cursor, moment, lasting)
    } else {
        survey_from(
            local,
            &get.want,
            start_of(&get.take, cursor),
            moment,
            lasting,
        )
    }
}
