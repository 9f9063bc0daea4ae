//! The first row that is asked for in a lane, along the slots of its key.
ghost use Rattle.std.specs.Prelude.{◌≡◌, ◌<◌, ◌+◌, ℕ, Bool, None, Some, IfSome, IfNone, find, length, option_copied, slice_get, true, false, nat_lt, if◌then◌else◌};
ghost use Rattle.std.specs.List.Sorted.{IsPartitionPoint};
ghost use Rattle.mq_queue.specs.declared.row.Row as rows;
ghost use Rattle.mq_queue.specs.Queues.{is_at};
ghost use Rattle.mq_index.specs.declared.keys.Kind.TheVariants.{Lane};
ghost use Rattle.mq_index.specs.Keys.{key_by, keyed, same_key};
ghost use Rattle.mq_index.specs.Chains.{IsChainOf};
ghost use Rattle.mq_index.specs.Lanes.{in_lane, in_order};
ghost use Rattle.mq_index.specs.Slots.{AreMarked, AreRising, row_in};
ghost use Rattle.mq_index.specs.Walks.{AreKeyed, NoneAtAll, WalksAt, id_in, id_or, is_asked, is_taken, key_for, kind_for, kind_of, stored, taken_in};

use crate::chain::Chain;
use crate::keys::{Key, Kind, key_by};
use mq_message::{Place, Want};
use mq_queue::{Row, is_after, is_fitting};

fn is_asked(any: bool, want: &Want, after: Option<Place>, row: &Row) -> bool
    ensures { result ≡ is_asked any want.now after row.now }
{
    is_after(after, row) && (any || is_fitting(want, row))
}

fn is_taken(lane: u8, any: bool, want: &Want, after: Option<Place>, row: &Row) -> bool
    ensures { result ≡ is_taken lane any want.now after row.now }
{
    row.place.lane == lane && is_asked(any, want, after, row)
}

/// The row of a slot, if it is one that is asked for.
fn taken_at<'a>(
    slots: &'a [Option<Row>],
    at: usize,
    lane: u8,
    any: bool,
    want: &Want,
    after: Option<Place>,
) -> Option<&'a Row>
    requires there { at < length slots.now }
    ensures { option_copied result ≡ taken_in (is_taken lane any want.now after) (slice_get slots.now at) }
{
    match &slots[at] {
        None => None,
        Some(row) => {
            if is_taken(lane, any, want, after, row) {
                Some(row)
            } else {
                None
            }
        }
    }
}

fn kind_of(msg: &Option<[u8; 24]>, correl: &Option<[u8; 24]>) -> Kind
    ensures { result ≡ kind_of msg.now correl.now }
{
    match msg {
        Some(_) => Kind::MsgId,
        None => match correl {
            Some(_) => Kind::CorrelId,
            None => Kind::Lane,
        },
    }
}

/// By what rows are found: by an id that is asked for, or by the lane alone.
pub fn kind_for(any: bool, want: &Want) -> Kind
    ensures { result ≡ kind_for any want.now }
{
    if any {
        Kind::Lane
    } else {
        kind_of(&want.msg_id, &want.correl_id)
    }
}

fn id_or(id: &Option<[u8; 24]>) -> [u8; 24]
    ensures { result ≡ id_or id.now }
{
    match id {
        None => [0; 24],
        Some(id) => *id,
    }
}

fn id_in(kind: Kind, msg: &Option<[u8; 24]>, correl: &Option<[u8; 24]>) -> [u8; 24]
    ensures { result ≡ id_in kind msg.now correl.now }
{
    match kind {
        Kind::Lane => [0; 24],
        Kind::MsgId => id_or(msg),
        Kind::CorrelId => id_or(correl),
    }
}

fn key_for(lane: u8, kind: Kind, want: &Want) -> Key
    ensures { result ≡ key_for lane kind want.now }
{
    Key {
        lane,
        id: id_in(kind, &want.msg_id, &want.correl_id),
    }
}

/// The first slot that isn't before an arrival, or the end.
fn start_at(marks: &[u64], arrival: u64) -> usize
    requires { AreRising marks.now }
    ensures { IsPartitionPoint (λ (mark : ℕ). nat_lt mark arrival ≡ true) (λ (mark : ℕ). nat_lt mark arrival ≡ false) marks.now result }
{
    marks.partition_point(|mark| *mark < arrival)
}

/// The slot of an arrival.
pub fn slot_of(marks: &[u64], arrival: u64) -> Option<usize>
    requires { AreRising marks.now }
    ensures found { IfSome result (λ at. slice_get marks.now at ≡ Some arrival) }
    ensures none { IfNone result ((at : ℕ) → slice_get marks.now at ≡ Some arrival → ⊥) }
{
    let at = start_at(marks, arrival);
    match marks.get(at) {
        None => None,
        Some(mark) => { if *mark == arrival { Some(at) } else { None } }
    }
}

/// Whether a slot has a row with the key.
fn has_key(slots: &[Option<Row>], at: usize, kind: Kind, key: &Key) -> bool
    requires there { at < length slots.now }
    ensures { result ≡ true → (row : rows.Row) × (slice_get slots.now at ≡ Some (Some row)) × (same_key key.now (key_by kind row) ≡ true) }
{
    match &slots[at] {
        None => false,
        Some(row) => *key == key_by(kind, row),
    }
}

/// Where a walk along the slots of a key begins: behind the slot of a place, where that has the key, else at its first.
fn start_of(
    chain: &Chain,
    slots: &[Option<Row>],
    marks: &[u64],
    kind: Kind,
    key: &Key,
    place: Place,
) -> Option<usize>
    requires chain { IsChainOf (keyed kind slots.now) chain.now }
    requires marked { (arrivals : ℕ) × AreMarked marks.now slots.now arrivals }
    requires lane { key.now.lane ≡ place.lane }
    ensures { (test : rows.Row → Bool) → AreKeyed test (Some place) kind key.now → WalksAt test kind key.now slots.now result }
{
    let Some(at) = slot_of(marks, place.arrival) else {
        return chain.first(key, slots, kind);
    };
    if has_key(slots, at, kind, key) {
        chain.next(key, at, slots, kind)
    } else {
        chain.first(key, slots, kind)
    }
}

/// Where a walk along the slots of a key begins; nowhere, where its lane stands before the place.
fn start_for(
    chain: &Chain,
    slots: &[Option<Row>],
    marks: &[u64],
    kind: Kind,
    key: &Key,
    after: Option<Place>,
) -> Option<usize>
    requires chain { IsChainOf (keyed kind slots.now) chain.now }
    requires marked { (arrivals : ℕ) × AreMarked marks.now slots.now arrivals }
    ensures { (test : rows.Row → Bool) → AreKeyed test after kind key.now → WalksAt test kind key.now slots.now result }
{
    match after {
        None => chain.first(key, slots, kind),
        Some(place) => {
            if key.lane < place.lane {
                None
            } else if key.lane == place.lane {
                start_of(chain, slots, marks, kind, key, place)
            } else {
                chain.first(key, slots, kind)
            }
        }
    }
}

/// Whether a lane has a row.
pub fn has_lane(lanes: &Chain, slots: &[Option<Row>], marks: &[u64], lane: u8, want: &Want) -> bool
    requires chain { IsChainOf (keyed Lane slots.now) lanes.now }
    requires marked { (arrivals : ℕ) × AreMarked marks.now slots.now arrivals }
    ensures { result ≡ false → NoneAtAll (is_taken lane true want.now None) slots.now }
{
    let key = key_for(lane, Kind::Lane, want);
    match start_for(lanes, slots, marks, Kind::Lane, &key, None) {
        None => false,
        Some(_) => true,
    }
}

/// The first row that is asked for, from a slot of its key on.
fn walk<'a>(
    slots: &'a [Option<Row>],
    chain: &Chain,
    start: Option<usize>,
    kind: Kind,
    key: &Key,
    any: bool,
    want: &Want,
    after: Option<Place>,
) -> Option<&'a Row>
    requires chain { IsChainOf (keyed kind slots.now) chain.now }
    requires keyed { AreKeyed (is_taken key.now.lane any want.now after) after kind key.now }
    requires starts { WalksAt (is_taken key.now.lane any want.now after) kind key.now slots.now start }
    ensures { option_copied result ≡ find (is_taken key.now.lane any want.now after) (stored slots.now) }
{
    let mut at = start;
    while let Some(place) = at {
        if let Some(row) = taken_at(slots, place, key.lane, any, want, after) {
            return Some(row);
        }
        at = chain.next(key, place, slots, kind);
    }
    None
}

/// The first row of a lane that is asked for.
pub fn found_in<'a>(
    slots: &'a [Option<Row>],
    marks: &[u64],
    chain: &Chain,
    lane: u8,
    any: bool,
    want: &Want,
    after: Option<Place>,
) -> Option<&'a Row>
    requires chain { IsChainOf (keyed (kind_for any want.now) slots.now) chain.now }
    requires marked { (arrivals : ℕ) × AreMarked marks.now slots.now arrivals }
    ensures { option_copied result ≡ find (is_taken lane any want.now after) (stored slots.now) }
{
    let kind = kind_for(any, want);
    let key = key_for(lane, kind, want);
    let start = start_for(chain, slots, marks, kind, &key, after);
    walk(slots, chain, start, kind, &key, any, want, after)
}

/// The row of a slot.
fn row_at(slots: &[Option<Row>], at: usize) -> Option<&Row>
    requires there { at < length slots.now }
    ensures { option_copied result ≡ row_in (slice_get slots.now at) }
{
    match &slots[at] {
        None => None,
        Some(row) => Some(row),
    }
}

/// The row, if it is of this lane.
fn in_lane(row: &Row, lane: u8) -> Option<&Row>
    ensures { option_copied result ≡ (if in_lane lane row.now then Some row.now else None) }
{
    if row.place.lane == lane {
        Some(row)
    } else {
        None
    }
}

/// The row at a place.
pub fn placed<'a>(slots: &'a [Option<Row>], marks: &[u64], place: Place) -> Option<&'a Row>
    requires marked { (arrivals : ℕ) × AreMarked marks.now slots.now arrivals }
    ensures { option_copied result ≡ find (is_at place) (in_order (stored slots.now)) }
{
    let Some(at) = slot_of(marks, place.arrival) else {
        return None;
    };
    match row_at(slots, at) {
        None => None,
        Some(row) => in_lane(row, place.lane),
    }
}
