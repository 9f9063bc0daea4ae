//! Keys of an index, and where each stands first and last.
ghost use Rattle.std.specs.Prelude.{◌≡◌, ◌<◌, ◌≤◌, ◌+◌, IsSome, OnOk, Some, None, if◌then◌else◌};
ghost use Rattle.std.specs.HashMap.{spare};
ghost use Rattle.mq_index.specs.declared.keys.Key as keys;
ghost use Rattle.mq_index.specs.Keys.{ends_in, same_key, id_by, key_by};

use mq_base::NoMemory;
use mq_queue::Row;
use std::collections::HashMap;

/// By what rows are indexed: by lane alone, or by lane and an id.
#[derive(Clone, Copy)]
pub enum Kind {
    Lane,
    MsgId,
    CorrelId,
}

/// A lane, and an id of a message.
#[derive(Clone, Copy, PartialEq, Eq, Hash)]
pub struct Key {
    pub lane: u8,
    pub id: [u8; 24],
}

/// Where a key stands first and last.
#[derive(Clone, Copy)]
pub struct Ends {
    pub first: usize,
    pub last: usize,
}

fn id_by(kind: Kind, row: &Row) -> [u8; 24]
    ensures { result ≡ id_by kind row.now }
{
    match kind {
        Kind::Lane => [0; 24],
        Kind::MsgId => row.message.md.msg_id,
        Kind::CorrelId => row.message.md.correl_id,
    }
}

/// The key of a row.
pub fn key_by(kind: Kind, row: &Row) -> Key
    ensures { result ≡ key_by kind row.now }
{
    Key {
        lane: row.place.lane,
        id: id_by(kind, row),
    }
}

/// The ends that were noted of a key.
pub fn ends_of(ends: &HashMap<Key, Ends>, key: &Key) -> Option<Ends>
    ensures { result ≡ ends_in ends.now key.now }
{
    ends.get(key).copied()
}

/// Notes the ends of a key, in room that is there.
pub fn note_ends(ends: &mut HashMap<Key, Ends>, key: Key, to: Ends)
    requires room { 0 < spare ends.old }
    ensures noted { (other : keys.Key) → ends_in ends.new other ≡ (if same_key key other then Some to else ends_in ends.old other) }
    ensures spare { spare ends.old ≤ spare ends.new + 1 }
{
    match ends.insert(key, to) {
        Ok(_) => {}
        Err(_) => unreachable!(),
    }
}

/// Forgets a key.
pub fn drop_ends(ends: &mut HashMap<Key, Ends>, key: &Key)
    ensures dropped { (other : keys.Key) → ends_in ends.new other ≡ (if same_key key.now other then None else ends_in ends.old other) }
    ensures spare { spare ends.old ≤ spare ends.new }
{
    let _ends = ends.remove(key);
}

/// Makes room for so many more keys.
///
/// # Errors
///
/// No memory; nothing has changed.
pub fn reserve_ends(ends: &mut HashMap<Key, Ends>, more: usize) -> Result<(), NoMemory>
    ensures same { (other : keys.Key) → ends_in ends.new other ≡ ends_in ends.old other }
    ensures ok { OnOk result (more ≤ spare ends.new) }
    ensures spare { spare ends.old ≤ spare ends.new }
{
    match ends.reserve(more) {
        Ok(()) => Ok(()),
        Err(_) => Err(NoMemory),
    }
}

/// A key that is there has other ends.
pub fn change_ends(ends: &mut HashMap<Key, Ends>, key: &Key, to: Ends)
    requires known { IsSome (ends_in ends.old key.now) }
    ensures noted { (other : keys.Key) → ends_in ends.new other ≡ (if same_key key.now other then Some to else ends_in ends.old other) }
    ensures spare { spare ends.new ≡ spare ends.old }
{
    match ends.get_mut(key) {
        Some(ends) => *ends = to,
        None => unreachable!(),
    }
}
