//! What channel ends have hardened, kept with the room that a manager needs for it.
ghost use Rattle.std.specs.Prelude.{◌≡◌, ◌∷◌, [], ◌++◌, ◌≤◌, true, length, sum_by, IfOk, OnOk};
ghost use Rattle.std.specs.List.{AllByRecursion};
ghost use Rattle.mq_calls.specs.Recovery.{listed};
ghost use Rattle.mq_calls.specs.declared.state.SenderSide.{SenderSide};
ghost use Rattle.mq_calls.specs.declared.state.ReceiverSide.{ReceiverSide as Receiver};
ghost use Rattle.mq_sides.specs.Bonds.{has_seat};

use mq_base::{Items, NoMemory};
use mq_calls::{ReceiverSide, SenderSide};
use mq_place::RowRoom;
use mq_sides::{Bonds, KeptReceiver, KeptSender};
use mq_sync::InDoubt;
use std::alloc::Global;

fn add_sender(alloc: Global, kept: &mut Items<KeptSender>, side: SenderSide) -> Result<(), NoMemory>
    ensures { OnOk result (kept.new ≡ kept.old ++ side ∷ []) }
{
    let side = match KeptSender::new(alloc, side) {
        Ok(side) => side,
        Err(NoMemory) => return Err(NoMemory),
    };
    if kept.push(side).is_err() {
        return Err(NoMemory);
    }
    Ok(())
}

/// What senders have hardened, each with the room for the settlement of its unit in doubt.
///
/// # Errors
///
/// No memory.
fn senders_of(alloc: Global, sides: Items<SenderSide>) -> Result<Items<KeptSender>, NoMemory>
    ensures { IfOk result (λ kept. kept ≡ sides) }
{
    let mut kept = Items::new(alloc);
    let mut left = sides.into_vec();
    left.reverse();
    while let Some(side) = left.pop() {
        if add_sender(alloc, &mut kept, side).is_err() {
            return Err(NoMemory);
        }
    }
    Ok(kept)
}

fn add_receiver(
    alloc: Global,
    kept: &mut Items<KeptReceiver>,
    side: ReceiverSide,
) -> Result<(), NoMemory>
    ensures { OnOk result (kept.new ≡ kept.old ++ side ∷ []) }
{
    let side = match KeptReceiver::new(alloc, side) {
        Ok(side) => side,
        Err(NoMemory) => return Err(NoMemory),
    };
    if kept.push(side).is_err() {
        return Err(NoMemory);
    }
    Ok(())
}

/// What receivers have hardened, each with the room for the close of its session.
///
/// # Errors
///
/// No memory.
fn receivers_of(alloc: Global, sides: Items<ReceiverSide>) -> Result<Items<KeptReceiver>, NoMemory>
    ensures { IfOk result (λ kept. kept ≡ sides) }
{
    let mut kept = Items::new(alloc);
    let mut left = sides.into_vec();
    left.reverse();
    while let Some(side) = left.pop() {
        if add_receiver(alloc, &mut kept, side).is_err() {
            return Err(NoMemory);
        }
    }
    Ok(kept)
}

/// How many idents a unit in doubt lists.
fn listed_of(doubt: &Option<InDoubt>) -> usize
    ensures { result ≡ length (listed doubt.now) }
{
    match doubt {
        None => 0,
        Some(doubt) => doubt.idents.len(),
    }
}

/// How many idents all units in doubt list.
fn all_listed(sides: &[SenderSide]) -> Result<usize, NoMemory>
    ensures { IfOk result (λ n. n ≡ sum_by (λ (s : SenderSide). length (listed s.hardened.in_doubt)) sides.now) }
{
    let mut sum = 0usize;
    for side in sides {
        sum = match sum.checked_add(listed_of(&side.hardened.in_doubt)) {
            Some(sum) => sum,
            None => return Err(NoMemory),
        };
    }
    Ok(sum)
}

/// A place for each receiver among those that may be bound; none is bound.
///
/// # Errors
///
/// No memory.
fn seats_for(alloc: Global, sides: &Items<ReceiverSide>) -> Result<Bonds, NoMemory>
    ensures bound { IfOk result (λ bonds. bonds.bound ≡ []) }
    ensures seats { IfOk result (λ bonds. AllByRecursion (λ (r : Receiver). has_seat r.channel bonds.seats ≡ true) sides.now) }
{
    let mut bonds = Bonds::new(alloc);
    for side in sides.as_slice() {
        match bonds.seat(&side.channel) {
            Ok(()) => {}
            Err(NoMemory) => return Err(NoMemory),
        }
    }
    Ok(bonds)
}

/// Room for the rows of all units in doubt.
///
/// # Errors
///
/// No memory.
fn rows_for(alloc: Global, sides: &Items<SenderSide>) -> Result<RowRoom, NoMemory>
    ensures { IfOk result (λ rows. sum_by (λ (s : SenderSide). length (listed s.hardened.in_doubt)) sides.now ≤ rows.room) }
{
    match all_listed(sides.as_slice()) {
        Ok(most) => RowRoom::with_room(alloc, most),
        Err(NoMemory) => Err(NoMemory),
    }
}

/// What all senders have hardened, each with its room, and room for the rows of their units in doubt.
///
/// # Errors
///
/// No memory.
fn senders_with_rows(
    alloc: Global,
    sides: Items<SenderSide>,
) -> Result<(Items<KeptSender>, RowRoom), NoMemory>
    ensures kept { IfOk result (λ made. made.0 ≡ sides) }
    ensures rows { IfOk result (λ made. sum_by (λ (s : SenderSide). length (listed s.hardened.in_doubt)) sides ≤ made.1.room) }
{
    let rows = match rows_for(alloc, &sides) {
        Ok(rows) => rows,
        Err(NoMemory) => return Err(NoMemory),
    };
    match senders_of(alloc, sides) {
        Ok(kept) => Ok((kept, rows)),
        Err(NoMemory) => Err(NoMemory),
    }
}

/// What all receivers have hardened, each with its room, and a place for each among those that may be bound; none is bound.
///
/// # Errors
///
/// No memory.
fn receivers_with_seats(
    alloc: Global,
    sides: Items<ReceiverSide>,
) -> Result<(Items<KeptReceiver>, Bonds), NoMemory>
    ensures kept { IfOk result (λ made. made.0 ≡ sides) }
    ensures bound { IfOk result (λ made. made.1.bound ≡ []) }
    ensures seats { IfOk result (λ made. AllByRecursion (λ (r : Receiver). has_seat r.channel made.1.seats ≡ true) sides) }
{
    let bound = match seats_for(alloc, &sides) {
        Ok(bound) => bound,
        Err(NoMemory) => return Err(NoMemory),
    };
    match receivers_of(alloc, sides) {
        Ok(kept) => Ok((kept, bound)),
        Err(NoMemory) => Err(NoMemory),
    }
}

/// What all channel ends have hardened, with the room that it needs.
#[derive(Drop)]
pub struct Sides {
    /// What each sender channel has hardened.
    pub senders: Items<KeptSender>,
    /// Room for the rows of all units in doubt.
    pub rows: RowRoom,
    /// What each receiver channel has hardened.
    pub receivers: Items<KeptReceiver>,
    /// A place for each receiver among those that may be bound.
    pub bound: Bonds,
}

/// What all channel ends have hardened, with the room that it needs; no receiver is bound.
///
/// # Errors
///
/// No memory.
pub fn sides_of(
    alloc: Global,
    senders: Items<SenderSide>,
    receivers: Items<ReceiverSide>,
) -> Result<Sides, NoMemory>
    ensures senders { IfOk result (λ sides. sides.senders ≡ senders) }
    ensures rows { IfOk result (λ sides. sum_by (λ (s : SenderSide). length (listed s.hardened.in_doubt)) senders ≤ sides.rows.room) }
    ensures receivers { IfOk result (λ sides. sides.receivers ≡ receivers) }
    ensures bound { IfOk result (λ sides. sides.bound.bound ≡ []) }
    ensures seats { IfOk result (λ sides. AllByRecursion (λ (r : Receiver). has_seat r.channel sides.bound.seats ≡ true) receivers) }
{
    let (senders, rows) = match senders_with_rows(alloc, senders) {
        Ok(made) => made,
        Err(NoMemory) => return Err(NoMemory),
    };
    match receivers_with_seats(alloc, receivers) {
        Ok(made) => {
            let (receivers, bound) = made;
            Ok(Sides {
                senders,
                rows,
                receivers,
                bound,
            })
        }
        Err(NoMemory) => Err(NoMemory),
    }
}
