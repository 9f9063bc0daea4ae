//! The lanes of a queue, each with its slots in order of arrival.
ghost use Rattle.std.specs.Prelude.{◌≡◌, position, nat_le, slice_get, OnOk, OnErr, IfOk, find, option_copied};
ghost use Rattle.mq_queue.specs.Rows.{has_ident};
ghost use Rattle.mq_net_rows.specs.Stored.{fresh_lane, with_slot, put_slot, is_lane, rows_of, lanes_find};

use crate::store::{of_ident, row_at};
use mq_base::{Items, NoMemory, QName};
use mq_message::Ident;
use mq_queue::Row;
use std::alloc::Global;

/// The slots of one lane.
#[derive(Drop)]
pub struct Lane {
    /// Its number.
    pub lane: u8,
    /// In order of arrival.
    pub slots: Items<usize>,
}

/// A queue by its name.
#[derive(Drop)]
pub struct Named {
    /// Of the queue.
    pub name: QName,
    /// In order of their numbers.
    pub lanes: Items<Lane>,
}

/// The place of the first lane from a number on.
fn lane_from(lanes: &[Lane], lane: u8) -> Option<usize>
    ensures { result ≡ position (λ l. nat_le lane l.lane) lanes.now }
{
    lanes.iter().position(|l| lane <= l.lane)
}

fn fresh_lane(alloc: Global, lane: u8, slot: usize) -> Result<Lane, NoMemory>
    ensures { IfOk result (λ l. l ≡ fresh_lane lane slot) }
{
    let mut slots = Items::new(alloc);
    slots.push(slot)?;
    Ok(Lane { lane, slots })
}

fn add_slot(lane: &mut Lane, slot: usize) -> Result<(), NoMemory>
    ensures added { OnOk result (lane.new ≡ with_slot slot lane.old) }
    ensures same { OnErr result (lane.new ≡ lane.old) }
{
    lane.slots.push(slot)?;
    Ok(())
}

/// Whether the lane at a place has that number.
fn is_lane(lanes: &[Lane], at: usize, lane: u8) -> bool
    ensures { result ≡ is_lane lane (slice_get lanes.now at) }
{
    match lanes.get(at) {
        None => false,
        Some(l) => l.lane == lane,
    }
}

/// A slot more stands last in its lane.
#[tactic(auto, using(crate::proofs::LaneLaws::lane_end, crate::proofs::LaneLaws::lane_same, crate::proofs::LaneLaws::lane_new, crate::proofs::LaneLaws::lane_within, crate::proofs::SeatLaws::set_same))]
pub fn put_slot(
    alloc: Global,
    lanes: &mut Items<Lane>,
    lane: u8,
    slot: usize,
) -> Result<(), NoMemory>
    ensures placed { OnOk result (lanes.new ≡ put_slot lane slot lanes.old) }
    ensures same { OnErr result (lanes.new ≡ lanes.old) }
{
    match lane_from(lanes.as_slice(), lane) {
        None => {
            let fresh = fresh_lane(alloc, lane, slot)?;
            lanes.push(fresh)?;
        }
        Some(at) => {
            if is_lane(lanes.as_slice(), at, lane) {
                add_slot(lanes.at_mut(at), slot)?;
            } else {
                let fresh = fresh_lane(alloc, lane, slot)?;
                lanes.insert(at, fresh)?;
            }
        }
    }
    Ok(())
}

/// The first row of an ident in some slots.
fn slots_row<'a>(store: &'a [Option<Row>], slots: &[usize], ident: &Ident) -> Option<&'a Row>
    ensures { option_copied result ≡ find (has_ident ident.now) (rows_of store.now slots.now) }
{
    for slot in slots {
        if let Some(row) = of_ident(row_at(store, *slot), ident) {
            return Some(row);
        }
    }
    None
}

/// The first row of an ident on a queue.
pub fn lanes_row<'a>(store: &'a [Option<Row>], lanes: &[Lane], ident: &Ident) -> Option<&'a Row>
    ensures { option_copied result ≡ lanes_find ident.now store.now lanes.now }
{
    for lane in lanes {
        if let Some(row) = slots_row(store, lane.slots.as_slice(), ident) {
            return Some(row);
        }
    }
    None
}
