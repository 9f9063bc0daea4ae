//! The record of a receiver's commit: its messages that last, in order.
ghost use Rattle.std.specs.Prelude.{◌≡◌, ◌+◌, ◌<◌, ◌≤◌, ◌^◌, [], ◌∷◌, flat_map, length};
ghost use Rattle.std.specs.List.{AllByRecursion};
ghost use Rattle.mq_calls.specs.Words.{is_persistent, record_size};
ghost use Rattle.mq_spec_manager.specs.Agents.{received_record};
ghost use Rattle.mq_record.specs.Records.{record_bytes, IsAdd, IsRecord};
ghost use Rattle.mq_record.specs.Room.{with_piece};
ghost use Rattle.mq_core.specs.Writes.{arrival_adds, all_landed};
ghost use Rattle.mq_receive.specs.Filling.{CanStand, is_lasting, adds_size, adds_bytes};

use mq_base::ChName;
use mq_core::Arrival;
use mq_message::Message;
use mq_record::{Buffer, received_front};
use mq_sync::Unit;

/// The message lasts.
pub(crate) fn lasts(message: &Message) -> bool
    ensures { result ≡ is_persistent message.now }
{
    message.md.persistence == 1
}

/// Puts the add of a message that lasts behind the bytes; nothing for one that does not.
fn put_if_add(arrival: &Arrival, body: &mut Buffer)
    requires room { adds_size (arrival.now ∷ []) ≤ body.old.room }
    requires can { CanStand arrival.now }
    ensures bytes { body.new ≡ with_piece (adds_bytes (arrival.now ∷ [])) body.old }
    ensures add { AllByRecursion IsAdd (flat_map arrival_adds (arrival.now ∷ [])) }
{
    if arrival.message.md.persistence == 1 {
        body.put_add(&arrival.queue, &arrival.message);
    }
}

/// Puts the adds of a batch behind the bytes. It takes no memory.
pub(crate) fn put_adds(landed: &[Arrival], body: &mut Buffer)
    requires room { adds_size landed.now ≤ body.old.room }
    requires can { AllByRecursion CanStand landed.now }
    ensures bytes { body.new ≡ with_piece (adds_bytes landed.now) body.old }
    ensures adds { AllByRecursion IsAdd (flat_map arrival_adds landed.now) }
{
    for message in landed {
        put_if_add(message, body);
    }
}

/// The message lasts.
fn is_lasting(arrival: &Arrival) -> bool
    ensures { result ≡ is_lasting arrival.now }
{
    arrival.message.md.persistence == 1
}

/// How many of a batch last.
#[tactic(auto, using(crate::proofs::FillLaws::lasting_count))]
fn count_adds(landed: &[Arrival]) -> usize
    ensures { result ≡ length (flat_map arrival_adds landed.now) }
{
    landed.iter().filter(|arrival| is_lasting(arrival)).count()
}

/// Writes the record of a batch behind the bytes. It takes no memory.
pub fn put_received(channel: &ChName, unit: Unit, last: u32, landed: &[Arrival], body: &mut Buffer)
    requires room { 45 + adds_size landed.now ≤ body.old.room }
    requires small { 45 + adds_size landed.now < 2 ^ 32 }
    requires can { AllByRecursion CanStand landed.now }
    ensures bytes { body.new ≡ with_piece (record_bytes (received_record channel.now unit last (all_landed landed.now))) body.old }
    ensures size { length (record_bytes (received_record channel.now unit last (all_landed landed.now))) ≡ record_size (received_record channel.now unit last (all_landed landed.now)) }
    ensures record { 0 < length channel.now → IsRecord (received_record channel.now unit last (all_landed landed.now)) }
{
    let adds = count_adds(landed);
    body.put(&received_front(channel, unit, last, adds as u32));
    put_adds(landed, body);
}
