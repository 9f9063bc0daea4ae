//! What is kept by channel with the room that its end needs.
ghost use Rattle.std.specs.Prelude.{◌≡◌, ◌≤◌, [], true, None, length, not, filter, IfOk, IfSome};
ghost use Rattle.mq_unit.specs.from_message.{Ident};
ghost use Rattle.mq_unit.specs.from_calls.Words.{same_ident, less_ident, off_list};
ghost use Rattle.mq_sides.specs.Kept.{closed_need, told_need};

use mq_base::{Items, NoMemory};
use mq_unit::Effects;
use mq_unit::below::{Batch, Ident, InDoubt, ReceiverSide, SenderSide};
use std::alloc::Global;
use std::marker::Model;

/// The rows that a sender channel holds for a batch that is not prepared, with room for what its release tells. Contracts see
/// the batch.
#[derive(Drop)]
pub struct KeptBatch {
    batch: Batch,
    // Nothing is told; there is room for each row that becomes free.
    effects: Effects,
}

impl Model for KeptBatch {
    ghost use Rattle.std.specs.Prelude.{◌≡◌, ◌≤◌, [], length};
    ghost use Rattle.mq_unit.specs.from_calls.{Batch};

    ghost Value = { Batch };

    ghost view = { λ k. k.batch };

    ghost invariant = { λ k. (k.effects.dids ≡ []) × (length k.batch.idents ≤ k.effects.room) };
}

impl KeptBatch {
    /// A batch, with room for what its release tells.
    ///
    /// # Errors
    ///
    /// No memory.
    pub fn new(alloc: Global, batch: Batch) -> Result<KeptBatch, NoMemory>
        ensures { IfOk result (λ k. k ≡ batch) }
    {
        let mut effects = Effects::new(alloc);
        match effects.reserve(batch.idents.len()) {
            Ok(()) => {}
            Err(NoMemory) => return Err(NoMemory),
        }
        Ok(KeptBatch { batch, effects })
    }

    /// The batch.
    pub fn batch(&self) -> &Batch
        ensures { result.now ≡ self.now }
    {
        &self.batch
    }

    /// The batch, and the room, in which nothing is told. It takes no memory.
    pub fn into_parts(self) -> (Batch, Effects)
        ensures batch { result.0 ≡ self }
        ensures told { result.1.dids ≡ [] }
        ensures room { length self.idents ≤ result.1.room }
    {
        let KeptBatch { batch, effects } = self;
        (batch, effects)
    }
}

/// What a receiver has hardened, with room for what is told when its session is closed. Contracts see what it has hardened.
#[derive(Drop)]
pub struct KeptReceiver {
    side: ReceiverSide,
    // Nothing is told; where the session is open, there is room for one thing.
    effects: Effects,
}

impl Model for KeptReceiver {
    ghost use Rattle.std.specs.Prelude.{◌≡◌, ◌≤◌, []};
    ghost use Rattle.mq_unit.specs.from_calls.{ReceiverSide};
    ghost use Rattle.mq_sides.specs.Kept.{closed_need};

    ghost Value = { ReceiverSide };

    ghost view = { λ k. k.side };

    ghost invariant = { λ k. (k.effects.dids ≡ []) × (closed_need k.side.hardened.closed ≤ k.effects.room) };
}

fn closed_need(closed: bool) -> usize
    ensures { result ≡ closed_need closed }
{
    if closed { 0 } else { 1 }
}

impl KeptReceiver {
    /// What a receiver has hardened, with the room that it needs.
    ///
    /// # Errors
    ///
    /// No memory.
    pub fn new(alloc: Global, side: ReceiverSide) -> Result<KeptReceiver, NoMemory>
        ensures { IfOk result (λ k. k ≡ side) }
    {
        let mut effects = Effects::new(alloc);
        match effects.reserve(closed_need(side.hardened.closed)) {
            Ok(()) => {}
            Err(NoMemory) => return Err(NoMemory),
        }
        Ok(KeptReceiver { side, effects })
    }

    /// What a receiver has hardened whose session is closed. It takes no memory.
    pub fn of_closed(alloc: Global, side: ReceiverSide) -> KeptReceiver
        requires { side.hardened.closed ≡ true }
        ensures { result ≡ side }
    {
        KeptReceiver {
            side,
            effects: Effects::new(alloc),
        }
    }

    /// What it has hardened.
    pub fn side(&self) -> &ReceiverSide
        ensures { result.now ≡ self.now }
    {
        &self.side
    }

    /// What it has hardened, and the room, in which nothing is told. It takes no memory.
    pub fn into_parts(self) -> (ReceiverSide, Effects)
        ensures side { result.0 ≡ self }
        ensures told { result.1.dids ≡ [] }
        ensures room { closed_need self.hardened.closed ≤ result.1.room }
    {
        let KeptReceiver { side, effects } = self;
        (side, effects)
    }
}

/// What a sender has hardened, with room for what is told when its unit in doubt is settled. Contracts see what it has hardened.
#[derive(Drop)]
pub struct KeptSender {
    side: SenderSide,
    // Nothing is told; there is room for each row of the unit in doubt, and for its settlement.
    effects: Effects,
}

impl Model for KeptSender {
    ghost use Rattle.std.specs.Prelude.{◌≡◌, ◌≤◌, []};
    ghost use Rattle.mq_unit.specs.from_calls.{SenderSide};
    ghost use Rattle.mq_sides.specs.Kept.{told_need};

    ghost Value = { SenderSide };

    ghost view = { λ k. k.side };

    ghost invariant = { λ k. (k.effects.dids ≡ []) × (told_need k.side.hardened.in_doubt ≤ k.effects.room) };
}

/// How much is told of a unit in doubt that is settled, at most; none where no number tells it.
fn told_need(doubt: &Option<InDoubt>) -> Option<usize>
    ensures { IfSome result (λ n. n ≡ told_need doubt.now) }
{
    match doubt {
        None => Some(0),
        Some(doubt) => doubt.idents.len().checked_add(1),
    }
}

/// The idents but one.
fn drop_ident(idents: &mut Vec<Ident>, ident: &Ident)
    ensures { idents.new.items ≡ filter (λ (other : Ident). not (same_ident ident.now other)) idents.old.items }
{
    idents.retain(|other| !(*ident == *other));
}

/// A unit in doubt without an ident. It takes no memory.
fn without(doubt: Option<InDoubt>, ident: &Ident) -> Option<InDoubt>
    ensures { result ≡ less_ident ident.now doubt }
{
    match doubt {
        None => None,
        Some(doubt) => {
            let mut idents = doubt.idents.into_vec();
            drop_ident(&mut idents, ident);
            Some(InDoubt {
                unit: doubt.unit,
                queue: doubt.queue,
                idents: Items::from_vec(idents),
                last: doubt.last,
            })
        }
    }
}

impl KeptSender {
    /// What a sender has hardened, with the room that it needs.
    ///
    /// # Errors
    ///
    /// No memory.
    pub fn new(alloc: Global, side: SenderSide) -> Result<KeptSender, NoMemory>
        ensures { IfOk result (λ k. k ≡ side) }
    {
        let Some(most) = told_need(&side.hardened.in_doubt) else {
            return Err(NoMemory);
        };
        let mut effects = Effects::new(alloc);
        match effects.reserve(most) {
            Ok(()) => {}
            Err(NoMemory) => return Err(NoMemory),
        }
        Ok(KeptSender { side, effects })
    }

    /// What a sender has hardened that has nothing in doubt. It takes no memory.
    pub fn of_settled(alloc: Global, side: SenderSide) -> KeptSender
        requires { side.hardened.in_doubt ≡ None }
        ensures { result ≡ side }
    {
        KeptSender {
            side,
            effects: Effects::new(alloc),
        }
    }

    /// What it has hardened.
    pub fn side(&self) -> &SenderSide
        ensures { result.now ≡ self.now }
    {
        &self.side
    }

    /// What it has hardened, and the room, in which nothing is told. It takes no memory.
    pub fn into_parts(self) -> (SenderSide, Effects)
        ensures side { result.0 ≡ self }
        ensures told { result.1.dids ≡ [] }
        ensures room { told_need self.hardened.in_doubt ≤ result.1.room }
    {
        let KeptSender { side, effects } = self;
        (side, effects)
    }

    /// An ident goes off the list of its unit in doubt. It takes no memory.
    #[tactic(auto, using(crate::proofs::KeptLaws::less_need))]
    pub fn strike(&mut self, ident: &Ident)
        ensures { self.new ≡ off_list ident.now self.old }
    {
        let doubt = std::mem::replace(&mut self.side.hardened.in_doubt, None);
        self.side.hardened.in_doubt = without(doubt, ident);
    }
}
