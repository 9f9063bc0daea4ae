//! Rows that are placed, and their triggers.
ghost use Rattle.std.specs.Prelude.{◌≡◌, ◌+◌, ◌<◌, ◌^◌};
ghost use Rattle.mq_calls.specs.Words.{local_of, stored, condition, is_triggered, depth_type};
ghost use Rattle.mq_core.specs.Views.{plain_of};
ghost use Rattle.mq_core.specs.Ties.{IsReady};
ghost use Rattle.mq_core.specs.Placing.{tried_at, put_in_place};
ghost use Rattle.mq_place.specs.States.{state_or};

use crate::parts::Parts;
use mq_base::QName;
use mq_calls::below::{LocalQueue, TriggerType};
use mq_disk::Disk;
use mq_message::Message;
use mq_trigger::{Tried, is_triggered};

impl<D: Disk> Parts<D> {
    /// Whether the queue has TRIGTYPE(DEPTH).
    fn has_depth_type(&self, queue: &QName) -> bool
        ensures { result ≡ depth_type (local_of queue.now self.now.defs.definitions) }
    {
        match self.defs.local(queue) {
            None => false,
            Some(local) => match local.trigger_type {
                TriggerType::Depth => true,
                TriggerType::First => false,
                TriggerType::Every => false,
                TriggerType::Never => false,
            },
        }
    }

    /// When a trigger of a queue became due, if one did since the manager's start.
    #[tactic(auto, using(crate::proofs::PlaceLaws::queue_in_state, crate::proofs::ReadLaws::queue_none))]
    fn last_due(&self, queue: &QName) -> Option<u64>
        ensures { result ≡ (stored queue.now (plain_of self.now)).last_due }
    {
        match self.queues.local(queue) {
            None => None,
            Some(rows) => rows.last_due(),
        }
    }

    /// Whether a queue counts as NOTRIGGER.
    #[tactic(auto, using(crate::proofs::PlaceLaws::queue_in_state, crate::proofs::ReadLaws::queue_none))]
    fn is_switched_off(&self, queue: &QName) -> bool
        ensures { result ≡ (stored queue.now (plain_of self.now)).switched_off }
    {
        match self.queues.local(queue) {
            None => false,
            Some(rows) => rows.is_switched_off(),
        }
    }

    /// Whether a trigger of this local queue becomes due for a row of this priority that was placed.
    fn is_local_due(&self, local: &LocalQueue, priority: i32) -> bool
        ensures { result ≡ is_triggered local.now priority (plain_of self.now) }
    {
        let tried = Tried {
            priority,
            waiting: self.queues.free(&local.name, local.trigger_priority),
            last_due: self.last_due(&local.name),
            switched_off: self.is_switched_off(&local.name),
            moment: self.moment,
        };
        is_triggered(
            &self.defs,
            &self.live,
            self.ends.seizures.as_slice(),
            local,
            &tried,
        )
    }

    /// Whether a trigger becomes due.
    fn is_due(&self, queue: &QName, priority: i32) -> bool
        ensures { result ≡ condition (local_of queue.now self.now.defs.definitions) priority (plain_of self.now) }
    {
        match self.defs.local(queue) {
            None => false,
            Some(local) => self.is_local_due(local, priority),
        }
    }

    /// The trigger's condition is tried for a row of this priority that was placed.
    fn try_trigger(&mut self, queue: &QName, priority: i32)
        requires due { (state_or queue.now self.old.queues.states).queue.due + 1 < 2 ^ 64 }
        ensures { self.new ≡ tried_at queue.now priority self.old }
    {
        if !self.is_due(queue, priority) {
            return;
        }
        let depth = self.has_depth_type(queue);
        self.queues.make_due(queue, depth, self.moment);
    }

    /// A put that waited takes the last place of its lane, and the trigger's condition is tried for it. It takes no memory.
    pub fn place(&mut self, queue: &QName, message: Message)
        requires { IsReady queue.now message self.old }
        ensures { self.new ≡ put_in_place queue.now message self.old }
    {
        let priority = message.md.priority;
        self.queues.place(queue, message);
        self.try_trigger(queue, priority);
    }
}
