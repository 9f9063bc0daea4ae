//! What a sender's end has of its batch: it is of the queue that the sender has open and lists each row once; there is none where none is being sent;
//! and a sender that runs may send batches of one message at least.
#![tactic(auto)]

ghost use Rattle.std.specs.Prelude.{ℕ, ◌≡◌};
ghost use Rattle.mq_frame.specs.declared.frame.Seen.{Seen};
ghost use Rattle.mq_history.specs.declared.calls.Actor.{Actor};
ghost use Rattle.mq_history.specs.declared.calls.Call.{Call};
ghost use Rattle.mq_history.specs.declared.calls.Chance.{Chance};
ghost use Rattle.mq_history.specs.declared.history.History.{History};
ghost use Rattle.mq_calls.specs.State.Running.{Up};
ghost use Rattle.mq_spec_node.specs.Node.{Node};
ghost use Rattle.mq_spec_node.specs.Happens.{IsEvent, event};
ghost use Rattle.mq_spec_node.specs.Replays.{IsOwn, Surroundings, opening_node};
ghost use Rattle.mq_law_manager.specs.Facts.{IsSound};
ghost use Rattle.mq_law_unshared.specs.from_law_keys.Keys.{IsKeyed};
ghost use Rattle.mq_law_queued.specs.Queued.{AreQueued, HaveSome, QueuedUp};

/// So each history begins, and so it is behind each event, at a manager that is up, where each channel that is defined as a sender's has BATCHSZ 1 at least.
pub fn batches_are_of_their_senders_queues()
    ensures begins { (s : Surroundings) (h : History) → AreQueued (opening_node s h).own.ends (opening_node s h).manager }
    ensures events { (stamp : ℕ) (actor : Actor) (call : Call) (chance : Chance) (seen : Seen) (n : Node) → QueuedUp n → IsKeyed n → (n.manager.running ≡ Up → IsSound n.manager) → (n.manager.running ≡ Up → HaveSome n.manager.definitions)
        → IsEvent stamp actor call chance seen n → IsOwn chance → QueuedUp (event stamp actor call chance seen n).next }
{}
