//! What the calls on the local queues do to them as the plain manager sees them.
ghost use Rattle.std.specs.Prelude.{◌≡◌, ℕ, ◌++◌, ◌∷◌, [], List, Bool, Some, None, map, filter, not};
ghost use Rattle.std.specs.Str.{bytes_eq};
ghost use Rattle.mq_message.specs.declared.message.Message.{Message};
ghost use Rattle.mq_queue.specs.Queues.{lane_of};
ghost use Rattle.mq_calls.specs.State.{Queue, fresh_queue};
ghost use Rattle.mq_calls.specs.Reads.{queue_in};
ghost use Rattle.mq_calls.specs.Changes.{set_queue, placed_in};
ghost use Rattle.mq_place.specs.States.{QueueState, state_in, change_state, on_queue, on_queues, queues_of, fresh_state, without_state, expecting, unpended, arrived};

/// What the calls do to the local queues is what the plain manager's changes do: to all of them, to one that takes the place
/// of the one with its name, to one that is new and stands last, to one that goes. Puts that wait are none of its rows.
pub fn calls_are_changes()
    ensures all { (g : Queue → Queue) (states : List QueueState) → queues_of (on_queues g states) ≡ map g (queues_of states) }
    ensures waiting { (name : List ℕ) (states : List QueueState) → queues_of (change_state name expecting states) ≡ queues_of states }
    ensures dropped { (name : List ℕ) (states : List QueueState) → queues_of (change_state name unpended states) ≡ queues_of states }
    ensures placed { (name : List ℕ) (message : Message) (states : List QueueState) (s : QueueState) → state_in name states ≡ Some s → queues_of (change_state name (arrived message) states) ≡ set_queue (placed_in (lane_of s.by_priority message) message (queue_in name (queues_of states))) (queues_of states) }
    ensures changed { (name : List ℕ) (g : Queue → Queue) (states : List QueueState) (s : QueueState) → ((q : Queue) → (g q).name ≡ q.name) → state_in name states ≡ Some s → queues_of (change_state name (on_queue g) states) ≡ set_queue (g (queue_in name (queues_of states))) (queues_of states) }
    ensures defined { (name : List ℕ) (prioritized : Bool) (states : List QueueState) → state_in name states ≡ None → queues_of (states ++ fresh_state name prioritized ∷ []) ≡ set_queue (fresh_queue name) (queues_of states) }
    ensures deleted { (name : List ℕ) (states : List QueueState) → queues_of (without_state name states) ≡ filter (λ (q : Queue). not (bytes_eq name q.name)) (queues_of states) }
{}
