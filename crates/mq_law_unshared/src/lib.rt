//! Whatever happens at a node leaves the queues that its running senders have open theirs alone.
#![tactic(auto)]

ghost use Rattle.std.specs.Prelude.{ℕ, List, Some, false, ◌≡◌};
ghost use Rattle.mq_frame.specs.declared.frame.Seen.{Seen};
ghost use Rattle.mq_sc_parse.specs.declared.command.Op.{Op};
ghost use Rattle.mq_history.specs.declared.calls.Actor.{Actor};
ghost use Rattle.mq_history.specs.declared.calls.Call.{Call};
ghost use Rattle.mq_history.specs.declared.calls.Chance.{Chance};
ghost use Rattle.mq_history.specs.declared.history.History.{History};
ghost use Rattle.mq_calls.specs.State.{Plain};
ghost use Rattle.mq_calls.specs.Reads.{has_held_by_other};
ghost use Rattle.mq_calls.specs.State.Running.{Up};
ghost use Rattle.mq_calls.specs.Steps.{Part, do_all};
ghost use Rattle.mq_spec_manager.specs.Agents.{HasSeized, queue_of_sender};
ghost use Rattle.mq_spec_node.specs.Node.{Node, ReceiverEnd, SenderEnd};
ghost use Rattle.mq_spec_node.specs.Happens.{IsEvent, deed_of, event};
ghost use Rattle.mq_spec_node.specs.Operators.{operate};
ghost use Rattle.mq_spec_node.specs.Receivers.{receiver_deed};
ghost use Rattle.mq_spec_node.specs.Replays.{IsOwn, Surroundings, opening_node};
ghost use Rattle.mq_spec_node.specs.Senders.{sender_deed, timeout_deed};
ghost use Rattle.mq_law_manager.specs.Facts.{IsSound};
ghost use Rattle.mq_law_manager.specs.Kept.{AllKeep};
ghost use Rattle.mq_law_keys.specs.from_law_node.Quiet.{IsOrdinary};
ghost use Rattle.mq_law_seized.specs.Seized.{AreSeized};
ghost use Rattle.mq_law_keys.specs.Keys.{IsKeyed};
ghost use Rattle.mq_law_unshared.specs.Unshared.{EachLeaves, IsUnshared, WhereUp};

/// Behind each part of what is no end's turn or timeout and no operator's command they are theirs still; and so behind all parts of a deed.
pub fn ordinary_deeds_leave_seized_queues()
    ensures ordinary { (stamp : ℕ) (actor : Actor) (call : Call) (seen : Seen) (n : Node) → IsOrdinary actor call → IsSound n.manager → AreSeized n.manager → EachLeaves n.manager (deed_of stamp actor call seen n) }
    ensures behind { (parts : List Part) (p : Plain) → AreSeized p → AllKeep AreSeized parts p → AreSeized (do_all parts p) }
{}

/// And behind each part of a turn of an end, a timeout and a command on an end; a sender's turn where it has seized its queue.
pub fn ends_leave_seized_queues()
    ensures senders { (stamp : ℕ) (e : SenderEnd) (seen : Seen) (n : Node) → HasSeized e.channel n.manager → AreSeized n.manager → EachLeaves n.manager (sender_deed stamp e seen n) }
    ensures receivers { (stamp : ℕ) (e : ReceiverEnd) (seen : Seen) (n : Node) → AreSeized n.manager → EachLeaves n.manager (receiver_deed stamp e seen n) }
    ensures timeouts { (e : SenderEnd) (n : Node) → AreSeized n.manager → EachLeaves n.manager (timeout_deed e n) }
    ensures operators { (op : Op) (n : Node) → AreSeized n.manager → EachLeaves n.manager (Some (operate op n)) }
{}

/// So each sender that runs has seized its queue, and has it alone: from the beginning of each history, and behind each event, at a manager that is up.
pub fn senders_that_run_have_seized_their_queues()
    ensures begins { (s : Surroundings) (h : History) → IsUnshared (opening_node s h) }
    ensures alone { (c : List ℕ) (p : Plain) → HasSeized c p → AreSeized p → has_held_by_other c (queue_of_sender c p) p ≡ false }
    ensures events { (stamp : ℕ) (actor : Actor) (call : Call) (chance : Chance) (seen : Seen) (n : Node) → WhereUp n → IsKeyed n → (n.manager.running ≡ Up → IsSound n.manager) → IsEvent stamp actor call chance seen n → IsOwn chance
        → WhereUp (event stamp actor call chance seen n).next }
{}
