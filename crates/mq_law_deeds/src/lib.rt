//! What the deeds of a manager are for one of its senders' channels, where the manager's facts hold before and behind each of them;
//! and that the connections that the ledger tells of have numbers of their own.
#![tactic(auto)]

ghost use Rattle.std.specs.Prelude.{◌≡◌, ◌≤◌, ◌++◌, ℕ, true, false, List, Some};
ghost use Rattle.mq_frame.specs.declared.frame.Seen.{Seen};
ghost use Rattle.mq_history.specs.declared.calls.Actor.{Actor};
ghost use Rattle.mq_history.specs.declared.calls.Call.{Call};
ghost use Rattle.mq_history.specs.declared.calls.Entry.{Entry};
ghost use Rattle.mq_history.specs.declared.history.History.{History};
ghost use Rattle.mq_history.specs.declared.scenario.Scenario.{Scenario};
ghost use Rattle.mq_history.specs.Scenarios.{IsScenario};
ghost use Rattle.mq_calls.specs.Reads.{is_up};
ghost use Rattle.mq_calls.specs.Steps.{Part, delta_of, do_all};
ghost use Rattle.mq_spec_node.specs.Node.{Node, SenderEnd};
ghost use Rattle.mq_spec_node.specs.Senders.{timeout_deed};
ghost use Rattle.mq_spec_node.specs.Happens.{deed_of};
ghost use Rattle.mq_spec_node.specs.Replays.{after, opening_node};
ghost use Rattle.mq_spec_network.specs.Given.{surroundings};
ghost use Rattle.mq_law_channel.specs.Channel.{Channel, Past};
ghost use Rattle.mq_law_node.specs.Beside.{KeyedNear, is_ours};
ghost use Rattle.mq_law_node.specs.Ends.{SendsAs, Where, receiver_of, receiver_out};
ghost use Rattle.mq_law_node.specs.Quiet.{IsOrdinary};
ghost use Rattle.mq_law_manager.specs.Facts.{IsSound};
ghost use Rattle.mq_law_manager.specs.Kept.{AllKeep};
ghost use Rattle.mq_law_turns.specs.Turns.{EachSound};
ghost use Rattle.mq_message.specs.declared.message.Message.{Message};
ghost use Rattle.mq_sync.specs.declared.unit.Settle.{Settle};
ghost use Rattle.mq_sync.specs.declared.data.InDoubt.{InDoubt};
ghost use Rattle.mq_sync.specs.Settlement.{is_commit};
ghost use Rattle.mq_calls.specs.declared.agents.Note.TheVariants as notes;
ghost use Rattle.mq_calls.specs.declared.deltas.Did.{Did};
ghost use Rattle.mq_calls.specs.declared.deltas.Did.TheVariants as did;
ghost use Rattle.mq_receiver.specs.declared.state.Receiver.{Receiver};
ghost use Rattle.mq_receiver.specs.declared.turns.ReceiverDoes.{ReceiverDoes};
ghost use Rattle.mq_sender.specs.States.{is_running};
ghost use Rattle.mq_spec_node.specs.Operators.{resolve_doubt};
ghost use Rattle.mq_spec_node.specs.Receivers.{receiver_deed_by};
ghost use Rattle.mq_spec_network.specs.Conflict.{Deed, NoConflict, deeds, deeds_in};
ghost use Rattle.mq_spec_network.specs.Standing.{opening_managers};
ghost use Rattle.mq_spec_network.specs.Story.{Line, Mem};
ghost use Rattle.mq_law_channel.specs.Facts.{Letter};
ghost use Rattle.mq_law_turns.specs.Agreed.{IsToldOf, TellsCommit};
ghost use Rattle.mq_law_node.specs.Nodes.{FarAgreed};
ghost use Rattle.mq_history.specs.declared.calls.Reply.{Reply};
ghost use Rattle.mq_calls.specs.State.{Plain};
ghost use Rattle.mq_spec_network.specs.Ledger as ledgers;
ghost use Rattle.mq_spec_network.specs.Ledger.{Ledger};
ghost use Rattle.mq_law_turns.specs.from_law_events.Tied.{IsTold};
ghost use Rattle.mq_law_turns.specs.from_law_receipts.Receipts.{AreNumbered};
ghost use Rattle.mq_law_deeds.specs.Deeds.{EachKnown, each_delta};
ghost use Rattle.mq_law_deeds.specs.Numbers.{AreCountedAt, EachNext, IsNext};

/// Whatever isn't a turn or timeout of a sender's end is a step of its channel, or leaves it alone: its machine, its data, its batch and the
/// rows of that.
pub fn deeds_of_sound_managers_are_known()
    ensures deeds { (w : Where) (stamp : ℕ) (actor : Actor) (call : Call) (seen : Seen) (n : Node) (c : Channel) → KeyedNear w n → SendsAs w n c → is_up n.manager.running ≡ true → is_ours w.cable actor call ≡ false
        → EachKnown w n c (deed_of stamp actor call seen n) }
    ensures runs { (s : Scenario) (m : ℕ) (h : History) (es : List Entry) (w : Where) (stamp : ℕ) (actor : Actor) (call : Call) (seen : Seen) (c : Channel) → IsScenario s
        → SendsAs w (after (opening_node (surroundings s m) h) es) c → is_up (after (opening_node (surroundings s m) h) es).manager.running ≡ true → is_ours w.cable actor call ≡ false
        → EachKnown w (after (opening_node (surroundings s m) h) es) c (deed_of stamp actor call seen (after (opening_node (surroundings s m) h) es)) }
{}

/// Connections have numbers of their own, up to the last that their manager has given: each deed raises that, and an MQCONN that is
/// accepted has the next one; so it stays in the ledger behind each post, each write that is stopped, and each stop; and so it is at each
/// manager that the ledger tells.
pub fn connections_have_numbers_of_their_own()
    ensures deeds { (stamp : ℕ) (actor : Actor) (call : Call) (seen : Seen) (n : Node) → EachNext call n.manager (deed_of stamp actor call seen n) }
    ensures posted { (last next m : ℕ) (call : Call) (reply : Reply) (ms : List Message) (ds : List Did) (l : Ledger) → IsNext call reply last next → AreCountedAt last m l → AreCountedAt next m (ledgers.post_call m call reply ms ds (ledgers.take_all_gone m ds l)) }
    ensures cut { (last next m : ℕ) (e : Entry) (l : Ledger) → last ≤ next → AreCountedAt last m l → AreCountedAt next m (ledgers.cut m e l) }
    ensures stopped { (last next m : ℕ) (l : Ledger) → AreCountedAt last m l → AreCountedAt next m (ledgers.stop m l) }
    ensures told { (last m : ℕ) (p : Plain) (l : Ledger) → IsTold m p l → AreCountedAt last m l → AreNumbered p.connections }
{}

/// What holds of a manager holds behind each part of each call of an application, command on objects, trigger turn and turn of a handler, and
/// of each timeout of an end; and so behind them all.
pub fn deeds_keep_what_holds_of_a_manager()
    ensures ordinary { (stamp : ℕ) (actor : Actor) (call : Call) (seen : Seen) (n : Node) → IsOrdinary actor call → IsSound n.manager → EachSound n.manager (deed_of stamp actor call seen n) }
    ensures timeouts { (e : SenderEnd) (n : Node) → IsSound n.manager → EachSound n.manager (timeout_deed e n) }
    ensures behind { (parts : List Part) (p : Plain) → IsSound p → AllKeep IsSound parts p → IsSound (do_all parts p) }
{}

/// Deltas tell the units that receivers commit, and the settlements of operators; and what the delta of an entry tells is told of each prefix
/// that has the entry. (It is what `operators_agree_with_receivers` rests on.)
pub fn deltas_tell_commits_and_settlements()
    ensures commits { (w : Where) (stamp t : ℕ) (seen : Seen) (n : Node) (m : Receiver) (kept : List Letter) (d : ReceiverDoes)
        → TellsCommit (receiver_out d w seen m kept n.manager) d w.channel (deeds_in t (each_delta (receiver_deed_by stamp (receiver_of w m kept) seen d n))) }
    ensures settlements { (e : SenderEnd) (settle : Settle) (d : InDoubt) (n : Node) → is_running e.machine.state ≡ false
        → Mem (did.Hardened e.channel (notes.Resolved d.unit (is_commit settle) true)) (delta_of (resolve_doubt e settle (Some d) n).parts) }
    ensures prefixes { (p : List Line) (x : Line) (d : Did) → Mem x p → Mem d x.entry.effect.delta → Mem (record { manager = x.manager; did = d }) (deeds p) }
{}

/// So where a prefix has no conflict, each of its entries is such as a receiver's manager asks (`FarAgreed`): no unit that its delta tells as
/// committed was backed out by an operator.
pub fn entries_without_conflict_agree()
    ensures { (s : Scenario) (hs : List History) (p : List Line) (ds es : List Deed) (m : ℕ) (c : List ℕ) (x : Channel) (y : Past) (l : Line) → NoConflict s hs p → deeds p ≡ ds ++ es → IsToldOf s (opening_managers s hs) ds m c x y → Mem l p
        → FarAgreed c l.entry.effect.delta y }
{}
