//! Writes of channels' ends that are stopped: what is noted of one, and that a restart that finds it keeps the network's facts.
#![tactic(auto)]

ghost use Rattle.std.specs.Option.{option_map};
ghost use Rattle.std.specs.Str.{bytes_eq};
ghost use Rattle.std.specs.Prelude.{◌≡◌, ◌≢◌, ◌≤◌, ◌∷◌, ℕ, Bool, List, [], None, Ok, Option, Some, false, map, slice_get, true};
ghost use Rattle.mq_message.specs.declared.message.Message.{Message};
ghost use Rattle.mq_frame.specs.declared.frame.Frame.{Frame};
ghost use Rattle.mq_frame.specs.declared.frame.Seen.{Seen};
ghost use Rattle.mq_sender.specs.declared.turns.SenderDoes.{SenderDoes};
ghost use Rattle.mq_sender.specs.Table.{sender_next};
ghost use Rattle.mq_receiver.specs.declared.turns.ReceiverDoes.{ReceiverDoes};
ghost use Rattle.mq_receiver.specs.Table.{receiver_next};
ghost use Rattle.mq_sync.specs.declared.data.SenderData.{SenderData};
ghost use Rattle.mq_sync.specs.declared.unit.Unit.{Unit as Luw};
ghost use Rattle.mq_sync.specs.declared.data.InDoubt.{InDoubt};
ghost use Rattle.mq_sync.specs.Settlement.{sender_or};
ghost use Rattle.mq_calls.specs.declared.agents.Note.{Note};
ghost use Rattle.mq_calls.specs.declared.agents.Note.TheVariants as notes;
ghost use Rattle.mq_calls.specs.declared.deltas.Did.TheVariants as did;
ghost use Rattle.mq_calls.specs.declared.records.LogRecord.{LogRecord};
ghost use Rattle.mq_calls.specs.declared.state.Batch.{Batch};
ghost use Rattle.mq_history.specs.declared.scenario.CableLine.{CableLine};
ghost use Rattle.mq_history.specs.declared.scenario.Scenario.{Scenario};
ghost use Rattle.mq_calls.specs.State.{Noted, Plain};
ghost use Rattle.mq_calls.specs.Reads.{batch_of, in_doubt_of, sender_data};
ghost use Rattle.mq_calls.specs.Steps.{Part, do_part, freeze};
ghost use Rattle.mq_spec_manager.specs.Stops.{redone};
ghost use Rattle.mq_spec_manager.specs.Agents.{Landed, harden_part, landed, prepared_changes, prepared_record, received_part, stock, unit_of};
ghost use Rattle.mq_spec_network.specs.Conflict.{Deed as ToldDeed};
ghost use Rattle.mq_spec_network.specs.Ledger.{Ledger, Stopped};
ghost use Rattle.mq_spec_network.specs.Story.{Mem};
ghost use Rattle.mq_spec_node.specs.Node.{Node};
ghost use Rattle.mq_spec_node.specs.Receivers.{is_receiver_defined, receiver_deed_by};
ghost use Rattle.mq_spec_node.specs.Senders.{sender_deed_by};
ghost use Rattle.mq_law_channel.specs.Channel.{Channel, Facts, Past};
ghost use Rattle.mq_law_channel.specs.Following.{Awaited, Placed};
ghost use Rattle.mq_law_channel.specs.Turns.{SeenIn, receiver_turn};
ghost use Rattle.mq_law_manager.specs.Facts.{IsSound};
ghost use Rattle.mq_law_turns.specs.from_law_seen.Seen.{book_of, world_of};
ghost use Rattle.mq_law_turns.specs.from_law_receipts.Receipts.{Comes};
ghost use Rattle.mq_law_found.specs.from_law_events.Tied.{IsNext};
ghost use Rattle.mq_law_turns.specs.from_law_batches.Releases.{IsWord};
ghost use Rattle.mq_law_node.specs.Data.{sender_by_all};
ghost use Rattle.mq_law_node.specs.Ends.{SendsAs, Where, receiver_of, sender_of, stamped, taking_turn, turn_of};
ghost use Rattle.mq_law_node.specs.Moves.{NearStep, far_does};
ghost use Rattle.mq_law_node.specs.Nodes.{SameFar, SameNear};
ghost use Rattle.mq_law_turns.specs.Turns.{IsHome, IsJoint, Scene, Taken, is_expiry, world_in};
ghost use Rattle.mq_law_stopped.specs.Noted.{CommitFound, CommitNote, EachWrites, EndNote, IsDown, IsLeft, IsOfEnd, ReceiverNote, Redone, SaysReceiver, SaysSender, SenderKind, SenderNote, Stays_, all_calm, left_as, noted_of};

/// A restart that finds the write of a sender's end does what the end would have done: the network keeps its facts, and the channel takes
/// its step. Where an operator's RESOLVE backs a unit out, the unit is not its receiver's last.
pub fn found_writes_of_senders_keep_the_facts()
    ensures { (z : Scene) (n : Node) (x : Channel) (y : Past) (note : Noted) (k : SenderNote z.place.channel (left_as n.manager) note x) (rs : List Plain) → IsDown z n x y
        → ((d : InDoubt) → Mem (did.Hardened z.place.channel (notes.Resolved d.unit false true)) note.delta → 1 ≤ d.unit.n → x.receives.unit ≢ d.unit) → IsNext z.sender n.manager (redone note n.manager) z.managers rs → Redone z note x y k.step rs }
{}

/// So does one that finds what a receiver's end hardens beside its commits.
pub fn found_words_of_receivers_keep_the_facts()
    ensures { (z : Scene) (p : Plain) (x : Channel) (y : Past) (note : Noted) (k : ReceiverNote z.place.channel (left_as p) note x) (rs : List Plain) → slice_get z.managers z.receiver ≡ Some p
        → IsJoint (world_in z) z.ghost z.book z.sender z.receiver z.place.channel x y → IsNext z.receiver p (redone note p) z.managers rs → Taken z (world_of z.scenario z.given rs) z.book (far_does k.step x) y }
{}

/// So does one that finds a receiver's commit: the manager is another since, and so is the network. What lasts of it is as it would have been,
/// and so is the ledger when the manager is up again, though the restart tells less than the commit.
pub fn found_commits_of_receivers_keep_the_facts()
    ensures { (z : Scene) (p : Plain) (x : Channel) (y : Past) (l : Ledger) (note : Noted) (st : Stopped) (ds : List ToldDeed) (sender : ℕ) (h : CommitNote ds sender z.place.channel st note (left_as p) x)
        → slice_get z.managers z.receiver ≡ Some p → IsJoint (world_in z) z.ghost z.book z.sender z.receiver z.place.channel x y → z.book ≡ book_of l → Placed x y h.commits.unit → Awaited x y h.commits.unit → IsHome z p l
        → ((m : Message) → Mem m (map stamped x.kept) → Comes h.was m) → CommitFound z p l note st (receiver_turn h.turn x) y }
{}

/// What is noted of an end stays noted, whatever the other end of its channel does.
pub fn what_is_noted_of_ends_stays()
    ensures { (s : Scenario) (ds es : List ToldDeed) (xs zs : ℕ → List ℕ → Channel) (m : ℕ) (st : Stopped) (note : Noted) (b : Plain)
        → ((i : ℕ) (k : CableLine) → slice_get s.cables i ≡ Some k → k.sender ≡ m → SameNear (xs k.sender k.channel) (zs k.sender k.channel) × ((f : Frame) → Mem f (xs k.sender k.channel).back → Mem f (zs k.sender k.channel).back))
        → ((i : ℕ) (k : CableLine) → slice_get s.cables i ≡ Some k → k.receiver ≡ m → SameFar (xs k.sender k.channel) (zs k.sender k.channel) × ((f : Frame) → Mem f (xs k.sender k.channel).out → Mem f (zs k.sender k.channel).out))
        → ((o : ToldDeed) → Mem o ds → Mem o es) → EndNote s ds xs m st note b → EndNote s es zs m st note b }
{}

/// What lasts of an end's write does not go by rows that do not last: so a restart that finds it has a sound manager, and the ledger
/// posts nothing of it.
pub fn found_writes_leave_sound_managers()
    ensures words { (c : List ℕ) (w : Note) (p : Plain) → IsWord w → Stays_ p (harden_part c w p) }
    ensures prepared { (c : List ℕ) (last : ℕ) (b : Batch) (p : Plain) → Stays_ p (record { forced = Some (prepared_record c last b); changes = prepared_changes c last b (sender_or (sender_data c p)); delta = did.Prepared c b.unit ∷ [] }) }
    ensures settled { (c : List ℕ) (u : Luw) (commit operator : Bool) (p : Plain) → option_map unit_of (in_doubt_of (sender_data c p)) ≡ Some u → batch_of c p.channels.batches ≡ None → Stays_ p (harden_part c (notes.Resolved u commit operator) p) }
    ensures left { (m : ℕ) (st : Stopped) (p : Plain) (part : Part) (r : LogRecord) (left : ℕ) → IsOfEnd st.entry.call → all_calm part.delta ≡ true → IsSound (do_part part p) → Stays_ p part
        → IsLeft m st (noted_of part r) (left_as (freeze (Some (noted_of part r)) left p)) }
    ensures commits { (c : List ℕ) (u : Luw) (last : ℕ) (ms : List Message) (x : Landed) (p : Plain) → landed c ms p ≡ Ok x → IsSound p → Stays_ p (received_part c u last x p) }
    ensures calm { (c : List ℕ) (w : Note) (p : Plain) → all_calm (harden_part c w p).delta ≡ true }
{}

/// Each turn of an end whose write is stopped notes such a write: a sender's, a word of a receiver, or a receiver's commit.
pub fn turns_of_ends_note_what_they_write()
    ensures senders { (w : Where) (left stamp : ℕ) (seen : Seen) (n : Node) (c : Channel) (y : Past) (d : SenderDoes) → SendsAs w n c → Facts c y → SeenIn seen c.back → sender_next c.sender seen (stock w.channel n.manager) ≡ d → is_expiry d ≡ false
        → EachWrites (SaysSender w.channel left n.manager c (NearStep.Turn (turn_of w stamp seen c.sender n.manager))) (sender_deed_by stamp (sender_of w c.sender) d n) }
    ensures receivers { (w : Where) (stamp : ℕ) (seen : Seen) (n : Node) (c : Channel) (d : ReceiverDoes) → receiver_next c.receiver seen (is_receiver_defined w.channel n.manager.definitions) ≡ d
        → EachWrites (SaysReceiver w.channel n.manager c (taking_turn w stamp seen c.receiver c.kept n.manager)) (receiver_deed_by stamp (receiver_of w c.receiver c.kept) seen d n) }
{}

/// It spares what is hardened of other channels.
pub fn noted_writes_spare_other_channels()
    ensures senders { (c : List ℕ) (b : Plain) (note : Noted) (x : Channel) (way : NearStep) (other : List ℕ) (old : Option SenderData) → SenderKind c b note x way → bytes_eq other c ≡ false → sender_by_all other note.changes old ≡ old }
    ensures words { (c : List ℕ) (w : Note) (p : Plain) (other : List ℕ) (old : Option SenderData) → IsWord w → bytes_eq other c ≡ false → sender_by_all other (harden_part c w p).changes old ≡ old }
{}
