//! What a turn of a channel's end, and an operator's command on one, is for the whole network: the facts by which standing rows are the
//! ledger's are kept, and the channel is of one mind with the network again.
#![tactic(auto)]

ghost use Rattle.std.specs.Prelude.{◌≡◌, ◌≢◌, ◌++◌, ◌==◌, ℕ, Bool, true, false, List, [], Ok, Option, Some, if◌then◌else◌, map, slice_get};
ghost use Rattle.mq_message.specs.declared.message.Ident.{Ident};
ghost use Rattle.mq_message.specs.declared.message.Message.{Message};
ghost use Rattle.mq_frame.specs.declared.frame.Seen.{Seen};
ghost use Rattle.mq_sync.specs.declared.unit.Unit.{Unit as Luw};
ghost use Rattle.mq_sync.specs.declared.unit.Settle.TheVariants as settles;
ghost use Rattle.mq_sync.specs.declared.data.End.TheVariants as ends;
ghost use Rattle.mq_sync.specs.declared.data.InDoubt.{InDoubt};
ghost use Rattle.mq_sender.specs.declared.state.Limits.{Limits};
ghost use Rattle.mq_sender.specs.declared.state.SenderState.{SenderState};
ghost use Rattle.mq_sender.specs.declared.turns.SenderDoes.{SenderDoes};
ghost use Rattle.mq_sender.specs.declared.turns.SenderDoes.TheVariants.{Expire};
ghost use Rattle.mq_receiver.specs.declared.turns.ReceiverDoes.{ReceiverDoes};
ghost use Rattle.mq_sender.specs.Table.{is_idle, is_sending, sender_next};
ghost use Rattle.mq_receiver.specs.declared.turns.ReceiverDoes.TheVariants.{Place};
ghost use Rattle.mq_receiver.specs.declared.turns.ReceiverOut.TheVariants.{Done};
ghost use Rattle.mq_calls.specs.declared.agents.Note.TheVariants as notes;
ghost use Rattle.mq_history.specs.declared.calls.Reply.{Reply};
ghost use Rattle.mq_history.specs.declared.scenario.CableLine.{CableLine};
ghost use Rattle.mq_history.specs.declared.scenario.Scenario.{Scenario};
ghost use Rattle.mq_history.specs.Scenarios.{IsScenario};
ghost use Rattle.mq_calls.specs.State.{Plain};
ghost use Rattle.mq_calls.specs.declared.state.Seizure.{Seizure};
ghost use Rattle.mq_calls.specs.State.Change.{Seize};
ghost use Rattle.mq_calls.specs.Changes.{apply};
ghost use Rattle.mq_calls.specs.Steps.{Part, do_all, do_part};
ghost use Rattle.mq_calls.specs.Reads.{batch_of, receiver_data};
ghost use Rattle.std.specs.Str.{bytes_eq};
ghost use Rattle.mq_spec_manager.specs.Batches.{release_batch};
ghost use Rattle.mq_spec_manager.specs.Hardening.{harden_part};
ghost use Rattle.mq_spec_manager.specs.Receiving.{Landed, landed, received_part};
ghost use Rattle.mq_spec_manager.specs.Seizing.{leave, stock};
ghost use Rattle.mq_spec_node.specs.Deeds.{parts_of};
ghost use Rattle.mq_spec_node.specs.Node.{Node, ReceiverEnd, SenderEnd};
ghost use Rattle.mq_spec_node.specs.Operators.{close_open, operate};
ghost use Rattle.mq_sc_parse.specs.declared.command.Op.{Op};
ghost use Rattle.mq_law_story.specs.Needs.{IsTied};
ghost use Rattle.mq_spec_node.specs.Receivers.{receiver_deed, receiver_deed_by};
ghost use Rattle.mq_spec_node.specs.Senders.{leave_if_stopped, sender_deed, sender_deed_by};
ghost use Rattle.mq_spec_network.specs.Ledger.{Ledger};
ghost use Rattle.mq_law_channel.specs.Channel.{Channel, Facts, Past};
ghost use Rattle.mq_law_channel.specs.Following.{Awaited, Placed};
ghost use Rattle.mq_law_channel.specs.Turns.{SeenIn, past_resolved, receiver_does, receiver_numbered, receiver_started, receiver_stopped, receiver_turn, released, resolved, sender_numbered, sender_past, sender_started, sender_stopped, sender_timed_out, sender_turn};
ghost use Rattle.mq_law_story.specs.from_law_rows.Families.{is_here};
ghost use Rattle.mq_law_story.specs.from_law_rows.World.{Book, Ghost, World};
ghost use Rattle.mq_law_story.specs.from_law_seen.Seen.{book_of, world_of};
ghost use Rattle.mq_law_manager.specs.Facts.{IsSound};
ghost use Rattle.mq_law_batches.specs.from_law_events.Local.{Moved, with_owner};
ghost use Rattle.mq_law_batches.specs.from_law_events.Tied.{Follow, IsFresh, IsNext, IsTold};
ghost use Rattle.mq_law_channel.specs.Facts.{Letter};
ghost use Rattle.mq_law_node.specs.Ends.{Reads, SendsAs, TakesAs, Where, receiver_of, sender_of, stamped, taking_turn, turn_of};
ghost use Rattle.mq_law_receipts.specs.Receipts.{Comes, IsShadow};
ghost use Rattle.mq_sync.specs.Units.{no_unit, same_unit};
ghost use Rattle.mq_calls.specs.declared.deltas.Did.TheVariants as did;
ghost use Rattle.mq_history.specs.declared.history.History.{History};
ghost use Rattle.mq_spec_network.specs.Conflict.{Deed, NoConflict, deeds};
ghost use Rattle.mq_spec_network.specs.Standing.{last_unit_of, opening_managers};
ghost use Rattle.mq_spec_network.specs.Story.{Line, Mem};
ghost use Rattle.mq_law_channel.specs.Turns.{ReceiverTurn, SenderTurn};
ghost use Rattle.mq_law_turns.specs.Agreed.{IsToldOf, TellsCommit};
ghost use Rattle.mq_law_turns.specs.Turns.{EachFollowed, EachForOthers, EachPosted, EachSound, EachTaken, EachTurned, Found, IsAlone, IsAt, IsAtFar, IsAtRest, IsHome, IsJoint, IsReady, Scene, Taken, Turned, TurnedBy, is_expiry, parts_for_others, world_in};

/// Each turn of a sender's end, but for one that removes expired rows, asks its manager for such changes as keep the facts of the whole
/// network: and the channel after it is of one mind with the network again.
pub fn a_senders_turn_keeps_the_facts()
    ensures { (z : Scene) (n : Node) (x : Channel) (y : Past) (stamp : ℕ) (seen : Seen) → slice_get z.managers z.sender ≡ Some n.manager → SendsAs z.place n x → Facts x y
        → IsJoint (world_in z) z.ghost z.book z.sender z.receiver z.place.channel x y → IsAlone z n x → SeenIn seen x.back → is_expiry (sender_next x.sender seen (stock z.place.channel n.manager)) ≡ false
        → EachTurned z n.manager (sender_deed stamp (sender_of z.place x.sender) seen n) (sender_turn (turn_of z.place stamp seen x.sender n.manager) x) (sender_past (turn_of z.place stamp seen x.sender n.manager) x y) }
{}

/// So does each turn of a receiver's end, and the ledger's entry of it is posted. A unit is committed where no operator has backed it out
/// at its sender, and where its messages are those that the ledger has.
pub fn a_receivers_turn_keeps_the_facts()
    ensures { (z : Scene) (n : Node) (x : Channel) (y : Past) (l : Ledger) (stamp : ℕ) (seen : Seen) → slice_get z.managers z.receiver ≡ Some n.manager → TakesAs z.place n x → Facts x y
        → IsJoint (world_in z) z.ghost z.book z.sender z.receiver z.place.channel x y → z.book ≡ book_of l → SeenIn seen x.out
        → ((u : Luw) → receiver_does (taking_turn z.place stamp seen x.receiver x.kept n.manager) x ≡ Place u → (taking_turn z.place stamp seen x.receiver x.kept n.manager).outcome ≡ Done → (y.near.undone u ≡ false) × IsReady z n.manager l)
        → EachTaken z n.manager l (receiver_deed stamp (receiver_of z.place x.receiver x.kept) seen n) (receiver_turn (taking_turn z.place stamp seen x.receiver x.kept n.manager) x) y }
{}

/// So does a commit whose write was stopped, where a restart finds it: by the manager as it was when its turn was stopped, at what is left of
/// that one, with the network as it is now. And as the turn was stopped, each of its messages stood nowhere there, or in a row of a unit in doubt.
pub fn a_found_commit_of_a_receiver_keeps_the_facts()
    ensures found { (z : Scene) (b p : Plain) (x k : Channel) (y : Past) (l : Ledger) (u : Luw) (last : ℕ) (ld : Landed) (reply : Reply) (rs : List Plain) → IsJoint (world_in z) z.ghost z.book z.sender z.receiver z.place.channel x y → z.book ≡ book_of l
        → Placed x y u → Awaited x y u → IsHome z p l → landed z.place.channel (map stamped x.kept) b ≡ Ok ld → IsSound b → IsShadow b p → ((m : Message) → Mem m (map stamped x.kept) → Comes b m) → k.receives.unit ≡ u
        → IsNext z.receiver p (do_part (received_part z.place.channel u last ld p) p) z.managers rs → Found z p l u last (map stamped x.kept) ld reply k y rs }
    ensures come { (z : Scene) (n : Node) (x : Channel) (y : Past) (l : Ledger) (u : Luw) → IsAtFar z n x y l → Placed x y u → Awaited x y u → IsReady z n.manager l → (m : Message) → Mem m (map stamped x.kept) → Comes n.manager m }
{}

/// A turn of a sender posts nothing to the ledger, or the expired rows that it removes.
pub fn a_senders_turn_is_posted()
    ensures nothing { (m : ℕ) (l : Ledger) (stamp : ℕ) (e : SenderEnd) (seen : Seen) (n : Node) → is_expiry (sender_next e.machine seen (stock e.channel n.manager)) ≡ false → EachPosted m l (sender_deed stamp e seen n) }
    ensures expired { (m : ℕ) (given : Ident → Bool) (l : Ledger) (stamp : ℕ) (e : SenderEnd) (n : Node) → IsFresh given n.manager → IsTold m n.manager l → IsSound n.manager → is_idle e.machine.state ≡ true
        → EachFollowed m given n.manager l (sender_deed_by stamp e Expire n) }
{}

/// An operator's START, STOP, RESET and RESOLVE at a sender's end keep the facts, and so does a timeout. A RESOLVE COMMIT does so before
/// its receiver has the unit, and after; a RESOLVE BACKOUT where the receiver has not.
pub fn operators_at_a_sender_keep_the_facts()
    ensures starts { (z : Scene) (n : Node) (x : Channel) (y : Past) (limits : Limits) (seizure : Seizure) (rs : List Plain) → IsAt z n x y → IsNext z.sender n.manager (apply (Seize seizure) n.manager) z.managers rs
        → Turned z (world_of z.scenario z.given rs) (sender_started limits x) y }
    ensures stops { (z : Scene) (n : Node) (x : Channel) (y : Past) (rs : List Plain) → IsAt z n x y
        → IsNext z.sender n.manager (do_all (parts_of (release_batch z.place.channel n.manager) ++ parts_of (leave z.place.channel n.manager)) n.manager) z.managers rs → Turned z (world_of z.scenario z.given rs) (sender_stopped x) (released y) }
    ensures resets { (z : Scene) (n : Node) (x : Channel) (y : Past) (last : ℕ) (rs : List Plain) → IsAt z n x y → IsNext z.sender n.manager (do_part (harden_part z.place.channel (notes.SeqSet ends.Sender last) n.manager) n.manager) z.managers rs
        → Turned z (world_of z.scenario z.given rs) (sender_numbered last x) y }
    ensures commits { (z : Scene) (n : Node) (x : Channel) (y : Past) (d : InDoubt) (u : Luw) (rs : List Plain) → IsAt z n x y → x.sends.in_doubt ≡ Some d → is_sending x.sender.state ≡ false
        → IsNext z.sender n.manager (do_part (harden_part z.place.channel (notes.Resolved u true true) n.manager) n.manager) z.managers rs → TurnedBy (Some d.unit) z (world_of z.scenario z.given rs) (resolved settles.Commit x) (past_resolved settles.Commit d y) }
    ensures backs_out { (z : Scene) (n : Node) (x : Channel) (y : Past) (d : InDoubt) (u : Luw) (rs : List Plain) → IsAt z n x y → x.sends.in_doubt ≡ Some d → is_sending x.sender.state ≡ false → x.receives.unit ≢ d.unit
        → IsNext z.sender n.manager (do_part (harden_part z.place.channel (notes.Resolved u false true) n.manager) n.manager) z.managers rs → Turned z (world_of z.scenario z.given rs) (resolved settles.Backout x) (past_resolved settles.Backout d y) }
    ensures times_out { (z : Scene) (n : Node) (x : Channel) (y : Past) (st : SenderState) (rs : List Plain) → IsAt z n x y → IsNext z.sender n.manager (do_all (leave_if_stopped z.place.channel st n.manager) n.manager) z.managers rs
        → Turned z (world_of z.scenario z.given rs) (sender_timed_out x) y }
{}

/// A channel of which an event isn't stays tied to the network: where a manager and the ledger follow, and at turns of other channels'
/// ends.
pub fn other_channels_stay_tied()
    ensures follows { (s : Scenario) (given : Ident → Bool) (a : ℕ) (p q : Plain) (ps qs : List Plain) (l k : Ledger) (g : Ghost) → IsNext a p q ps qs → IsTold a p l → (f : Follow a given p l q k) → (m t : ℕ) (c : List ℕ) (x : Channel) (y : Past)
        → IsJoint (world_of s given ps) g (book_of l) m t c x y → (o : Moved g (world_of s f.now qs) (book_of k)) × IsJoint (world_of s f.now qs) (with_owner g o.owner) (book_of k) m t c x y }
    ensures sender { (o : Option Luw) (z : Scene) (v : World) (x : Channel) (y : Past) → (r : TurnedBy o z v x y) → (m t : ℕ) (c : List ℕ) (k : Channel) (l : Past) → is_here z.sender z.place.channel m c ≡ false
        → IsJoint (world_in z) z.ghost z.book m t c k l → IsJoint v r.ghost z.book m t c k l }
    ensures receiver { (z : Scene) (v : World) (b : Book) (x : Channel) (y : Past) → (r : Taken z v b x y) → (m t : ℕ) (c : List ℕ) (k : Channel) (l : Past) → is_here z.sender z.place.channel m c ≡ false
        → IsJoint (world_in z) z.ghost z.book m t c k l → IsJoint v r.ghost b m t c k l }
{}

/// An operator's START, STOP and RESET at a receiver's end keep the facts.
pub fn operators_at_a_receiver_keep_the_facts()
    ensures starts { (z : Scene) (n : Node) (x : Channel) (y : Past) (l : Ledger) (rs : List Plain) → IsAtFar z n x y l → IsNext z.receiver n.manager n.manager z.managers rs → Taken z (world_of z.scenario z.given rs) (book_of l) (receiver_started x) y }
    ensures stops { (z : Scene) (n : Node) (x : Channel) (y : Past) (l : Ledger) (rs : List Plain) → IsAtFar z n x y l → IsNext z.receiver n.manager (do_all (close_open (receiver_of z.place x.receiver x.kept) n.manager) n.manager) z.managers rs
        → Taken z (world_of z.scenario z.given rs) (book_of l) (receiver_stopped x) y }
    ensures resets { (z : Scene) (n : Node) (x : Channel) (y : Past) (l : Ledger) (last : ℕ) (rs : List Plain) → IsAtFar z n x y l
        → IsNext z.receiver n.manager (do_part (harden_part z.place.channel (notes.SeqSet ends.Receiver last) n.manager) n.manager) z.managers rs → Taken z (world_of z.scenario z.given rs) (book_of l) (receiver_numbered last x) y }
{}

/// Where a manager stops or starts again, a batch of its that was not prepared is held no more, and a unit in doubt is; channels of other
/// senders stay tied.
pub fn stops_and_restarts_keep_channels_tied()
    ensures { (s : Scenario) (given later : Ident → Bool) (a : ℕ) (p q : Plain) (ps qs : List Plain) (g h : Ghost) (m t : ℕ) (c : List ℕ) (x k : Channel) (y : Past) → IsNext a p q ps qs → IsAtRest p q → h.sent ≡ g.sent → h.operated ≡ g.operated → Facts x y
        → k.receives ≡ x.receives → IsTied (world_of s given ps) g m t c x y → IsTied (world_of s later qs) h m t c k (if m == a then released y else y) }
{}

/// What holds of a manager holds behind each part of each turn of its ends.
pub fn turns_keep_what_holds_of_a_manager()
    ensures senders { (w : Where) (n : Node) (x : Channel) (y : Past) (stamp : ℕ) (seen : Seen) → SendsAs w n x → Facts x y → IsSound n.manager → SeenIn seen x.back → EachSound n.manager (sender_deed stamp (sender_of w x.sender) seen n) }
    ensures receivers { (stamp : ℕ) (e : ReceiverEnd) (seen : Seen) (n : Node) → IsSound n.manager → EachSound n.manager (receiver_deed stamp e seen n) }
{}

/// What a sender reads of the batch that it sends stays as it is, where a manager's facts hold before and behind, and no row is held for
/// the channel.
pub fn a_batchs_rows_stay()
    ensures { (c : List ℕ) (p : Plain) (parts : List Part) → IsSound p → IsSound (do_all parts p) → batch_of c (do_all parts p).channels.batches ≡ batch_of c p.channels.batches → parts_for_others c parts ≡ true
        → (letters : List Letter) → Reads c letters p → Reads c letters (do_all parts p) }
{}

/// No turn of another sender's end, nor of a receiver's, holds a row for it.
pub fn turns_leave_other_batches()
    ensures senders { (c : List ℕ) (stamp : ℕ) (e : SenderEnd) (d : SenderDoes) (n : Node) → bytes_eq c e.channel ≡ false → EachForOthers c (sender_deed_by stamp e d n) }
    ensures receivers { (c : List ℕ) (stamp : ℕ) (e : ReceiverEnd) (seen : Seen) (d : ReceiverDoes) (n : Node) → EachForOthers c (receiver_deed_by stamp e seen d n) }
{}

/// And behind each command of an operator on an end.
pub fn operators_keep_what_holds_of_a_manager()
    ensures { (op : Op) (n : Node) → IsSound n.manager → EachSound n.manager (Some (operate op n)) }
{}

/// Where a prefix has no conflict, no unit is committed that an operator has backed out, and none is backed out that was committed. What
/// this rests on, `IsToldOf`, is kept by all that a channel's ends do.
pub fn operators_agree_with_receivers()
    ensures agreed { (s : Scenario) (hs : List History) (p : List Line) (ds es : List Deed) (m t : ℕ) (c : List ℕ) (x : Channel) (y : Past) (u : Luw) → NoConflict s hs p → deeds p ≡ ds ++ es → IsToldOf s (opening_managers s hs) ds m c x y
        → Mem (record { manager = t; did = did.Received c u }) (deeds p) → y.near.undone u ≡ false }
    ensures backed_out { (s : Scenario) (hs : List History) (p : List Line) (ds es : List Deed) (m : ℕ) (c : List ℕ) (x : Channel) (y : Past) (u : Luw) → NoConflict s hs p → deeds p ≡ ds ++ es → IsToldOf s (opening_managers s hs) ds m c x y
        → Mem (record { manager = m; did = did.Hardened c (notes.Resolved u false true) }) (deeds p) → same_unit u no_unit ≡ false → x.receives.unit ≢ u }
    ensures grows { (s : Scenario) (ps : List Plain) (ds es : List Deed) (m : ℕ) (c : List ℕ) (x : Channel) (y : Past) → IsToldOf s ps ds m c x y → IsToldOf s ps (ds ++ es) m c x y }
    ensures sender { (s : Scenario) (ps : List Plain) (ds : List Deed) (m : ℕ) (c : List ℕ) (x : Channel) (y : Past) (t : SenderTurn) → IsToldOf s ps ds m c x y → IsToldOf s ps ds m c (sender_turn t x) (sender_past t x y) }
    ensures stops { (s : Scenario) (ps : List Plain) (ds : List Deed) (m : ℕ) (c : List ℕ) (x k : Channel) (y : Past) → k.receives ≡ x.receives → IsToldOf s ps ds m c x y → IsToldOf s ps ds m c k (released y) }
    ensures commits { (s : Scenario) (ps : List Plain) (ds : List Deed) (m : ℕ) (c : List ℕ) (x : Channel) (y : Past) (d : InDoubt) → IsToldOf s ps ds m c x y → IsToldOf s ps ds m c (resolved settles.Commit x) (past_resolved settles.Commit d y) }
    ensures backs_out { (s : Scenario) (ps : List Plain) (ds : List Deed) (m : ℕ) (c : List ℕ) (x : Channel) (y : Past) (d : InDoubt) → Mem (record { manager = m; did = did.Hardened c (notes.Resolved d.unit false true) }) ds
        → IsToldOf s ps ds m c x y → IsToldOf s ps ds m c (resolved settles.Backout x) (past_resolved settles.Backout d y) }
    ensures receiver { (s : Scenario) (ps : List Plain) (ds : List Deed) (m : ℕ) (c : List ℕ) (x : Channel) (y : Past) (t : ReceiverTurn) → TellsCommit t.outcome (receiver_does t x) c ds → IsToldOf s ps ds m c x y → IsToldOf s ps ds m c (receiver_turn t x) y }
{}

/// And so a channel begins.
pub fn channels_begin_as_told()
    ensures { (s : Scenario) (ps : List Plain) (k : CableLine) (receiver : Plain) (m : ℕ) (x : Channel) (y : Past) → IsScenario s → Mem k s.cables → slice_get ps k.receiver ≡ Some receiver → x.receives.unit ≡ last_unit_of (receiver_data k.channel receiver)
        → ((u : Luw) → y.near.undone u ≡ false) → IsToldOf s ps [] m k.channel x y }
{}
