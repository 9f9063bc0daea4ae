//! What a PUMP does at the nodes of a network and on its cables, as the moves of lanes of a measure that each of them makes less.
#![tactic(auto)]

ghost use Rattle.std.specs.Prelude.{◌≡◌, ◌∷◌, ◌++◌, ◌⊎◌, ◌≤◌, ℕ, false, true, List, [], Option, Some, is_some, ◌==◌, slice_get, IfOk, None, Result};
ghost use Rattle.mq_base.specs.declared.want.NoMemory.{NoMemory};
ghost use Rattle.mq_frame.specs.declared.frame.Frame.{Frame};
ghost use Rattle.mq_frame.specs.declared.frame.Seen.{Seen};
ghost use Rattle.mq_history.specs.declared.calls.Actor.TheVariants as actors;
ghost use Rattle.mq_history.specs.declared.calls.Call.TheVariants as calls;
ghost use Rattle.mq_history.specs.declared.calls.Entry.{Entry};
ghost use Rattle.mq_history.specs.declared.scenario.CableLine.{CableLine};
ghost use Rattle.mq_nodes.specs.Course.{Course};
ghost use Rattle.mq_nodes.specs.Told.{Part as IsPart};
ghost use Rattle.mq_objects.specs.Names.{local_of};
ghost use Rattle.mq_steps.specs.Counts.{pumped_then};
ghost use Rattle.mq_steps.specs.declared.pumping.Pumped.{Pumped};
ghost use Rattle.mq_queue.specs.Queues.{AreDistinct};
ghost use Rattle.mq_receiver.specs.States.{is_stopped};
ghost use Rattle.mq_sender.specs.States.{is_running};
ghost use Rattle.mq_spec_manager.specs.Agents.{HasSeized, queue_of_sender};
ghost use Rattle.mq_spec_manager.specs.Handles.{is_transmission_queue};
ghost use Rattle.mq_calls.specs.declared.state.Batch.{Batch};
ghost use Rattle.mq_calls.specs.Reads.{batch_of, has_held_by_other};
ghost use Rattle.mq_calls.specs.State.{Plain};
ghost use Rattle.mq_calls.specs.Steps.{Part, do_all};
ghost use Rattle.std.specs.Str.{bytes_eq};
ghost use Rattle.mq_calls.specs.State.Running.{Up};
ghost use Rattle.mq_spec_node.specs.Calls.{trigger_deed};
ghost use Rattle.mq_spec_node.specs.Node.{ChannelEnd, Node, ReceiverEnd, SenderEnd, end_in};
ghost use Rattle.mq_spec_node.specs.Deeds.{Deed};
ghost use Rattle.mq_spec_node.specs.Happens.{deed_of};
ghost use Rattle.mq_spec_node.specs.Receivers.{receiver_deed};
ghost use Rattle.mq_spec_node.specs.Replays.{after, done_by};
ghost use Rattle.mq_spec_node.specs.Senders.{sender_deed, timeout_deed};
ghost use Rattle.mq_spec_network.specs.Cables.{Lying, is_popped, lying};
ghost use Rattle.mq_spec_network.specs.Steps.{Goes, TakesTurn, none_due, popped_by, pushed_of, turn_in};
ghost use Rattle.mq_spec_network.specs.Tasks.{Slot, Task};
ghost use Rattle.mq_spec_network.specs.Tasks.Slot.{Receives, Sends, TimesOut};
ghost use Rattle.mq_spec_network.specs.Tasks.Task.{Pump};
ghost use Rattle.mq_spec_network.specs.Turns.{Network, changes, does, is_idle, node_at, push_refused};
ghost use Rattle.mq_law_idle.specs.Lanes.{Begins, Lane, bound};
ghost use Rattle.mq_law_idle.specs.Roads.{Items, Quiet, ReceiverTurn, Road, SenderTurn, is_full, laid, receiver_turn, sender_timed_out, sender_turn, waiting};
ghost use Rattle.mq_law_unshared.specs.from_law_keys.Keys.{IsKeyed};
ghost use Rattle.mq_law_node.specs.Rows.{rows_at};
ghost use Rattle.mq_law_pump.specs.Apart.{EachEndStays, EachIsSilent};
ghost use Rattle.mq_law_seized.specs.Seized.{AreSeized};
ghost use Rattle.mq_law_pump.specs.Away.{AllAway, EachKeepsAway, EachPushesAway, FrameAway, IsAsBegun, RowsAway, SeenAway, WayAway};
ghost use Rattle.mq_law_pump.specs.Below.{IsBelow};
ghost use Rattle.mq_law_pump.specs.Deeds.{EachWantsNone, HasReceiver, HasSender, IsStillEnd, TakesLane, TimesOutLane, TurnsLane};
ghost use Rattle.mq_law_pump.specs.Entries.{RanDeed};
ghost use Rattle.mq_law_pump.specs.Fit.{FitsSender, Good, IsFit};
ghost use Rattle.mq_law_pump.specs.Kept.{IsKeptNode};
ghost use Rattle.mq_law_pump.specs.Leaves.{EachDefinesNone, EachLeavesOwn, parts_define_none, parts_leave};
ghost use Rattle.mq_law_pump.specs.Others.{AllGoElsewhere, EachAddsNone, NoMore, parts_add_none};
ghost use Rattle.mq_law_pump.specs.Restful.{Restful, most};
ghost use Rattle.mq_law_pump.specs.Rows.{rows_of};
ghost use Rattle.mq_law_pump.specs.Shown.{ReceiverMoves, SenderMoves, SenderTimesOut, Shows};
ghost use Rattle.mq_law_pump.specs.Sees.{Sees};
ghost use Rattle.mq_law_pump.specs.Steady.{ArePumps, IsOf, IsPumped, IsSteady, Moved, SeesAll, TimeoutFits};
ghost use Rattle.mq_law_pump.specs.Ways.{IsWithin, behind_if, seen_of};

/// A cable without faults: a frame that is offered lies there last, a pop takes the first, and a push is refused where the cable is full.
pub fn a_cable_without_faults_keeps_order()
    ensures offers { (pushes pops : List Entry) (e : Entry) (o : Option Frame) → IsWithin pushes pops → e.effect.pushed ≡ o → seen_of (lying [] (pushes ++ e ∷ []) pops) ≡ laid o (seen_of (lying [] pushes pops)) }
    ensures pops { (pushes pops : List Entry) (e : Entry) → seen_of (lying [] pushes (pops ++ e ∷ [])) ≡ behind_if (is_popped e) (seen_of (lying [] pushes pops)) }
    ensures refuses { (pushes : List Entry) (xs : List Lying) (f : Frame) → push_refused (record { faults = []; pushes = pushes; items = xs }) (Some f) ≡ is_full (seen_of xs) }
{}

/// What a PUMP leaves to be done is its own rounds. Each of its entries is a turn, a timeout or a trigger turn: none of them brings a manager up, so what
/// is known of the histories behind one, with all managers up, was known before it; and a trigger turn comes only where one is due.
pub fn a_pump_brings_no_manager_up()
    ensures rounds { (w v : Network) (n : ℕ) (ts : List Task) → Goes w (Pump n Sends 0 false ∷ []) v ts → ArePumps ts }
    ensures up { (e : Entry) (n : Node) → IsPumped e.call → (done_by e n).next.manager.running ≡ Up → n.manager.running ≡ Up }
    ensures earlier { (w : Network) (m : ℕ) (e : Entry) → IsPumped e.call → Good (does m (e ∷ []) w) → Good w }
    ensures due { (w : Network) (m : ℕ) (e : Entry) → Good (does m (e ∷ []) w) → e.call ≡ calls.Trigger → none_due (node_at w m) ≡ false }
{}

/// Each turn of a sender's end, and each timeout, is one of its lane: it counts, and where the sender runs on, the rows of its queue are within the lane's.
pub fn turns_of_senders_are_turns_of_lanes()
    ensures turns { (e : SenderEnd) (n : Node) (w : Road) (stamp : ℕ) (d : Deed) → HasSender e n w → FitsSender e n → AreDistinct (rows_of e.channel n.manager) → sender_deed stamp e (waiting w.back) n ≡ Some d → TurnsLane e n d w }
    ensures timeouts { (e : SenderEnd) (n : Node) (w : Road) (d : Deed) → HasSender e n w → timeout_deed e n ≡ Some d → TimesOutLane e n d w }
{}

/// Each turn of a receiver's end is one of its lane. A turn that pushes what is owed pops nothing, so it is taken as if nothing waited.
pub fn turns_of_receivers_are_turns_of_lanes()
    ensures { (e : ReceiverEnd) (n : Node) (w : Road) (stamp : ℕ) (seen : Seen) (d : Deed) → HasReceiver e n w → (seen ≡ waiting w.out) ⊎ (is_some e.machine.owes ≡ true) → receiver_deed stamp e seen n ≡ Some d → TakesLane e n d w }
{}

/// What others do to a queue that one channel's sender has open leaves no more of its rows free, and held, than there were: turns and timeouts of other
/// senders, turns of receivers whose messages go elsewhere, and trigger turns.
pub fn others_add_no_row_to_a_senders_queue()
    ensures parts { (channel queue : List ℕ) (parts : List Part) (p : Plain) → parts_add_none channel queue parts ≡ true → has_held_by_other channel queue p ≡ false → NoMore (rows_at queue (do_all parts p)) (rows_at queue p) }
    ensures open { (channel queue : List ℕ) (parts : List Part) (p : Plain) → parts_add_none channel queue parts ≡ true → queue_of_sender channel (do_all parts p) ≡ queue_of_sender channel p }
    ensures lanes { (e : SenderEnd) (n m : Node) (d : Deed) (w : Road) → HasSender e n w → end_in e.cable m.own.ends ≡ end_in e.cable n.own.ends → m.manager ≡ do_all d.parts n.manager
        → (is_running e.machine.state ≡ true → (parts_add_none e.channel (queue_of_sender e.channel n.manager) d.parts ≡ true) × (has_held_by_other e.channel (queue_of_sender e.channel n.manager) n.manager ≡ false)) → HasSender e m w }
    ensures senders { (channel queue : List ℕ) (stamp : ℕ) (e : SenderEnd) (seen : Seen) (n : Node) → bytes_eq channel e.channel ≡ false → bytes_eq queue (queue_of_sender e.channel n.manager) ≡ false → EachAddsNone channel queue (sender_deed stamp e seen n) }
    ensures timeouts { (channel queue : List ℕ) (e : SenderEnd) (n : Node) → bytes_eq channel e.channel ≡ false → EachAddsNone channel queue (timeout_deed e n) }
    ensures receivers { (channel queue : List ℕ) (stamp : ℕ) (e : ReceiverEnd) (seen : Seen) (n : Node) → is_transmission_queue (local_of queue n.manager.definitions) ≡ true → AllGoElsewhere queue n.manager.definitions n.manager.given e.kept
        → EachAddsNone channel queue (receiver_deed stamp e seen n) }
    ensures triggers { (channel queue : List ℕ) (n : Node) → is_transmission_queue (local_of queue n.manager.definitions) ≡ true → EachAddsNone channel queue (trigger_deed n) }
{}

/// What an entry of a PUMP pops is what its end saw: a sender that pushes saw nothing, and a receiver that pushes what is owed looks at nothing. And turns of
/// ends take memory of their own accord, so that where none is left they are no events.
pub fn ends_pop_what_they_see()
    ensures senders { (stamp : ℕ) (e : SenderEnd) (seen : Seen) (n : Node) → popped_by seen (pushed_of (sender_deed stamp e seen n)) ≡ seen }
    ensures receivers { (stamp : ℕ) (e : ReceiverEnd) (seen : Seen) (n : Node) → (popped_by seen (pushed_of (receiver_deed stamp e seen n)) ≡ seen) ⊎ (is_some e.machine.owes ≡ true) }
    ensures senders_want { (stamp : ℕ) (e : SenderEnd) (seen : Seen) (n : Node) → EachWantsNone (sender_deed stamp e seen n) }
    ensures timeouts_want { (e : SenderEnd) (n : Node) → EachWantsNone (timeout_deed e n) }
    ensures receivers_want { (stamp : ℕ) (e : ReceiverEnd) (seen : Seen) (n : Node) → EachWantsNone (receiver_deed stamp e seen n) }
{}

/// Where neither end of a cable without faults changes a thing, its lane is quiet: nothing lies there, and nothing is owed.
pub fn still_ends_leave_a_lane_quiet()
    ensures still { (pushes : List Entry) (xs : List Lying) (o : Option Deed) → changes (record { faults = []; pushes = pushes; items = xs }) o ≡ false → IsStillEnd o (seen_of xs) }
    ensures items { (pushes pops : List Entry) → Items (seen_of (lying [] pushes pops)) }
    ensures quiet { (stamp : ℕ) (e : SenderEnd) (r : ReceiverEnd) (n v : Node) (w : Road) → HasSender e n w → HasReceiver r v w → Items w.out → Items w.back → IsStillEnd (sender_deed stamp e (waiting w.back) n) w.out
        → IsStillEnd (receiver_deed stamp r (waiting w.out) v) w.back → Quiet w }
{}

/// Each entry of a PUMP has a deed, which ran where it takes memory of its own accord: that of the end whose turn it is, or of the trigger.
pub fn each_entry_of_a_pump_ran()
    ensures ran { (w : Network) (m : ℕ) (e : Entry) (n : Node) → Good (does m (e ∷ []) w) → w.first m ≡ Some n → IsPumped e.call → RanDeed e (after n (w.done m)) }
    ensures turns { (k stamp : ℕ) (e : SenderEnd) (n : Node) (seen : Seen) → n.manager.running ≡ Up → end_in k n.own.ends ≡ Some (ChannelEnd.Sends e) → deed_of stamp (actors.Sender k) calls.Turn seen n ≡ sender_deed stamp e seen n }
    ensures takings { (k stamp : ℕ) (e : ReceiverEnd) (n : Node) (seen : Seen) → n.manager.running ≡ Up → end_in k n.own.ends ≡ Some (ChannelEnd.Receives e) → deed_of stamp (actors.Receiver k) calls.Turn seen n ≡ receiver_deed stamp e seen n }
    ensures timeouts { (k stamp : ℕ) (e : SenderEnd) (n : Node) (seen : Seen) → n.manager.running ≡ Up → end_in k n.own.ends ≡ Some (ChannelEnd.Sends e) → deed_of stamp (actors.Sender k) calls.Timeout seen n ≡ timeout_deed e n }
    ensures triggers_want { (n : Node) → EachWantsNone (trigger_deed n) }
{}

/// A turn of a cable's sender in a PUMP, or a timeout of it, moves that cable's lane: the machine of its end and what lies on both ways, and nothing of its receiver.
pub fn a_senders_turn_moves_its_lane()
    ensures turns { (w : Network) (k : ℕ) (c : CableLine) (near far : Node) (e : SenderEnd) (r : ReceiverEnd) (l : Lane) (m : ℕ) (x : Entry) → Good (does m (x ∷ []) w) → Shows w k c near far e r l
        → TakesTurn (turn_in w Sends k c) m x → SenderMoves w k c near far e r l m x }
    ensures timeouts { (w : Network) (k : ℕ) (c : CableLine) (near far : Node) (e : SenderEnd) (r : ReceiverEnd) (l : Lane) (m : ℕ) (x : Entry) → Good (does m (x ∷ []) w) → Shows w k c near far e r l
        → TakesTurn (turn_in w TimesOut k c) m x → SenderTimesOut w k c near far e r l m x }
{}

/// So does a turn of its receiver: what it pops is what its machine takes, and what it pushes lies last on the way back.
pub fn a_receivers_turn_moves_its_lane()
    ensures { (w : Network) (k : ℕ) (c : CableLine) (near far : Node) (e : SenderEnd) (r : ReceiverEnd) (l : Lane) (m : ℕ) (x : Entry) → Good (does m (x ∷ []) w) → Shows w k c near far e r l
        → TakesTurn (turn_in w Receives k c) m x → ReceiverMoves w k c near far e r l m x }
{}

/// A sender's session stays the highest on its lane: each BIND bears it, and its receiver takes over no other.
pub fn a_senders_session_stays_the_highest_on_its_lane()
    ensures sends { (t : SenderTurn) (w : Road) → IsBelow w → IsBelow (sender_turn t w) }
    ensures timeouts { (w : Road) → IsBelow w → IsBelow (sender_timed_out w) }
    ensures takes { (t : ReceiverTurn) (w : Road) → IsBelow w → IsBelow (receiver_turn t w) }
{}

/// No turn brings a sender to run that didn't, and no turn stops a receiver.
pub fn turns_start_no_sender_and_stop_no_receiver()
    ensures starts { (t : SenderTurn) (w : Road) → is_running (sender_turn t w).sender.state ≡ true → is_running w.sender.state ≡ true }
    ensures stops { (t : ReceiverTurn) (w : Road) → is_stopped w.receiver.state ≡ false → is_stopped (receiver_turn t w).receiver.state ≡ false }
{}

/// No turn of an end, no timeout and no trigger turn defines anything; what defines nothing leaves the definitions, and what is given.
pub fn a_pump_defines_nothing()
    ensures same { (parts : List Part) (p : Plain) → parts_define_none parts ≡ true → IsAsBegun (do_all parts p) p }
    ensures senders { (stamp : ℕ) (e : SenderEnd) (seen : Seen) (n : Node) → EachDefinesNone (sender_deed stamp e seen n) }
    ensures timeouts { (e : SenderEnd) (n : Node) → EachDefinesNone (timeout_deed e n) }
    ensures receivers { (stamp : ℕ) (e : ReceiverEnd) (seen : Seen) (n : Node) → EachDefinesNone (receiver_deed stamp e seen n) }
    ensures triggers { (n : Node) → EachDefinesNone (trigger_deed n) }
{}

/// A sender that runs on keeps its queue, by its own turns as by what adds no row to it; and its rows go where they went.
pub fn a_sender_that_runs_on_keeps_its_queue()
    ensures open { (channel queue : List ℕ) (parts : List Part) (p : Plain) → parts_leave channel queue parts ≡ true → queue_of_sender channel (do_all parts p) ≡ queue_of_sender channel p }
    ensures away { (n : Node) (channel queue : List ℕ) (parts : List Part) (p : Plain) → parts_leave channel queue parts ≡ true → RowsAway n (rows_at queue p) → RowsAway n (rows_at queue (do_all parts p)) }
    ensures others { (channel queue : List ℕ) (parts : List Part) → parts_add_none channel queue parts ≡ true → parts_leave channel queue parts ≡ true }
    ensures turns { (queue : List ℕ) (stamp : ℕ) (e : SenderEnd) (seen : Seen) (n : Node) → end_in e.cable n.own.ends ≡ Some (ChannelEnd.Sends e) → EachLeavesOwn queue e (sender_deed stamp e seen n) }
    ensures timeouts { (queue : List ℕ) (e : SenderEnd) (n : Node) → end_in e.cable n.own.ends ≡ Some (ChannelEnd.Sends e) → EachLeavesOwn queue e (timeout_deed e n) }
{}

/// What a sender offers is a row of its queue, and what a receiver keeps came to it: they go where those went.
pub fn messages_go_where_their_rows_went()
    ensures sends { (n : Node) (stamp : ℕ) (e : SenderEnd) (seen : Seen) (x : Node) → (is_running e.machine.state ≡ true → RowsAway n (rows_of e.channel x.manager))
        → (is_running e.machine.state ≡ true → (b : Batch) → batch_of e.channel x.manager.channels.batches ≡ Some b → b.queue ≡ queue_of_sender e.channel x.manager) → EachPushesAway n (sender_deed stamp e seen x) }
    ensures lays { (n : Node) (o : Option Frame) (xs : List Seen) → FrameAway n o → WayAway n xs → WayAway n (laid o xs) }
    ensures takes { (n : Node) (t : ReceiverTurn) (w : Road) → WayAway n w.out → WayAway n (receiver_turn t w).out }
    ensures keeps { (n : Node) (stamp : ℕ) (e : ReceiverEnd) (seen : Seen) (x : Node) → end_in e.cable x.own.ends ≡ Some (ChannelEnd.Receives e) → AllAway n e.kept → SeenAway n seen → EachKeepsAway n e (receiver_deed stamp e seen x) }
{}

/// What an end does leaves the ends of other cables at its node, and adds no row to a queue that another sender there has open, alone and for its own batches.
pub fn ends_of_other_cables_stay()
    ensures senders { (j stamp : ℕ) (e : SenderEnd) (seen : Seen) (n : Node) → (e.cable == j) ≡ false → EachEndStays j n (sender_deed stamp e seen n) }
    ensures timeouts { (j : ℕ) (e : SenderEnd) (n : Node) → (e.cable == j) ≡ false → EachEndStays j n (timeout_deed e n) }
    ensures receivers { (j stamp : ℕ) (e : ReceiverEnd) (seen : Seen) (n : Node) → (e.cable == j) ≡ false → EachEndStays j n (receiver_deed stamp e seen n) }
    ensures triggers { (j : ℕ) (n : Node) → EachEndStays j n (trigger_deed n) }
    ensures silent { (n : Node) → EachIsSilent (trigger_deed n) }
    ensures alone { (channel : List ℕ) (p : Plain) → HasSeized channel p → AreSeized p
        → (is_transmission_queue (local_of (queue_of_sender channel p) p.definitions) ≡ true) × (has_held_by_other channel (queue_of_sender channel p) p ≡ false) }
    ensures others { (n : Node) (j k stamp : ℕ) (e f : SenderEnd) (seen : Seen) → IsKeyed n → AreSeized n.manager → end_in j n.own.ends ≡ Some (ChannelEnd.Sends e) → end_in k n.own.ends ≡ Some (ChannelEnd.Sends f) → (j ≡ k → ⊥)
        → HasSeized e.channel n.manager → (is_running f.machine.state ≡ true → HasSeized f.channel n.manager) → EachAddsNone e.channel (queue_of_sender e.channel n.manager) (sender_deed stamp f seen n) }
    ensures timed { (n : Node) (j k : ℕ) (e f : SenderEnd) → IsKeyed n → end_in j n.own.ends ≡ Some (ChannelEnd.Sends e) → end_in k n.own.ends ≡ Some (ChannelEnd.Sends f) → (j ≡ k → ⊥)
        → EachAddsNone e.channel (queue_of_sender e.channel n.manager) (timeout_deed f n) }
{}

/// A turn of a cable's end, or a timeout, moves the cable's lane, which shows the cable still, with what a PUMP needs of it.
pub fn turns_move_what_a_lane_sees()
    ensures { (w0 w : Network) (slot : Slot) (k : ℕ) (c : CableLine) (m : ℕ) (x : Entry) (l : Lane) → Good (does m (x ∷ []) w) → slice_get w.scenario.cables k ≡ Some c → Sees w0 w k c l → TimeoutFits slot l
        → TakesTurn (turn_in w slot k c) m x → Moved (Sees w0) (does m (x ∷ []) w) k c l }
{}

/// An entry of another cable, and a trigger turn, leaves what a lane sees of its own cable.
pub fn entries_of_others_leave_what_a_lane_sees()
    ensures others { (w0 w : Network) (k : ℕ) (c : CableLine) (m : ℕ) (x : Entry) (j : ℕ) (d : CableLine) (l moving : Lane) → Good (does m (x ∷ []) w) → slice_get w.scenario.cables k ≡ Some c → slice_get w.scenario.cables j ≡ Some d → Sees w0 w j d l
        → Sees w0 w k c moving → IsOf w k c m x → (j ≡ k → ⊥) → Sees w0 (does m (x ∷ []) w) j d l }
    ensures triggers { (w0 w : Network) (m : ℕ) (x : Entry) (j : ℕ) (d : CableLine) (l : Lane) → Good (does m (x ∷ []) w) → slice_get w.scenario.cables j ≡ Some d → Sees w0 w j d l → x.call ≡ calls.Trigger → Sees w0 (does m (x ∷ []) w) j d l }
{}

/// At a network where receivers of running senders are there, no cable has faults, and no message goes to the queue of a running sender, each cable is
/// a lane; and the bound of these lanes is 16 per row of a running sender's queue, 16 per channel and 3 per item on a cable.
pub fn a_pump_begins_with_lanes()
    ensures { (w : Network) → Good w → Restful w → (ls : List Lane) × SeesAll (Sees w) w 0 w.scenario.cables ls × Begins ls × (bound ls ≡ most w) }
{}

/// What lanes see is steady: each turn and each timeout moves its lane, and nothing else moves any.
pub fn what_lanes_see_is_steady()
    ensures { (w0 : Network) → IsSteady Good (Sees w0) }
{}

/// **A PUMP comes to rest**: one of at least so many turns ends where nothing can change.
pub fn a_pump_comes_to_rest()
    ensures { (w v : Network) (n : ℕ) → Good v → Restful w → Goes w (Pump n Sends 0 false ∷ []) v [] → most w ≤ n → is_idle v ≡ true }
{}

/// So is the answer of mq_steps' `pump`, over any nodes: where its steps are those of a PUMP of at least so many turns, and it says idle exactly where nothing
/// can change, it says idle, or names a manager that made its last event, or wants memory.
pub fn a_pump_that_ends_is_idle()
    ensures { (result : Result Pumped NoMemory) (turns : ℕ) (c d : Course) → IsPart (Pump turns Sends 0 false ∷ []) (pumped_then result) c d → IfOk result (λ (p : Pumped). p.idle ≡ is_idle d.net)
        → Good d.net → Restful c.net → most c.net ≤ turns → IfOk result (λ (p : Pumped). p.spent ≡ None → p.idle ≡ true) }
{}

/// A node fits where it has the facts that each history keeps: its ends are told apart, its senders have their queues open and alone, its rows and batches are
/// sound, and a batch is of its sender's queue and lists the rows that its sender counts.
pub fn nodes_with_their_facts_fit()
    ensures { (n : Node) → IsKeptNode n → IsFit n }
{}
