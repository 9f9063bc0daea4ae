//! A network with channels along a run: what is kept of it, entry by entry of its story.
#![tactic(auto)]

ghost use Rattle.std.specs.Prelude.{◌≡◌, ◌∷◌, ◌++◌, ℕ, false, true, List, [], None, Option, Some, slice_get};
ghost use Rattle.mq_sync.specs.declared.unit.Settle.TheVariants as settles;
ghost use Rattle.mq_frame.specs.declared.frame.Frame.{Frame};
ghost use Rattle.mq_calls.specs.declared.choices.Choice.TheVariants.{Runs};
ghost use Rattle.mq_calls.specs.declared.choices.Return.TheVariants.{Comes};
ghost use Rattle.mq_sc_parse.specs.declared.command.Command.TheVariants as lines;
ghost use Rattle.mq_sc_parse.specs.declared.command.Op.{Op};
ghost use Rattle.mq_sc_parse.specs.declared.command.Op.TheVariants as ops;
ghost use Rattle.mq_history.specs.declared.acts.Act.TheVariants as acts;
ghost use Rattle.mq_history.specs.declared.calls.Actor.TheVariants as actors;
ghost use Rattle.mq_history.specs.declared.calls.Call.TheVariants as calls;
ghost use Rattle.mq_history.specs.declared.calls.Chance.TheVariants as chances;
ghost use Rattle.mq_history.specs.declared.calls.Entry.{Entry};
ghost use Rattle.mq_history.specs.declared.history.History.{History};
ghost use Rattle.mq_history.specs.declared.scenario.CableLine.{CableLine};
ghost use Rattle.mq_history.specs.declared.scenario.Scenario.{Scenario};
ghost use Rattle.mq_history.specs.Scenarios.{IsScenario};
ghost use Rattle.mq_calls.specs.State.{LogState, Noted};
ghost use Rattle.mq_calls.specs.State.Running.{Down, Up};
ghost use Rattle.mq_spec_node.specs.Deeds.{CanCome, Deed, done};
ghost use Rattle.mq_spec_node.specs.Node.{sender_named};
ghost use Rattle.mq_spec_node.specs.Node.ChannelEnd.{Receives, Sends};
ghost use Rattle.mq_spec_node.specs.Operators.{end_here, operate};
ghost use Rattle.mq_spec_node.specs.Receivers.{receiver_deed};
ghost use Rattle.mq_spec_node.specs.Replays.{IsOwn, Tells, done_by};
ghost use Rattle.mq_spec_node.specs.Senders.{sender_deed, timeout_deed};
ghost use Rattle.mq_sync.specs.declared.unit.Unit.{Unit as Luw};
ghost use Rattle.mq_spec_network.specs.Order.{Forced, KeepsQueue, others, unforced};
ghost use Rattle.mq_spec_network.specs.Conflict.{Deed as ToldDeed, NoConflict, deeds};
ghost use Rattle.mq_spec_network.specs.Ledger.{ledger};
ghost use Rattle.mq_spec_network.specs.Promised.{Premises, Promised};
ghost use Rattle.mq_spec_network.specs.Standing.{node_after, opening_ledger};
ghost use Rattle.mq_spec_network.specs.Lawful.{IsLawful};
ghost use Rattle.mq_spec_network.specs.Story.{IsStory, Line, Mem, entries_at};
ghost use Rattle.mq_law_channel.specs.Turns.{SeenIn};
ghost use Rattle.mq_law_node.specs.Ends.{receiver_of, sender_of};
ghost use Rattle.mq_law_rows.specs.World.{Book, Ghost, Inv, World, tag_idents};
ghost use Rattle.mq_law_rows.specs.Kinds.{Commits};
ghost use Rattle.mq_law_one.specs.Alone.{IsOwnCall};
ghost use Rattle.mq_law_run.specs.Ordered.{AreListed, IsOnly};
ghost use Rattle.mq_law_run.specs.Run.{HaveSenders, HoldsRows, IsRunning, Moves, Stand, back_done, failed_node, far_at, near_at, risen_done, stopped_done};

/// A network with channels begins so.
pub fn a_network_begins_so()
    ensures { (s : Scenario) (hs : List History) → Premises s hs → Stand s hs [] }
{}

/// What is kept of a prefix is kept with an entry more, where the entry's event comes to a move of the network.
pub fn a_move_is_kept()
    ensures { (s : Scenario) (hs : List History) (p : List Line) (x : Line) (h : History) (stamp : ℕ) (z : Stand s hs p) → IsScenario s → slice_get hs x.manager ≡ Some h → Tells (node_after s x.manager p h) stamp x.entry → IsOwn x.entry.chance
        → Moves s hs p x h z → Stand s hs (p ++ x ∷ []) }
{}

/// What is a manager's own comes to one: the channels stay as they are.
pub fn what_is_a_managers_own_is_a_move()
    ensures { (s : Scenario) (hs : List History) (p : List Line) (x : Line) (h : History) (stamp : ℕ) (z : Stand s hs p) → slice_get hs x.manager ≡ Some h → Tells (node_after s x.manager p h) stamp x.entry → IsOwn x.entry.chance
        → IsOwnCall x.entry.actor x.entry.call → Moves s hs p x h z }
{}

/// What changes nothing is one: what a manager that is down does not do, a refused command, a turn of an end that has nothing to do.
pub fn what_changes_nothing_is_a_move()
    ensures { (s : Scenario) (hs : List History) (p : List Line) (x : Line) (h : History) (stamp : ℕ) (z : Stand s hs p) → slice_get hs x.manager ≡ Some h → Tells (node_after s x.manager p h) stamp x.entry → IsOwn x.entry.chance
        → (done_by x.entry (node_after s x.manager p h)).next ≡ node_after s x.manager p h → (done_by x.entry (node_after s x.manager p h)).delta ≡ [] → (done_by x.entry (node_after s x.manager p h)).pushed ≡ None
        → ledger (opening_ledger s hs) (p ++ x ∷ []) ≡ ledger (opening_ledger s hs) p → Moves s hs p x h z }
{}

/// What an end popped was offered to its channel, where frames have their entries' stamps.
pub fn what_ends_pop_was_offered()
    ensures senders { (s : Scenario) (hs : List History) (p rest : List Line) (x : Line) (z : Stand s hs p) (i : ℕ) (k : CableLine) → IsStory hs (p ++ x ∷ rest) → IsLawful s hs → slice_get s.cables i ≡ Some k → k.sender ≡ x.manager → x.entry.actor ≡ actors.Sender i
        → ((o : Entry) (f : Frame) → Mem o (entries_at hs k.receiver) → o.effect.pushed ≡ Some f → o.stamp ≡ f.stamp) → SeenIn x.entry.effect.popped (z.xs k.sender k.channel).back }
    ensures receivers { (s : Scenario) (hs : List History) (p rest : List Line) (x : Line) (z : Stand s hs p) (i : ℕ) (k : CableLine) → IsStory hs (p ++ x ∷ rest) → IsLawful s hs → slice_get s.cables i ≡ Some k → k.receiver ≡ x.manager → x.entry.actor ≡ actors.Receiver i
        → ((o : Entry) (f : Frame) → Mem o (entries_at hs k.sender) → o.effect.pushed ≡ Some f → o.stamp ≡ f.stamp) → SeenIn x.entry.effect.popped (z.xs k.sender k.channel).out }
{}

/// So does each turn of an end that runs, and each timeout: that cable's channel takes its step, and all others stay. A receiver's turn does in a
/// prefix of one without conflict.
pub fn turns_of_ends_are_moves()
    ensures senders { (s : Scenario) (hs : List History) (p : List Line) (x : Line) (h : History) (stamp : ℕ) (z : Stand s hs p) (i : ℕ) (k : CableLine) (d : Deed) → IsScenario s → slice_get hs x.manager ≡ Some h
        → Tells (node_after s x.manager p h) stamp x.entry → IsOwn x.entry.chance → slice_get s.cables i ≡ Some k → k.sender ≡ x.manager → x.entry.actor ≡ actors.Sender i → x.entry.call ≡ calls.Turn → IsRunning s p x h d
        → sender_deed x.entry.stamp (sender_of (near_at s i k) (z.xs k.sender k.channel).sender) x.entry.effect.popped (node_after s x.manager p h) ≡ Some d → SeenIn x.entry.effect.popped (z.xs k.sender k.channel).back → Moves s hs p x h z }
    ensures receivers { (s : Scenario) (hs : List History) (whole p : List Line) (es : List ToldDeed) (x : Line) (h g : History) (stamp : ℕ) (z : Stand s hs p) (i : ℕ) (k : CableLine) (d : Deed) → IsScenario s → NoConflict s hs whole
        → deeds whole ≡ deeds (p ++ x ∷ []) ++ es → slice_get hs x.manager ≡ Some h → Tells (node_after s x.manager p h) stamp x.entry → IsOwn x.entry.chance → slice_get s.cables i ≡ Some k → k.receiver ≡ x.manager → slice_get hs k.sender ≡ Some g
        → x.entry.actor ≡ actors.Receiver i → x.entry.call ≡ calls.Turn → IsRunning s p x h d
        → receiver_deed x.entry.stamp (receiver_of (far_at s i k) (z.xs k.sender k.channel).receiver (z.xs k.sender k.channel).kept) x.entry.effect.popped (node_after s x.manager p h) ≡ Some d → SeenIn x.entry.effect.popped (z.xs k.sender k.channel).out
        → Moves s hs p x h z }
    ensures timeouts { (s : Scenario) (hs : List History) (p : List Line) (x : Line) (h : History) (stamp : ℕ) (z : Stand s hs p) (i : ℕ) (k : CableLine) (d : Deed) → IsScenario s → slice_get hs x.manager ≡ Some h
        → Tells (node_after s x.manager p h) stamp x.entry → IsOwn x.entry.chance → slice_get s.cables i ≡ Some k → k.sender ≡ x.manager → x.entry.call ≡ calls.Timeout → IsRunning s p x h d
        → timeout_deed (sender_of (near_at s i k) (z.xs k.sender k.channel).sender) (node_after s x.manager p h) ≡ Some d → Moves s hs p x h z }
{}

/// And a stop of a manager, and a restart that finds no write: where its ends let go what they have not prepared.
pub fn stops_and_restarts_are_moves()
    ensures stops { (s : Scenario) (hs : List History) (p : List Line) (x : Line) (h : History) (stamp : ℕ) (z : Stand s hs p) → IsScenario s → slice_get hs x.manager ≡ Some h → Tells (node_after s x.manager p h) stamp x.entry → IsOwn x.entry.chance
        → (node_after s x.manager p h).manager.running ≡ Up → x.entry.call ≡ calls.Act acts.Crash → x.entry.chance ≡ chances.Call Runs → done_by x.entry (node_after s x.manager p h) ≡ stopped_done (node_after s x.manager p h) → Moves s hs p x h z }
    ensures restarts { (s : Scenario) (hs : List History) (p : List Line) (x : Line) (h : History) (stamp : ℕ) (z : Stand s hs p) (noted : Option Noted) (starts started : ℕ) → IsScenario s → slice_get hs x.manager ≡ Some h
        → Tells (node_after s x.manager p h) stamp x.entry → IsOwn x.entry.chance → (node_after s x.manager p h).manager.running ≡ Down noted starts → x.entry.call ≡ calls.Act acts.Restart → x.entry.chance ≡ chances.Restart (Comes false started)
        → done_by x.entry (node_after s x.manager p h) ≡ risen_done started noted (node_after s x.manager p h) → Moves s hs p x h z }
{}

/// And an operator's START, STOP and RESET of a sender's end, whether they are refused or done.
pub fn commands_on_senders_are_moves()
    ensures starting { (s : Scenario) (hs : List History) (p : List Line) (x : Line) (h : History) (stamp : ℕ) (z : Stand s hs p) (i : ℕ) (k : CableLine) (name : List ℕ) → IsScenario s → slice_get hs x.manager ≡ Some h
        → Tells (node_after s x.manager p h) stamp x.entry → IsOwn x.entry.chance → slice_get s.cables i ≡ Some k → k.sender ≡ x.manager → x.entry.call ≡ calls.Act (acts.Obey (lines.Operate (ops.Start name))) → x.entry.chance ≡ chances.Call Runs
        → IsRunning s p x h (operate (ops.Start name) (node_after s x.manager p h)) → end_here name (node_after s x.manager p h) ≡ Some (Sends (sender_of (near_at s i k) (z.xs k.sender k.channel).sender)) → Moves s hs p x h z }
    ensures stopping { (s : Scenario) (hs : List History) (p : List Line) (x : Line) (h : History) (stamp : ℕ) (z : Stand s hs p) (i : ℕ) (k : CableLine) (name : List ℕ) → IsScenario s → slice_get hs x.manager ≡ Some h
        → Tells (node_after s x.manager p h) stamp x.entry → IsOwn x.entry.chance → slice_get s.cables i ≡ Some k → k.sender ≡ x.manager → x.entry.call ≡ calls.Act (acts.Obey (lines.Operate (ops.Stop name))) → x.entry.chance ≡ chances.Call Runs
        → IsRunning s p x h (operate (ops.Stop name) (node_after s x.manager p h)) → end_here name (node_after s x.manager p h) ≡ Some (Sends (sender_of (near_at s i k) (z.xs k.sender k.channel).sender)) → Moves s hs p x h z }
    ensures resetting { (s : Scenario) (hs : List History) (p : List Line) (x : Line) (h : History) (stamp : ℕ) (z : Stand s hs p) (i : ℕ) (k : CableLine) (name : List ℕ) (seqnum : ℕ) → IsScenario s → slice_get hs x.manager ≡ Some h
        → Tells (node_after s x.manager p h) stamp x.entry → IsOwn x.entry.chance → slice_get s.cables i ≡ Some k → k.sender ≡ x.manager → x.entry.call ≡ calls.Act (acts.Obey (lines.Operate (ops.Reset name seqnum))) → x.entry.chance ≡ chances.Call Runs
        → IsRunning s p x h (operate (ops.Reset name seqnum) (node_after s x.manager p h)) → end_here name (node_after s x.manager p h) ≡ Some (Sends (sender_of (near_at s i k) (z.xs k.sender k.channel).sender)) → Moves s hs p x h z }
{}

/// And an operator's START, STOP and RESET of a receiver's end.
pub fn commands_on_receivers_are_moves()
    ensures starting { (s : Scenario) (hs : List History) (p : List Line) (x : Line) (h : History) (stamp : ℕ) (z : Stand s hs p) (i : ℕ) (k : CableLine) (name : List ℕ) → IsScenario s → slice_get hs x.manager ≡ Some h
        → Tells (node_after s x.manager p h) stamp x.entry → IsOwn x.entry.chance → slice_get s.cables i ≡ Some k → k.receiver ≡ x.manager → x.entry.call ≡ calls.Act (acts.Obey (lines.Operate (ops.Start name))) → x.entry.chance ≡ chances.Call Runs
        → IsRunning s p x h (operate (ops.Start name) (node_after s x.manager p h)) → end_here name (node_after s x.manager p h) ≡ Some (Receives (receiver_of (far_at s i k) (z.xs k.sender k.channel).receiver (z.xs k.sender k.channel).kept)) → Moves s hs p x h z }
    ensures stopping { (s : Scenario) (hs : List History) (p : List Line) (x : Line) (h : History) (stamp : ℕ) (z : Stand s hs p) (i : ℕ) (k : CableLine) (name : List ℕ) → IsScenario s → slice_get hs x.manager ≡ Some h
        → Tells (node_after s x.manager p h) stamp x.entry → IsOwn x.entry.chance → slice_get s.cables i ≡ Some k → k.receiver ≡ x.manager → x.entry.call ≡ calls.Act (acts.Obey (lines.Operate (ops.Stop name))) → x.entry.chance ≡ chances.Call Runs
        → IsRunning s p x h (operate (ops.Stop name) (node_after s x.manager p h)) → end_here name (node_after s x.manager p h) ≡ Some (Receives (receiver_of (far_at s i k) (z.xs k.sender k.channel).receiver (z.xs k.sender k.channel).kept)) → Moves s hs p x h z }
    ensures resetting { (s : Scenario) (hs : List History) (p : List Line) (x : Line) (h : History) (stamp : ℕ) (z : Stand s hs p) (i : ℕ) (k : CableLine) (name : List ℕ) (seqnum : ℕ) → IsScenario s → slice_get hs x.manager ≡ Some h
        → Tells (node_after s x.manager p h) stamp x.entry → IsOwn x.entry.chance → slice_get s.cables i ≡ Some k → k.receiver ≡ x.manager → x.entry.call ≡ calls.Act (acts.Obey (lines.Operate (ops.Reset name seqnum))) → x.entry.chance ≡ chances.Call Runs
        → IsRunning s p x h (operate (ops.Reset name seqnum) (node_after s x.manager p h)) → end_here name (node_after s x.manager p h) ≡ Some (Receives (receiver_of (far_at s i k) (z.xs k.sender k.channel).receiver (z.xs k.sender k.channel).kept)) → Moves s hs p x h z }
{}

/// And his RESOLVE that backs out, in a prefix of one without conflict.
pub fn what_is_backed_out_is_a_move()
    ensures { (s : Scenario) (hs : List History) (whole p : List Line) (es : List ToldDeed) (x : Line) (h : History) (stamp : ℕ) (z : Stand s hs p) (i : ℕ) (k : CableLine) (name : List ℕ) → IsScenario s → NoConflict s hs whole
        → deeds whole ≡ deeds (p ++ x ∷ []) ++ es → slice_get hs x.manager ≡ Some h → Tells (node_after s x.manager p h) stamp x.entry → IsOwn x.entry.chance → slice_get s.cables i ≡ Some k → k.sender ≡ x.manager
        → x.entry.call ≡ calls.Act (acts.Obey (lines.Operate (ops.Resolve name settles.Backout))) → x.entry.chance ≡ chances.Call Runs → IsRunning s p x h (operate (ops.Resolve name settles.Backout) (node_after s x.manager p h))
        → sender_named name (node_after s x.manager p h).own.ends ≡ Some (sender_of (near_at s i k) (z.xs k.sender k.channel).sender) → Moves s hs p x h z }
{}

/// And a restart that fails: the manager stays down, with what was noted.
pub fn failing_restarts_are_moves()
    ensures { (s : Scenario) (hs : List History) (p : List Line) (x : Line) (h : History) (stamp : ℕ) (z : Stand s hs p) (noted : Option Noted) (starts more : ℕ) (g : LogState) → slice_get hs x.manager ≡ Some h → Tells (node_after s x.manager p h) stamp x.entry
        → IsOwn x.entry.chance → (node_after s x.manager p h).manager.running ≡ Down noted starts → (done_by x.entry (node_after s x.manager p h)).next ≡ failed_node noted more g (node_after s x.manager p h)
        → (done_by x.entry (node_after s x.manager p h)).delta ≡ [] → (done_by x.entry (node_after s x.manager p h)).pushed ≡ None → ledger (opening_ledger s hs) (p ++ x ∷ []) ≡ ledger (opening_ledger s hs) p → Moves s hs p x h z }
{}

/// And his RESOLVE that commits: what its receiver has not committed yet counts as there, and is committed nowhere else.
pub fn what_is_committed_is_a_move()
    ensures { (s : Scenario) (hs : List History) (p : List Line) (x : Line) (h : History) (stamp : ℕ) (z : Stand s hs p) (i : ℕ) (k : CableLine) (name : List ℕ) → IsScenario s → slice_get hs x.manager ≡ Some h → Tells (node_after s x.manager p h) stamp x.entry
        → IsOwn x.entry.chance → slice_get s.cables i ≡ Some k → k.sender ≡ x.manager → x.entry.call ≡ calls.Act (acts.Obey (lines.Operate (ops.Resolve name settles.Commit))) → x.entry.chance ≡ chances.Call Runs
        → IsRunning s p x h (operate (ops.Resolve name settles.Commit) (node_after s x.manager p h)) → sender_named name (node_after s x.manager p h).own.ends ≡ Some (sender_of (near_at s i k) (z.xs k.sender k.channel).sender) → Moves s hs p x h z }
{}

/// And a restart that finds the write of a call, or of a channel's end, a receiver's commit among them: it does what the note says, and then
/// the manager comes up. It is in a prefix of one without conflict.
pub fn restarts_that_find_a_write_are_moves()
    ensures { (s : Scenario) (hs : List History) (whole p : List Line) (es : List ToldDeed) (x : Line) (h : History) (stamp : ℕ) (z : Stand s hs p) (noted : Noted) (starts started : ℕ) → IsScenario s → NoConflict s hs whole
        → deeds whole ≡ deeds (p ++ x ∷ []) ++ es → HaveSenders s hs → slice_get hs x.manager ≡ Some h → Tells (node_after s x.manager p h) stamp x.entry → IsOwn x.entry.chance → (node_after s x.manager p h).manager.running ≡ Down (Some noted) starts → x.entry.call ≡ calls.Act acts.Restart → x.entry.chance ≡ chances.Restart (Comes true started)
        → done_by x.entry (node_after s x.manager p h) ≡ back_done started noted (node_after s x.manager p h) → Moves s hs p x h z }
{}

/// Each frame that an entry offers has the entry's stamp.
pub fn offers_have_their_entries_stamps()
    ensures { (s : Scenario) (hs : List History) → Premises s hs → (m : ℕ) (o : Entry) (f : Frame) → Mem o (entries_at hs m) → o.effect.pushed ≡ Some f → o.stamp ≡ f.stamp }
{}

/// So each stop and each restart is a move, whether it is refused, fails, or finds a write or none.
pub fn each_stop_and_each_restart_is_a_move()
    ensures stops { (s : Scenario) (hs : List History) (p : List Line) (x : Line) (h : History) (stamp : ℕ) (z : Stand s hs p) → IsScenario s → slice_get hs x.manager ≡ Some h → Tells (node_after s x.manager p h) stamp x.entry → IsOwn x.entry.chance
        → x.entry.call ≡ calls.Act acts.Crash → Moves s hs p x h z }
    ensures restarts { (s : Scenario) (hs : List History) (whole p : List Line) (es : List ToldDeed) (x : Line) (h : History) (stamp : ℕ) (z : Stand s hs p) → IsScenario s → NoConflict s hs whole → deeds whole ≡ deeds (p ++ x ∷ []) ++ es
        → HaveSenders s hs → slice_get hs x.manager ≡ Some h → Tells (node_after s x.manager p h) stamp x.entry → IsOwn x.entry.chance → x.entry.call ≡ calls.Act acts.Restart → Moves s hs p x h z }
{}

/// Each turn of an end of a channel, and each timeout, is a move, whether its write is stopped or not: the end is of a cable of the scenario,
/// and what it popped was offered. A receiver's turn is one in a prefix of one without conflict.
pub fn each_turn_of_an_end_is_a_move()
    ensures senders { (s : Scenario) (hs : List History) (p rest : List Line) (x : Line) (h : History) (stamp : ℕ) (z : Stand s hs p) (i : ℕ) → Premises s hs → IsStory hs (p ++ x ∷ rest) → slice_get hs x.manager ≡ Some h
        → Tells (node_after s x.manager p h) stamp x.entry → IsOwn x.entry.chance → x.entry.actor ≡ actors.Sender i → x.entry.call ≡ calls.Turn → Moves s hs p x h z }
    ensures receivers { (s : Scenario) (hs : List History) (whole p rest : List Line) (es : List ToldDeed) (x : Line) (h : History) (stamp : ℕ) (z : Stand s hs p) (i : ℕ) → Premises s hs → IsStory hs (p ++ x ∷ rest) → NoConflict s hs whole
        → deeds whole ≡ deeds (p ++ x ∷ []) ++ es → slice_get hs x.manager ≡ Some h → Tells (node_after s x.manager p h) stamp x.entry → IsOwn x.entry.chance → x.entry.actor ≡ actors.Receiver i → x.entry.call ≡ calls.Turn
        → Moves s hs p x h z }
    ensures timeouts { (s : Scenario) (hs : List History) (p : List Line) (x : Line) (h : History) (stamp : ℕ) (z : Stand s hs p) → Premises s hs → slice_get hs x.manager ≡ Some h → Tells (node_after s x.manager p h) stamp x.entry
        → IsOwn x.entry.chance → x.entry.call ≡ calls.Timeout → Moves s hs p x h z }
{}

/// And each command on an end, whether it is refused, done or stopped: the end that is named is of a cable of the scenario.
pub fn each_command_on_an_end_is_a_move()
    ensures { (s : Scenario) (hs : List History) (whole p : List Line) (es : List ToldDeed) (x : Line) (h : History) (stamp : ℕ) (z : Stand s hs p) (op : Op) → Premises s hs → NoConflict s hs whole → deeds whole ≡ deeds (p ++ x ∷ []) ++ es
        → slice_get hs x.manager ≡ Some h → Tells (node_after s x.manager p h) stamp x.entry → IsOwn x.entry.chance → x.entry.call ≡ calls.Act (acts.Obey (lines.Operate op)) → Moves s hs p x h z }
{}

/// At a receiver's commit of a unit that is not loose, what stands before a row of its list on its queue, with its priority, is in the list too, and
/// before it: but for rows of other units that an operator has committed before their receivers, where the promise lists these.
pub fn a_commit_keeps_its_queue()
    ensures { (w : World) (g : Ghost) (b : Book) (m : ℕ) (c : List ℕ) (u : Luw) (t : ℕ) (fs : List Forced) → Inv w g b → Commits w g m c u t → g.loose m c u ≡ false → AreListed g b.rows fs → IsOnly g m c
        → (a : ℕ) (q : List ℕ) → KeepsQueue (tag_idents (g.sent m c u)) (unforced (others c u fs) (b.rows a q)) }
{}

/// So after each prefix of a lawful story in which no operator's settlement is at odds with its receiver all holds that is promised, the order of
/// receivers' commits too.
pub fn networks_keep_all_that_is_promised()
    ensures { (s : Scenario) (hs : List History) → Promised s hs }
{}

/// After each prefix of a lawful story in which no operator's settlement is at odds with its receiver (writes may be stopped, and restarts
/// may find them, or don't): the standing rows of each queue are the ledger's, list for list, and each ident stands once, and is in at most
/// one committed get. The premises are those of `Promised`.
pub fn networks_are_as_promised()
    ensures { (s : Scenario) (hs : List History) → Premises s hs → (story p rest : List Line) → IsStory hs story → story ≡ p ++ rest → NoConflict s hs p → HoldsRows s hs p }
{}
