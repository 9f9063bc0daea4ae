//! What an image of a manager's log is: what of its state lasts, what each record does, and that each
//! part of a call does to what lasts what its forced record says. So a crash at any moment leaves the
//! image before the part or the one behind it, and a restart has just this image.
#![tactic(auto)]

ghost use Rattle.std.specs.Prelude.{◌≡◌, ℕ, Bool, true, false, List, [], ◌∷◌, ◌++◌, Option, None, Ok};
ghost use Rattle.std.specs.List.{AllByRecursion};
ghost use Rattle.mq_message.specs.declared.message.Dest.{Dest};
ghost use Rattle.mq_message.specs.declared.message.Ident.{Ident};
ghost use Rattle.mq_message.specs.declared.message.Md.{Md};
ghost use Rattle.mq_message.specs.declared.message.Message.{Message};
ghost use Rattle.mq_message.specs.declared.place.Holder.TheVariants as holders;
ghost use Rattle.mq_queue.specs.declared.row.Row.{Row};
ghost use Rattle.mq_sync.specs.declared.unit.Unit.{Unit as Luw};
ghost use Rattle.mq_sync.specs.declared.data.End.{End};
ghost use Rattle.mq_spec_manager.specs.from_sc_apply.{ThePlanned as Planned};
ghost use Rattle.mq_calls.specs.declared.answers.Hconn.{Hconn};
ghost use Rattle.mq_calls.specs.declared.answers.Hobj.{Hobj};
ghost use Rattle.mq_calls.specs.declared.answers.Appl.{Appl};
ghost use Rattle.mq_calls.specs.declared.answers.Get.{Get};
ghost use Rattle.mq_calls.specs.declared.answers.Open.{Open};
ghost use Rattle.mq_objects.specs.declared.command.Command.{Command};
ghost use Rattle.mq_calls.specs.declared.commands.RestartFault.{RestartFault};
ghost use Rattle.mq_calls.specs.declared.agents.Note.TheVariants as notes;
ghost use Rattle.mq_calls.specs.declared.agents.Note.{Note};
ghost use Rattle.mq_calls.specs.declared.deltas.Why.{Why};
ghost use Rattle.mq_calls.specs.declared.records.LogRecord.{LogRecord};
ghost use Rattle.mq_calls.specs.State.{Change, Given, LogState, Noted, Plain, Which};
ghost use Rattle.mq_calls.specs.declared.state.Batch.{Batch};
ghost use Rattle.mq_calls.specs.declared.state.Connection.{Connection};
ghost use Rattle.mq_calls.specs.State.Which.{Among, HeldBy};
ghost use Rattle.mq_calls.specs.State.Change.{AddBatch, ChangeObjects, DropBatch, Hold, Leave, Release};
ghost use Rattle.mq_calls.specs.Reads.{in_doubt_of, is_persistent, receiver_data, sender_data};
ghost use Rattle.mq_calls.specs.Changes.{apply, apply_all};
ghost use Rattle.mq_calls.specs.Steps.{IsWrite, Part, do_part, freeze, note_of, stopped_at};
ghost use Rattle.mq_spec_manager.specs.Handles.{mqclose, mqconn, mqopen};
ghost use Rattle.mq_spec_manager.specs.Put.{mqput, mqput1, put_part};
ghost use Rattle.mq_spec_manager.specs.Get.{mqget, removal_part, taking_part};
ghost use Rattle.mq_spec_manager.specs.Units.{commit_part, mqback, mqcmit, mqdisc};
ghost use Rattle.mq_spec_manager.specs.Triggers.{trigger_turn};
ghost use Rattle.mq_spec_manager.specs.Commands.{command, object_part};
ghost use Rattle.mq_spec_manager.specs.Stops.{advance_clock, at_rest, cut, failed, redone_if};
ghost use Rattle.mq_spec_manager.specs.Agents.{CanHarden, CanHold, CanMove, CanPrepare, CanReceive, HasFreeRow, Absent, InDoubtAt, Landed, Landing, discard, expire, harden, harden_part, hold_batch, landed, leave, move_part, move_row, prepare, receive, release_batch, seize, set_bound};
ghost use Rattle.mq_sync.specs.Settlement.{receiver_or, sender_or};
ghost use Rattle.mq_calls.specs.Images.{has_batch, lasting};
ghost use Rattle.mq_spec_log.specs.Applies.{Start, applies, is_in_bounds, can_change, can_prepare, can_receive, fits};
ghost use Rattle.mq_spec_log.specs.Bodies.{empty_image, image, record_of};
ghost use Rattle.mq_law_log.specs.Keeps.{AllLand, CameBack, Does, HoldsJust, HoldsNone, IsLandable, IsNew, IsPlaceable, IsTakeable, Keeps, LandTold, StepKeeps, SwitchesAt, is_aside, received_part};
ghost use Rattle.mq_law_log.specs.Sound.{AreFree, IsLogSound, IsUnit};
ghost use Rattle.mq_law_manager.specs.Facts.{IsFrozen, IsSound};
ghost use Rattle.mq_law_manager.specs.Kept.{AllKeep};
ghost use Rattle.mq_law_log.specs.Restarts.{AllHarmless, IsGivenIn, IsHarmless, Recovers, StepHarmless, begun, next_started, note_at, prepare_part, raised, restarted};

/// A put, a removal of rows and the end of a unit, in a sound manager.
pub fn forced_writes_make_crashes_harmless()
    ensures puts { (c : Connection) (queue : List ℕ) (m : Message) (p : Plain) → IsLogSound p → fits queue m p.definitions ≡ true → IsNew m.ident p → IsHarmless (put_part false c queue m) p }
    ensures removals { (why : Why) (queue : List ℕ) (rows : List Row) (p : Plain) → IsLogSound p → AreFree queue rows p → IsHarmless (removal_part why queue rows) p }
    ensures commits { (more : List Change) (c : Connection) (p : Plain) → ((q : Plain) → lasting (apply_all more q) ≡ lasting q) → IsLogSound p → IsUnit c.unit p → IsHarmless (commit_part more c) p }
{}

/// What the ends of channels harden, where the call's condition holds.
pub fn hardened_writes_make_crashes_harmless()
    ensures { (channel : List ℕ) (note : Note) (p : Plain) → CanHarden channel note p → IsHarmless (harden_part channel note p) p }
{}

/// A stop changes nothing that lasts, and a restart has what lasts, of the next incarnation.
pub fn stops_and_restarts_keep_what_lasts()
    ensures stops { (p : Plain) → lasting (at_rest p) ≡ lasting p }
    ensures restarts { (kept : Bool) (started : ℕ) (noted : Option Noted) (p : Plain) → lasting (restarted kept started noted p) ≡ raised started (lasting (redone_if kept noted p)) }
{}

/// Where the image of the log's bodies is what lasts, it is so after each part that keeps the law and whose record is the
/// next body, and after a restart with its Started record. What a sound manager writes is read, within the bounds of numbers.
pub fn the_log_tells_what_lasts()
    ensures parts { (start : Start) (first : List ℕ) (bodies : List (List ℕ)) (next : List ℕ) (r : LogRecord) (part : Part) (p : Plain) → image p.given start (first ∷ bodies) ≡ Ok (lasting p) → part.forced ≡ Some r
        → record_of next ≡ Some r → applies p.given start r (lasting p) ≡ true → Keeps part p → image p.given start (first ∷ bodies ++ next ∷ []) ≡ Ok (lasting (do_part part p)) }
    ensures restarts { (start : Start) (first : List ℕ) (bodies : List (List ℕ)) (next : List ℕ) (kept : Bool) (started : ℕ) (noted : Option Noted) (p : Plain)
        → image (redone_if kept noted p).given start (first ∷ bodies) ≡ Ok (lasting (redone_if kept noted p)) → record_of next ≡ Some (next_started started (redone_if kept noted p))
        → applies (redone_if kept noted p).given start (next_started started (redone_if kept noted p)) (lasting (redone_if kept noted p)) ≡ true
        → image (redone_if kept noted p).given start (first ∷ bodies ++ next ∷ []) ≡ Ok (lasting (restarted kept started noted p)) }
    ensures writes { (start : Start) (first : List ℕ) (bodies : List (List ℕ)) (next : List ℕ) (r : LogRecord) (part : Part) (p : Plain) → image p.given start (first ∷ bodies) ≡ Ok (lasting p) → part.forced ≡ Some r
        → record_of next ≡ Some r → is_in_bounds start r ≡ true → IsHarmless part p → IsGivenIn part.forced p → image p.given start (first ∷ bodies ++ next ∷ []) ≡ Ok (lasting (do_part part p)) }
    ensures starts { (start : Start) (first : List ℕ) (bodies : List (List ℕ)) (next : List ℕ) (kept : Bool) (started : ℕ) (noted : Option Noted) (p : Plain)
        → image (redone_if kept noted p).given start (first ∷ bodies) ≡ Ok (lasting (redone_if kept noted p)) → record_of next ≡ Some (next_started started (redone_if kept noted p))
        → is_in_bounds start (next_started started (redone_if kept noted p)) ≡ true → image (redone_if kept noted p).given start (first ∷ bodies ++ next ∷ []) ≡ Ok (lasting (restarted kept started noted p)) }
{}

/// Each part of MQPUT, MQCMIT and MQDISC keeps the law in a sound manager.
pub fn puts_and_ends_of_units_keep_the_law()
    ensures mqput { (hc : Hconn) (ho : Hobj) (md : Md) (body : List ℕ) (sync : Bool) (p : Plain) → IsLogSound p → StepKeeps (mqput hc ho md body sync p) p }
    ensures mqcmit { (hc : Hconn) (p : Plain) → IsLogSound p → StepKeeps (mqcmit hc p) p }
    ensures mqdisc { (hc : Hconn) (p : Plain) → IsLogSound p → StepKeeps (mqdisc hc p) p }
{}

/// A batch that is prepared; batches that are held or released, rows that units hold, and puts that wait in a unit last nowhere.
pub fn batches_and_units_last_as_their_records_say()
    ensures prepared { (b : Batch) (last : ℕ) (p : Plain) → has_batch b.channel p.channels.batches ≡ true → AllByRecursion (HoldsJust b) p.queues
        → can_prepare b.unit b.queue b.idents (sender_or (sender_data b.channel p)) (lasting p).shelves ≡ true → IsHarmless (prepare_part b last p) p }
    ensures numbers { (channel : List ℕ) (end : End) (last : ℕ) (p : Plain) → in_doubt_of (sender_data channel p) ≡ None → IsHarmless (harden_part channel (notes.SeqSet end last) p) p }
    ensures batches { (b : Batch) (p : Plain) → AllByRecursion (HoldsNone b.channel) p.queues → lasting (apply_all (Hold (Among b.queue b.idents) (holders.Batch b.channel) ∷ AddBatch b ∷ []) p) ≡ lasting p }
    ensures releases { (channel : List ℕ) (p : Plain) → has_batch channel p.channels.batches ≡ true → lasting (apply_all (Release (HeldBy (holders.Batch channel)) false ∷ DropBatch channel ∷ []) p) ≡ lasting p }
    ensures units { (which : Which) (n : ℕ) (p : Plain) → lasting (apply (Hold which (holders.Unit n)) p) ≡ lasting p }
    ensures takes { (c : Connection) (queue : List ℕ) (row : Row) (p : Plain) → Does (taking_part true c queue row) p }
    ensures asides { (c : Change) (p : Plain) → is_aside c ≡ true → lasting (apply c p) ≡ lasting p }
    ensures pending { (c : Connection) (queue : List ℕ) (m : Message) (p : Plain) → Does (put_part true c queue m) p }
{}

/// A handler's move, object commands, and a receiver's commit whose messages each do so.
pub fn moves_and_object_commands_do_as_their_records_say()
    ensures moves { (from : List ℕ) (to : Dest) (bare : Bool) (l : Landing) (p : Plain) → IsTakeable (is_persistent l.message) from l.message.ident (lasting p)
        → IsPlaceable l.queue l.message (apply (Leave (Among from (l.message.ident ∷ []))) p) → Does (move_part from to bare l) p }
    ensures objects { (planned : Planned) (p : Plain) → can_change planned.change p.definitions (lasting p).shelves ≡ true
        → SwitchesAt planned.change planned p.definitions (apply (ChangeObjects planned.change) p) → Does (object_part planned p.definitions) p }
    ensures received { (channel : List ℕ) (unit : Luw) (last : ℕ) (ms : List Message) (l : Landed) (p : Plain) → landed channel ms p ≡ Ok l → AllLand channel ms p
        → can_receive unit (receiver_or (receiver_data channel p)) ≡ true → Does (received_part channel unit last l p) p }
    ensures back { (queue : List ℕ) (l : Landing) (p : Plain) → is_persistent l.message ≡ true → CameBack queue l p → LandTold true l (InDoubtAt queue) p }
    ensures absent { (l : Landing) (p : Plain) → IsLandable l.queue l.message p → LandTold (is_persistent l.message) l Absent p }
{}

/// A manager that begins on an empty log is sound.
pub fn a_manager_begins_soundly()
    ensures { (g : Given) (log : LogState) (moment : ℕ) → IsLogSound (begun g empty_image log moment) }
{}

/// A sound manager has what the law of the log needs.
pub fn a_sound_manager_keeps_its_log()
    ensures { (p : Plain) → IsSound p → IsLogSound p }
{}

/// A restart that finds the stopped write has a sound manager, where the part would have come to one.
pub fn a_found_write_gives_a_sound_manager()
    ensures { (part : Part) (r : LogRecord) (left started : ℕ) (p : Plain) → part.forced ≡ Some r → IsHarmless part p → IsSound (do_part part p) → IsSound (restarted true started (note_of part part.forced) (freeze (note_of part part.forced) left p)) }
{}

/// Each call of an application makes a crash harmless in a sound manager: each of its parts does to what lasts what its forced
/// record says, or nothing where it forces nothing; so after a stopped write the image is that before or that after.
pub fn calls_of_applications_are_harmless()
    ensures connects { (qmgr : List ℕ) (appl : Appl) (p : Plain) → IsSound p → StepHarmless (mqconn qmgr appl p) p }
    ensures opens { (hc : Hconn) (name qmgr : List ℕ) (how : Open) (p : Plain) → IsSound p → StepHarmless (mqopen hc name qmgr how p) p }
    ensures closes { (hc : Hconn) (ho : Hobj) (p : Plain) → IsSound p → StepHarmless (mqclose hc ho p) p }
    ensures puts { (hc : Hconn) (ho : Hobj) (md : Md) (body : List ℕ) (sync : Bool) (p : Plain) → IsSound p → StepHarmless (mqput hc ho md body sync p) p }
    ensures puts_once { (hc : Hconn) (name qmgr : List ℕ) (md : Md) (body : List ℕ) (sync : Bool) (p : Plain) → IsSound p → StepHarmless (mqput1 hc name qmgr md body sync p) p }
    ensures gets { (hc : Hconn) (ho : Hobj) (g : Get) (until : Option ℕ) (p : Plain) → IsSound p → StepHarmless (mqget hc ho g until p) p }
    ensures commits { (hc : Hconn) (p : Plain) → IsSound p → StepHarmless (mqcmit hc p) p }
    ensures backs_out { (hc : Hconn) (p : Plain) → IsSound p → StepHarmless (mqback hc p) p }
    ensures disconnects { (hc : Hconn) (p : Plain) → IsSound p → StepHarmless (mqdisc hc p) p }
{}

/// So does each of triggers, the handler and the ends of channels, under its call's condition.
pub fn calls_of_agents_are_harmless()
    ensures triggers { (p : Plain) → IsSound p → StepHarmless (trigger_turn p) p }
    ensures seizes { (channel : List ℕ) (p : Plain) → IsSound p → StepHarmless (seize channel p) p }
    ensures leaves { (channel : List ℕ) (p : Plain) → IsSound p → StepHarmless (leave channel p) p }
    ensures binds { (channel : List ℕ) (bound : Bool) (p : Plain) → IsSound p → StepHarmless (set_bound channel bound p) p }
    ensures expires { (channel : List ℕ) (p : Plain) → IsSound p → StepHarmless (expire channel p) p }
    ensures holds { (channel : List ℕ) (unit : Luw) (most : ℕ) (p : Plain) → CanHold channel p → IsSound p → StepHarmless (hold_batch channel unit most p) p }
    ensures releases { (channel : List ℕ) (p : Plain) → IsSound p → StepHarmless (release_batch channel p) p }
    ensures prepares { (channel : List ℕ) (last : ℕ) (p : Plain) → CanPrepare channel p → IsSound p → StepHarmless (prepare channel last p) p }
    ensures hardens { (channel : List ℕ) (note : Note) (p : Plain) → CanHarden channel note p → IsSound p → StepHarmless (harden channel note p) p }
    ensures receives { (channel : List ℕ) (unit : Luw) (last : ℕ) (batch : List Message) (p : Plain) → CanReceive channel unit p → IsSound p → StepHarmless (receive channel unit last batch p) p }
    ensures moves { (from : List ℕ) (ident : Ident) (to : Dest) (bare : Bool) (p : Plain) → CanMove from ident bare p → IsSound p → StepHarmless (move_row from ident to bare p) p }
    ensures discards { (queue : List ℕ) (ident : Ident) (p : Plain) → HasFreeRow queue ident p → IsSound p → StepHarmless (discard queue ident p) p }
{}

/// And each command on objects.
pub fn commands_are_harmless()
    ensures { (c : Command) (p : Plain) → IsSound p → StepHarmless (command c p) p }
{}

/// Whichever write of such a call is stopped: a restart has the image before it where it isn't found, and the one behind it where it is.
pub fn a_stopped_call_leaves_the_image_before_or_behind()
    ensures { (n : ℕ) (parts : List Part) (left started : ℕ) (p : Plain) → IsWrite n parts → AllHarmless parts p → Recovers n parts left started p }
{}

/// The clock, a cut that is armed and a restart that fails keep what holds of a manager, up or down; what is sound is a manager
/// that can be restarted; and the clock and a cut change nothing that lasts.
pub fn what_is_no_call_keeps_the_facts()
    ensures clock { (by : ℕ) (p : Plain) → IsSound p → IsSound (advance_clock by p) }
    ensures cuts { (k : ℕ) (p : Plain) → IsSound p → IsSound (cut k p) }
    ensures clock_down { (by : ℕ) (p : Plain) → IsFrozen p → IsFrozen (advance_clock by p) }
    ensures cuts_down { (k : ℕ) (p : Plain) → IsFrozen p → IsFrozen (cut k p) }
    ensures fails { (fault : RestartFault) (in_write : Bool) (left : ℕ) (noted : Option Noted) (starts : ℕ) (p : Plain) → IsFrozen p → IsFrozen (failed fault in_write left noted starts p).next }
    ensures rests { (p : Plain) → IsSound p → IsFrozen p }
    ensures lasts { (by k : ℕ) (p : Plain) → (lasting (advance_clock by p) ≡ lasting p) × (lasting (cut k p) ≡ lasting p) }
{}

/// Behind a call of which a write was stopped a restart gives a sound manager, whether it finds the write or not.
pub fn a_restart_behind_a_stopped_call_gives_a_sound_manager()
    ensures { (kept : Bool) (n : ℕ) (parts : List Part) (left started : ℕ) (p : Plain) → IsWrite n parts → AllHarmless parts p → AllKeep IsSound parts p → IsSound p → IsSound (restarted kept started (note_at n parts) (stopped_at n parts left p)) }
{}
