//! What stands in a manager's rows, units and batches: one record of facts, `Sound`, that each call keeps.
#![tactic(auto)]

ghost use Rattle.std.specs.Prelude.{◌≡◌, ℕ, Bool, false, List, Option, Some};
ghost use Rattle.mq_message.specs.declared.message.Dest.{Dest};
ghost use Rattle.mq_message.specs.declared.message.Ident.{Ident};
ghost use Rattle.mq_message.specs.declared.message.Md.{Md};
ghost use Rattle.mq_message.specs.declared.message.Message.{Message};
ghost use Rattle.mq_queue.specs.Queues.{IsQueue, Lacks};
ghost use Rattle.mq_queue.specs.declared.row.Row.{Row};
ghost use Rattle.mq_message.specs.declared.place.Holder.TheVariants as holders;
ghost use Rattle.mq_calls.specs.declared.records.Add.{Add};
ghost use Rattle.mq_sync.specs.declared.unit.Unit.{Unit as Luw};
ghost use Rattle.mq_calls.specs.declared.agents.Note.{Note};
ghost use Rattle.mq_calls.specs.declared.answers.Appl.{Appl};
ghost use Rattle.mq_calls.specs.declared.answers.Get.{Get};
ghost use Rattle.mq_calls.specs.declared.answers.Hconn.{Hconn};
ghost use Rattle.mq_calls.specs.declared.answers.Hobj.{Hobj};
ghost use Rattle.mq_calls.specs.declared.answers.Open.{Open};
ghost use Rattle.mq_calls.specs.State.{Change, Given, Noted, Plain};
ghost use Rattle.mq_calls.specs.Reads.{is_persistent, stored};
ghost use Rattle.mq_calls.specs.Changes.{apply, apply_all};
ghost use Rattle.mq_calls.specs.Steps.{Step, after};
ghost use Rattle.mq_calls.specs.declared.choices.Choice.{Choice};
ghost use Rattle.mq_spec_manager.specs.Handles.{mqclose, mqconn, mqopen};
ghost use Rattle.mq_spec_manager.specs.Put.{mqput, mqput1, next_ident};
ghost use Rattle.mq_spec_manager.specs.Get.{mqget};
ghost use Rattle.mq_spec_manager.specs.Units.{mqback, mqcmit, mqdisc};
ghost use Rattle.mq_calls.specs.declared.image.Image.{Image};
ghost use Rattle.mq_calls.specs.Recovery.{AreKnown, IsImage};
ghost use Rattle.mq_spec_manager.specs.Stops.{first_start, restarted, stop};
ghost use Rattle.mq_spec_manager.specs.Commands.{command};
ghost use Rattle.mq_objects.specs.declared.command.Command.{Command};
ghost use Rattle.mq_spec_manager.specs.Triggers.{trigger_turn};
ghost use Rattle.mq_spec_manager.specs.Agents.{CanHarden, CanHold, CanMove, HasFreeRow, discard, expire, harden, hold_batch, leave, move_row, prepare, receive, release_batch, seize, set_bound};
ghost use Rattle.mq_law_manager.specs.View.{Taken, view};
ghost use Rattle.mq_law_manager.specs.Facts.{IsFrozen, IsHeld, IsSound, Mem};
ghost use Rattle.mq_law_manager.specs.Seen.{AsksNothing, seen};
ghost use Rattle.mq_law_manager.specs.Kept.{IsAfter, StepKeeps};

/// Each change does to the view of a manager what is said of it.
pub fn changes_are_seen()
    ensures { (c : Change) (p : Plain) → AsksNothing c → view (apply c p) ≡ seen c p (view p) }
{}

/// Each queue of a sound manager is one as its rows are kept: in order of place, each ident at most once.
pub fn queues_are_queues()
    ensures { (name : List ℕ) (p : Plain) → IsSound p → IsQueue (stored name p).rows (stored name p).arrivals }
{}

/// What is placed next, and what waits for the end of its unit, is on no queue; a unit's gets are the rows that it holds.
pub fn what_is_placed_is_new()
    ensures next { (name : List ℕ) (p : Plain) → IsSound p → Lacks (next_ident p) (stored name p).rows }
    ensures waits { (name : List ℕ) (n : ℕ) (a : Add) (p : Plain) → IsSound p → Mem a ((view p).puts n) → Lacks a.message.ident (stored name p).rows }
    ensures taken { (n : ℕ) (t : Taken) (p : Plain) → IsSound p → Mem t ((view p).takes n) → IsHeld (stored t.queue p).rows n t.ident t.persistent }
    ensures held { (name : List ℕ) (r : Row) (n : ℕ) (p : Plain) → IsSound p → Mem r (stored name p).rows → r.by ≡ Some (holders.Unit n) → Mem (record { queue = name; ident = r.message.ident; persistent = is_persistent r.message }) ((view p).takes n) }
{}

/// A call that keeps the facts leaves them however it ends, and what is left of them where a write of its was stopped.
pub fn calls_end_with_the_facts<F, T>()
    ensures { (s : Step F T) (choice : Choice) (p : Plain) → IsSound p → StepKeeps IsSound s p → IsAfter choice (after s choice p).next }
{}

/// Calls of applications keep the facts.
pub fn applications_keep_the_facts()
    ensures connects { (qmgr : List ℕ) (appl : Appl) (p : Plain) → IsSound p → StepKeeps IsSound (mqconn qmgr appl p) p }
    ensures opens { (hc : Hconn) (name qmgr : List ℕ) (how : Open) (p : Plain) → IsSound p → StepKeeps IsSound (mqopen hc name qmgr how p) p }
    ensures closes { (hc : Hconn) (ho : Hobj) (p : Plain) → IsSound p → StepKeeps IsSound (mqclose hc ho p) p }
    ensures puts { (hc : Hconn) (ho : Hobj) (md : Md) (body : List ℕ) (sync : Bool) (p : Plain) → IsSound p → StepKeeps IsSound (mqput hc ho md body sync p) p }
    ensures puts_once { (hc : Hconn) (name qmgr : List ℕ) (md : Md) (body : List ℕ) (sync : Bool) (p : Plain) → IsSound p → StepKeeps IsSound (mqput1 hc name qmgr md body sync p) p }
    ensures gets { (hc : Hconn) (ho : Hobj) (g : Get) (until : Option ℕ) (p : Plain) → IsSound p → StepKeeps IsSound (mqget hc ho g until p) p }
    ensures commits { (hc : Hconn) (p : Plain) → IsSound p → StepKeeps IsSound (mqcmit hc p) p }
    ensures backs_out { (hc : Hconn) (p : Plain) → IsSound p → StepKeeps IsSound (mqback hc p) p }
    ensures disconnects { (hc : Hconn) (p : Plain) → IsSound p → StepKeeps IsSound (mqdisc hc p) p }
{}

/// So do triggers, the handler, and the ends of channels but for what a receiver's end commits.
pub fn agents_keep_the_facts()
    ensures triggers { (p : Plain) → IsSound p → StepKeeps IsSound (trigger_turn p) p }
    ensures seizes { (channel : List ℕ) (p : Plain) → IsSound p → StepKeeps IsSound (seize channel p) p }
    ensures leaves { (channel : List ℕ) (p : Plain) → IsSound p → StepKeeps IsSound (leave channel p) p }
    ensures binds { (channel : List ℕ) (bound : Bool) (p : Plain) → IsSound p → StepKeeps IsSound (set_bound channel bound p) p }
    ensures expires { (channel : List ℕ) (p : Plain) → IsSound p → StepKeeps IsSound (expire channel p) p }
    ensures holds { (channel : List ℕ) (unit : Luw) (most : ℕ) (p : Plain) → CanHold channel p → IsSound p → StepKeeps IsSound (hold_batch channel unit most p) p }
    ensures releases { (channel : List ℕ) (p : Plain) → IsSound p → StepKeeps IsSound (release_batch channel p) p }
    ensures prepares { (channel : List ℕ) (last : ℕ) (p : Plain) → IsSound p → StepKeeps IsSound (prepare channel last p) p }
    ensures hardens { (channel : List ℕ) (note : Note) (p : Plain) → CanHarden channel note p → IsSound p → StepKeeps IsSound (harden channel note p) p }
    ensures moves { (from : List ℕ) (ident : Ident) (to : Dest) (bare : Bool) (p : Plain) → CanMove from ident bare p → IsSound p → StepKeeps IsSound (move_row from ident to bare p) p }
    ensures discards { (queue : List ℕ) (ident : Ident) (p : Plain) → HasFreeRow queue ident p → IsSound p → StepKeeps IsSound (discard queue ident p) p }
{}

/// And what a receiver's end commits.
pub fn receivers_keep_the_facts()
    ensures { (channel : List ℕ) (unit : Luw) (last : ℕ) (batch : List Message) (p : Plain) → IsSound p → StepKeeps IsSound (receive channel unit last batch p) p }
{}

/// So do commands on objects, there.
pub fn commands_keep_the_facts()
    ensures { (c : Command) (p : Plain) → IsSound p → StepKeeps IsSound (command c p) p }
{}

/// A manager begins with them, where recovery gave an image.
pub fn a_manager_begins_with_the_facts()
    ensures { (given : Given) (image : Image) (length moment : ℕ) → IsImage image → AreKnown given.number image → IsSound (first_start given image length moment) }
{}

/// And a stop.
pub fn a_stop_keeps_the_facts()
    ensures { (p : Plain) → IsSound p → IsSound (stop p).next }
{}

/// And a restart where the stopped write, if any, isn't found.
pub fn a_restart_gives_the_facts()
    ensures { (started : ℕ) (noted : Option Noted) (p : Plain) → IsFrozen p → IsSound (restarted false started noted p) }
{}
