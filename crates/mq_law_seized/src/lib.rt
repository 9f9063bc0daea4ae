//! The transmission queues that running senders have open at one manager stay theirs alone.
#![tactic(auto)]

ghost use Rattle.std.specs.Prelude.{◌≡◌, ℕ, Bool, List, [], Option, true};
ghost use Rattle.mq_message.specs.declared.message.Dest.{Dest};
ghost use Rattle.mq_message.specs.declared.message.Ident.{Ident};
ghost use Rattle.mq_message.specs.declared.message.Md.{Md};
ghost use Rattle.mq_message.specs.declared.message.Message.{Message};
ghost use Rattle.mq_objects.specs.declared.command.Command.{Command};
ghost use Rattle.mq_sync.specs.declared.unit.Unit.{Unit as Luw};
ghost use Rattle.mq_calls.specs.declared.agents.Note.{Note};
ghost use Rattle.mq_calls.specs.declared.answers.Appl.{Appl};
ghost use Rattle.mq_calls.specs.declared.answers.Get.{Get};
ghost use Rattle.mq_calls.specs.declared.answers.Hconn.{Hconn};
ghost use Rattle.mq_calls.specs.declared.answers.Hobj.{Hobj};
ghost use Rattle.mq_calls.specs.declared.answers.Open.{Open};
ghost use Rattle.mq_calls.specs.State.{Change, Plain};
ghost use Rattle.mq_calls.specs.Changes.{apply};
ghost use Rattle.mq_spec_manager.specs.Handles.{mqclose, mqconn, mqopen};
ghost use Rattle.mq_spec_manager.specs.Put.{mqput, mqput1};
ghost use Rattle.mq_spec_manager.specs.Get.{mqget};
ghost use Rattle.mq_spec_manager.specs.Units.{mqback, mqcmit, mqdisc};
ghost use Rattle.mq_spec_manager.specs.Commands.{command};
ghost use Rattle.mq_spec_manager.specs.Triggers.{trigger_turn};
ghost use Rattle.mq_spec_manager.specs.Agents.{CanHold, discard, expire, harden, hold_batch, leave, move_row, prepare, receive, release_batch, seize, set_bound};
ghost use Rattle.mq_law_manager.specs.Facts.{IsSound};
ghost use Rattle.mq_law_manager.specs.Kept.{StepKeeps};
ghost use Rattle.mq_law_seized.specs.Seized.{AreSeized, is_plain};

/// A change that seizes, opens and holds nothing, and changes no definition, leaves seized queues their senders' own.
pub fn plain_changes_leave_seized_queues()
    ensures { (c : Change) (p : Plain) → is_plain c ≡ true → AreSeized p → AreSeized (apply c p) }
{}

/// Calls of applications leave them so: MQOPEN for input refuses such a queue, so MQGET holds no row of it.
pub fn calls_leave_seized_queues()
    ensures connects { (qmgr : List ℕ) (appl : Appl) (p : Plain) → AreSeized p → StepKeeps AreSeized (mqconn qmgr appl p) p }
    ensures opens { (hc : Hconn) (name qmgr : List ℕ) (how : Open) (p : Plain) → AreSeized p → StepKeeps AreSeized (mqopen hc name qmgr how p) p }
    ensures closes { (hc : Hconn) (ho : Hobj) (p : Plain) → AreSeized p → StepKeeps AreSeized (mqclose hc ho p) p }
    ensures puts { (hc : Hconn) (ho : Hobj) (md : Md) (body : List ℕ) (sync : Bool) (p : Plain) → AreSeized p → StepKeeps AreSeized (mqput hc ho md body sync p) p }
    ensures puts_once { (hc : Hconn) (name qmgr : List ℕ) (md : Md) (body : List ℕ) (sync : Bool) (p : Plain) → AreSeized p → StepKeeps AreSeized (mqput1 hc name qmgr md body sync p) p }
    ensures gets { (hc : Hconn) (ho : Hobj) (g : Get) (until : Option ℕ) (p : Plain) → AreSeized p → StepKeeps AreSeized (mqget hc ho g until p) p }
    ensures commits { (hc : Hconn) (p : Plain) → AreSeized p → StepKeeps AreSeized (mqcmit hc p) p }
    ensures backs_out { (hc : Hconn) (p : Plain) → AreSeized p → StepKeeps AreSeized (mqback hc p) p }
    ensures disconnects { (hc : Hconn) (p : Plain) → AreSeized p → StepKeeps AreSeized (mqdisc hc p) p }
{}

/// So do triggers, the handler and the ends of channels; a sender seizes its queue, and holds rows of it for its own batch.
pub fn agents_leave_seized_queues()
    ensures triggers { (p : Plain) → AreSeized p → StepKeeps AreSeized (trigger_turn p) p }
    ensures moves { (from : List ℕ) (ident : Ident) (to : Dest) (bare : Bool) (p : Plain) → AreSeized p → StepKeeps AreSeized (move_row from ident to bare p) p }
    ensures discards { (queue : List ℕ) (ident : Ident) (p : Plain) → AreSeized p → StepKeeps AreSeized (discard queue ident p) p }
    ensures seizes { (channel : List ℕ) (p : Plain) → AreSeized p → StepKeeps AreSeized (seize channel p) p }
    ensures leaves { (channel : List ℕ) (p : Plain) → AreSeized p → StepKeeps AreSeized (leave channel p) p }
    ensures binds { (channel : List ℕ) (bound : Bool) (p : Plain) → AreSeized p → StepKeeps AreSeized (set_bound channel bound p) p }
    ensures expires { (channel : List ℕ) (p : Plain) → AreSeized p → StepKeeps AreSeized (expire channel p) p }
    ensures holds { (channel : List ℕ) (unit : Luw) (most : ℕ) (p : Plain) → CanHold channel p → AreSeized p → StepKeeps AreSeized (hold_batch channel unit most p) p }
    ensures releases { (channel : List ℕ) (p : Plain) → AreSeized p → StepKeeps AreSeized (release_batch channel p) p }
    ensures prepares { (channel : List ℕ) (last : ℕ) (p : Plain) → AreSeized p → StepKeeps AreSeized (prepare channel last p) p }
    ensures hardens { (channel : List ℕ) (note : Note) (p : Plain) → AreSeized p → StepKeeps AreSeized (harden channel note p) p }
    ensures receives { (channel : List ℕ) (unit : Luw) (last : ℕ) (batch : List Message) (p : Plain) → AreSeized p → StepKeeps AreSeized (receive channel unit last batch p) p }
{}

/// So do commands on objects, at a sound manager: USAGE of such a queue stays, and it is not deleted.
pub fn commands_leave_seized_queues()
    ensures { (c : Command) (p : Plain) → IsSound p → AreSeized p → StepKeeps AreSeized (command c p) p }
{}

/// Where none is seized and nobody is connected, they are: as a manager begins, and as a stop leaves it.
pub fn a_manager_begins_with_none_seized()
    ensures { (p : Plain) → p.channels.seizures ≡ [] → p.connections ≡ [] → AreSeized p }
{}
