//! A call whose write was stopped, and that a restart finds: what the restart does is followed by what the ledger posts of the call,
//! and the manager is sound behind it.
#![tactic(auto)]

ghost use Rattle.std.specs.Prelude.{◌≡◌, ℕ, Bool, List, Option, None, Ok};
ghost use Rattle.mq_message.specs.declared.message.Dest.{Dest};
ghost use Rattle.mq_message.specs.declared.message.Md.{Md};
ghost use Rattle.mq_queue.specs.declared.row.Row.{Row};
ghost use Rattle.mq_resolve.specs.declared.route.Route.{Route};
ghost use Rattle.mq_resolve.specs.Resolved.{resolve};
ghost use Rattle.mq_objects.specs.declared.command.Command.{Command};
ghost use Rattle.mq_calls.specs.declared.answers.Get.{Get};
ghost use Rattle.mq_calls.specs.declared.answers.Hconn.{Hconn};
ghost use Rattle.mq_calls.specs.declared.answers.Hobj.{Hobj};
ghost use Rattle.mq_calls.specs.declared.deltas.Why.TheVariants as whys;
ghost use Rattle.mq_history.specs.declared.acts.Act.TheVariants as acts;
ghost use Rattle.mq_history.specs.declared.calls.Call.TheVariants as calls;
ghost use Rattle.mq_sc_parse.specs.declared.command.Command.TheVariants as lines;
ghost use Rattle.mq_calls.specs.State.{Plain};
ghost use Rattle.mq_calls.specs.Reads.{stored};
ghost use Rattle.mq_calls.specs.Steps.{do_part};
ghost use Rattle.mq_spec_manager.specs.Commands.{command};
ghost use Rattle.mq_spec_manager.specs.Get.{mqget, removal_part};
ghost use Rattle.mq_spec_manager.specs.Put.{mqput, mqput1};
ghost use Rattle.mq_spec_manager.specs.Units.{mqcmit, mqdisc};
ghost use Rattle.mq_spec_manager.specs.Landing.{landing};
ghost use Rattle.mq_spec_manager.specs.Moves.{bare_if, move_part};
ghost use Rattle.mq_spec_network.specs.Story.{Mem};
ghost use Rattle.mq_law_events.specs.from_law_rows.World.{ident_of};
ghost use Rattle.mq_law_manager.specs.Facts.{Differ, IsSound};
ghost use Rattle.mq_law_manager.specs.Kept.{StepKeeps};
ghost use Rattle.mq_law_found.specs.Finds.{PartNotes, StepNotes};

/// Whichever write of such a call of a sound manager is stopped: a restart that finds it does what the ledger posts of the call.
pub fn found_calls_follow()
    ensures puts { (m : ℕ) (p : Plain) (hc : Hconn) (ho : Hobj) (md : Md) (body : List ℕ) (sync : Bool) → IsSound p → StepKeeps IsSound (mqput hc ho md body sync p) p → StepNotes m (calls.Mqput hc ho md body sync) p (mqput hc ho md body sync p) }
    ensures puts_once { (m : ℕ) (p : Plain) (hc : Hconn) (name qmgr : List ℕ) (md : Md) (body : List ℕ) (sync : Bool) → IsSound p → StepKeeps IsSound (mqput1 hc name qmgr md body sync p) p
        → StepNotes m (calls.Mqput1 hc name qmgr md body sync) p (mqput1 hc name qmgr md body sync p) }
    ensures gets { (m : ℕ) (p : Plain) (hc : Hconn) (ho : Hobj) (get : Get) (until : Option ℕ) → IsSound p → StepKeeps IsSound (mqget hc ho get until p) p → StepNotes m (calls.Mqget hc ho get until) p (mqget hc ho get until p) }
    ensures commits { (m : ℕ) (p : Plain) (hc : Hconn) → IsSound p → StepKeeps IsSound (mqcmit hc p) p → StepNotes m (calls.Mqcmit hc) p (mqcmit hc p) }
    ensures disconnects { (m : ℕ) (p : Plain) (hc : Hconn) → IsSound p → StepKeeps IsSound (mqdisc hc p) p → StepNotes m (calls.Mqdisc hc) p (mqdisc hc p) }
    ensures commands { (m : ℕ) (p : Plain) (c : Command) → IsSound p → StepNotes m (calls.Act (acts.Obey (lines.Objects c))) p (command c p) }
{}

/// So it is with the removal of free rows, and the move of a free row, by a rule.
pub fn found_turns_follow()
    ensures discards { (m moment : ℕ) (p : Plain) (q : List ℕ) (xs : List Row) → IsSound p → ((x : Row) → Mem x xs → Mem x (stored q p).rows) → ((x : Row) → Mem x xs → x.by ≡ None) → Differ ident_of xs
        → IsSound (do_part (removal_part whys.Discarded q xs) p) → PartNotes m calls.Turn moment p (removal_part whys.Discarded q xs) }
    ensures moves { (m moment : ℕ) (p : Plain) (from : List ℕ) (x : Row) (to : Dest) (bare : Bool) (route : Route) → IsSound p → Mem x (stored from p).rows → x.by ≡ None → resolve p.definitions p.given.name to.queue to.qmgr ≡ Ok route
        → IsSound (do_part (move_part from to bare (landing route (bare_if bare x.message))) p) → PartNotes m calls.Turn moment p (move_part from to bare (landing route (bare_if bare x.message))) }
{}
