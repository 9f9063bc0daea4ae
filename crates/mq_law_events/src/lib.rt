//! The events of one manager as changes of what the laws see of it: each keeps the facts by which the rows that stand are the
//! ledger's, and the ledger tells the manager again after it.
//!
//! `Leads` is a change of what one manager has that keeps the facts, whatever the other managers have; `Follow` is such a change
//! from a manager and a ledger to another, with all that the next event needs. Each call is shown to be one.
#![tactic(auto)]

ghost use Rattle.std.specs.Prelude.{◌≡◌, ◌++◌, ◌∷◌, ℕ, Bool, true, false, List, [], Option, Some, None, Ok};
ghost use Rattle.mq_message.specs.declared.message.Ident.{Ident};
ghost use Rattle.mq_message.specs.declared.message.Md.{Md};
ghost use Rattle.mq_message.specs.declared.message.Message.{Message};
ghost use Rattle.mq_queue.specs.declared.row.Row.{Row};
ghost use Rattle.mq_calls.specs.declared.answers.Appl.{Appl};
ghost use Rattle.mq_calls.specs.declared.answers.Get.{Get};
ghost use Rattle.mq_calls.specs.declared.answers.Hconn.{Hconn};
ghost use Rattle.mq_calls.specs.declared.answers.Hobj.{Hobj};
ghost use Rattle.mq_calls.specs.declared.answers.Open.{Open};
ghost use Rattle.mq_calls.specs.declared.state.Item.{Item};
ghost use Rattle.mq_calls.specs.declared.state.Item.TheVariants.{Put, Take};
ghost use Rattle.mq_law_seen.specs.from_history.ReplyVariants as replies;
ghost use Rattle.mq_law_seen.specs.from_history.{Scenario};
ghost use Rattle.mq_objects.specs.declared.command.Command.{Command};
ghost use Rattle.mq_spec_manager.specs.from_sc_apply.{ThePlanned as Planned};
ghost use Rattle.mq_spec_manager.specs.from_sc_apply.PlanVariants as plans;
ghost use Rattle.mq_spec_manager.specs.from_sc_apply.Commands.{plan};
ghost use Rattle.mq_law_seen.specs.from_sc_parse.CommandVariants as lines;
ghost use Rattle.mq_calls.specs.State.{LogState, Noted, Plain, Running};
ghost use Rattle.mq_calls.specs.State.Change.{ChangeObjects, Leave};
ghost use Rattle.mq_calls.specs.Changes.{apply_all};
ghost use Rattle.mq_calls.specs.Images.{begun, lasting, raised};
ghost use Rattle.mq_calls.specs.Steps.{Part, Step, do_part, freeze};
ghost use Rattle.mq_calls.specs.Steps.Step.{Do};
ghost use Rattle.mq_objects.specs.declared.object.LocalQueue.{LocalQueue};
ghost use Rattle.mq_objects.specs.Names.{local_of, process_of};
ghost use Rattle.mq_calls.specs.Reads.{stored};
ghost use Rattle.mq_law_seen.specs.from_spec_network.Story.{Mem};
ghost use Rattle.mq_spec_manager.specs.Triggers.{serve_by};
ghost use Rattle.mq_message.specs.declared.message.Dest.{Dest};
ghost use Rattle.mq_resolve.specs.declared.route.Route.{Route};
ghost use Rattle.mq_resolve.specs.Resolved.{resolve};
ghost use Rattle.mq_calls.specs.State.Which.{Among};
ghost use Rattle.mq_spec_manager.specs.Landing.{landing};
ghost use Rattle.mq_spec_manager.specs.Moves.{bare_if, discard};
ghost use Rattle.mq_spec_manager.specs.Commands.{command, follows, uses_of};
ghost use Rattle.mq_spec_manager.specs.Handles.{mqclose, mqconn, mqopen};
ghost use Rattle.mq_spec_manager.specs.Put.{mqput, mqput1, placed, queue_at};
ghost use Rattle.mq_spec_manager.specs.Get.{mqget};
ghost use Rattle.mq_spec_manager.specs.Units.{mqback, mqcmit, mqdisc};
ghost use Rattle.mq_spec_manager.specs.Stops.{at_rest};
ghost use Rattle.mq_law_seen.specs.from_spec_network.Ledger as ledgers;
ghost use Rattle.mq_law_seen.specs.from_spec_network.Ledger.{Ledger, close_if, connect_if, is_ended, open_if, sent_ident, when};
ghost use Rattle.mq_law_seen.specs.from_law_rows.World.{Book, Ghost, Inv, World};
ghost use Rattle.mq_law_seen.specs.from_law_rows.Kinds.{after};
ghost use Rattle.mq_law_seen.specs.Seen.{book_of, world_of};
ghost use Rattle.mq_law_manager.specs.Facts.{AreDefined, IsSound};
ghost use Rattle.mq_law_events.specs.Local.{Moved};
ghost use Rattle.mq_law_events.specs.Rests.{back_out_all, book_out_all, rested};
ghost use Rattle.mq_law_events.specs.Tied.{Follow, IsFresh, IsNext, IsTold};
ghost use Rattle.mq_law_events.specs.Posting.{IsListed, IsTimed, StepFollows, StopFollows, post_get};

/// Where all units of a manager are backed out at once, the facts are kept.
pub fn a_stop_of_units_keeps_the_facts()
    ensures { (w : World) (g : Ghost) (b : Book) (m : ℕ) (back : Bool) → Inv w g b → Inv (back_out_all w m back) (after g (rested m)) (book_out_all b m) }
{}

/// Where one manager and the ledger follow, the facts of the whole network are kept.
pub fn the_network_follows_its_manager()
    ensures { (s : Scenario) (given : Ident → Bool) (m : ℕ) (p q : Plain) (ps qs : List Plain) (l k : Ledger) (g : Ghost) → IsNext m p q ps qs → IsTold m p l → (f : Follow m given p l q k)
        → Inv (world_of s given ps) g (book_of l) → Moved g (world_of s f.now qs) (book_of k) }
{}

/// Each call of an application that runs: the ledger follows by the call's reply.
pub fn calls_of_applications_follow()
    ensures connects { (m : ℕ) (given : Ident → Bool) (p : Plain) (l : Ledger) (qmgr : List ℕ) (appl : Appl) → IsFresh given p → IsTold m p l
        → StepFollows m given p l (λ reply ds k. connect_if m appl (replies.Connected reply) k) (mqconn qmgr appl p) }
    ensures opens { (m : ℕ) (given : Ident → Bool) (p : Plain) (l : Ledger) (hc : Hconn) (name qmgr : List ℕ) (how : Open) → IsFresh given p → IsTold m p l
        → StepFollows m given p l (λ reply ds k. open_if m hc name qmgr how (replies.Opened reply) k) (mqopen hc name qmgr how p) }
    ensures closes { (m : ℕ) (given : Ident → Bool) (p : Plain) (l : Ledger) (hc : Hconn) (ho : Hobj) → IsFresh given p → IsTold m p l
        → StepFollows m given p l (λ reply ds k. close_if m hc ho (replies.Ended reply) k) (mqclose hc ho p) }
    ensures puts { (m : ℕ) (given : Ident → Bool) (p : Plain) (l : Ledger) (hc : Hconn) (ho : Hobj) (md : Md) (body : List ℕ) (sync : Bool) → IsFresh given p → IsTold m p l → IsTimed m p l
        → StepFollows m given p l (λ reply ds k. ledgers.put sync m hc ho (ledgers.connection_of m hc k) (sent_ident (replies.Put reply) ds) md body k) (mqput hc ho md body sync p) }
    ensures puts_once { (m : ℕ) (given : Ident → Bool) (p : Plain) (l : Ledger) (hc : Hconn) (name qmgr : List ℕ) (md : Md) (body : List ℕ) (sync : Bool) → IsFresh given p → IsTold m p l → IsTimed m p l
        → StepFollows m given p l (λ reply ds k. ledgers.put1 sync m hc name qmgr (ledgers.connection_of m hc k) (sent_ident (replies.Put reply) ds) md body k) (mqput1 hc name qmgr md body sync p) }
    ensures gets { (m : ℕ) (given : Ident → Bool) (p : Plain) (l : Ledger) (hc : Hconn) (ho : Hobj) (get : Get) (until : Option ℕ) → IsFresh given p → IsTold m p l → IsSound p
        → StepFollows m given p l (post_get m hc get) (mqget hc ho get until p) }
    ensures commits { (m : ℕ) (given : Ident → Bool) (p : Plain) (l : Ledger) (hc : Hconn) → IsFresh given p → IsTold m p l → IsSound p
        → StepFollows m given p l (λ reply ds k. when (is_ended (replies.Ended reply)) (ledgers.commit m hc) k) (mqcmit hc p) }
    ensures backs_out { (m : ℕ) (given : Ident → Bool) (p : Plain) (l : Ledger) (hc : Hconn) → IsFresh given p → IsTold m p l → IsSound p
        → StepFollows m given p l (λ reply ds k. when (is_ended (replies.Ended reply)) (ledgers.back_out m hc) k) (mqback hc p) }
    ensures disconnects { (m : ℕ) (given : Ident → Bool) (p : Plain) (l : Ledger) (hc : Hconn) → IsFresh given p → IsTold m p l → IsSound p
        → StepFollows m given p l (λ reply ds k. when (is_ended (replies.Ended reply)) (λ x. ledgers.disconnect m hc (ledgers.commit m hc x)) k) (mqdisc hc p) }
{}

/// So do calls whose write is stopped: what they removed before is gone, the manager freezes, and what is not persistent is lost.
pub fn stopped_calls_follow()
    ensures puts { (m : ℕ) (given : Ident → Bool) (p : Plain) (l : Ledger) (hc : Hconn) (ho : Hobj) (md : Md) (body : List ℕ) (sync : Bool) → IsFresh given p → IsTold m p l → StopFollows m given p l (mqput hc ho md body sync p) }
    ensures puts_once { (m : ℕ) (given : Ident → Bool) (p : Plain) (l : Ledger) (hc : Hconn) (name qmgr : List ℕ) (md : Md) (body : List ℕ) (sync : Bool) → IsFresh given p → IsTold m p l → StopFollows m given p l (mqput1 hc name qmgr md body sync p) }
    ensures gets { (m : ℕ) (given : Ident → Bool) (p : Plain) (l : Ledger) (hc : Hconn) (ho : Hobj) (get : Get) (until : Option ℕ) → IsFresh given p → IsTold m p l → IsSound p → StopFollows m given p l (mqget hc ho get until p) }
    ensures commits { (m : ℕ) (given : Ident → Bool) (p : Plain) (l : Ledger) (hc : Hconn) → IsFresh given p → IsTold m p l → StopFollows m given p l (mqcmit hc p) }
    ensures disconnects { (m : ℕ) (given : Ident → Bool) (p : Plain) (l : Ledger) (hc : Hconn) → IsFresh given p → IsTold m p l → StopFollows m given p l (mqdisc hc p) }
    ensures commands { (m : ℕ) (given : Ident → Bool) (p : Plain) (l : Ledger) (c : Command) → IsFresh given p → IsTold m p l → StopFollows m given p l (command c p) }
{}

/// So do a trigger turn that serves a queue, the removal of the rows of an ident, each of them free, and the move of a free row by a rule.
pub fn turns_follow()
    ensures triggers { (m : ℕ) (given : Ident → Bool) (p : Plain) (l : Ledger) (q : LocalQueue) → IsFresh given p → IsTold m p l → IsTimed m p l
        → Follow m given p l (do_part (serve_by q (process_of q.process p.definitions) (local_of q.initiation_queue p.definitions) p) p)
        (ledgers.trigger_for m (ledgers.first_placed (serve_by q (process_of q.process p.definitions) (local_of q.initiation_queue p.definitions) p).delta) (Some q) l) }
    ensures discards { (m : ℕ) (given : Ident → Bool) (p : Plain) (l : Ledger) (q : List ℕ) (i : Ident) → IsFresh given p → IsTold m p l → IsSound p
        → ((x : Row) → Mem x (stored q p).rows → x.message.ident ≡ i → x.by ≡ None)
        → StepFollows m given p l (λ reply ds k. k) (discard q i p) }
    ensures moves { (m : ℕ) (given : Ident → Bool) (p : Plain) (l : Ledger) (from : List ℕ) (x : Row) (to : Dest) (bare : Bool) (route : Route) → IsFresh given p → IsTold m p l
        → Mem x (stored from p).rows → x.by ≡ None → resolve p.definitions p.given.name to.queue to.qmgr ≡ Ok route
        → Follow m given p l (do_part (record { forced = None; changes = Leave (Among from ((landing route (bare_if bare x.message)).message.ident ∷ [])) ∷ placed (queue_at route.end) (landing route (bare_if bare x.message)).message; delta = [] }) p)
        (ledgers.move_row m to bare (ledgers.row_in x.message.ident (ledgers.places_at m l).queues) l) }
{}

/// So do an accepted command on objects, a stop, a write that is stopped, and a restart, where no batch is held.
pub fn commands_stops_and_restarts_follow()
    ensures commands { (m : ℕ) (given : Ident → Bool) (p : Plain) (l : Ledger) (c : Command) (planned : Planned) → IsFresh given p → IsTold m p l → AreDefined p
        → plan c p.given.name p.definitions (uses_of p) ≡ Ok (plans.Change planned)
        → Follow m given p l (apply_all (ChangeObjects planned.change ∷ follows planned.change planned p.definitions) p) (ledgers.obey m (lines.Objects c) l) }
    ensures stops { (m : ℕ) (given : Ident → Bool) (p : Plain) (l : Ledger) (running : Running) → IsFresh given p → IsTold m p l → p.channels.batches ≡ []
        → Follow m given p l (record (at_rest p) { running = running }) (ledgers.stop m l) }
    ensures freezes { (m : ℕ) (given : Ident → Bool) (p : Plain) (l : Ledger) (note : Option Noted) (left : ℕ) → IsFresh given p → IsTold m p l → Follow m given p l (freeze note left p) (ledgers.lose m l) }
    ensures restarts { (m : ℕ) (given : Ident → Bool) (p : Plain) (l : Ledger) (started : ℕ) (log : LogState) → IsFresh given p → IsTold m p l → p.channels.batches ≡ []
        → Follow m given p l (begun p.given (raised started (lasting p)) log p.moment) (ledgers.stop m l) }
{}
