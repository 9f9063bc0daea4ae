//! A receiver's commit, as a change of the network: the facts by which standing rows are the ledger's are kept, and the ledger tells
//! each manager again.
#![tactic(auto)]

ghost use Rattle.std.specs.Prelude.{◌≡◌, ◌+◌, ◌++◌, ◌∷◌, ℕ, Bool, List, [], Ok, Some, filter, slice_get};
ghost use Rattle.mq_message.specs.declared.message.Ident.{Ident};
ghost use Rattle.mq_message.specs.declared.message.Message.{Message};
ghost use Rattle.mq_sync.specs.declared.unit.Unit.{Unit as Luw};
ghost use Rattle.mq_calls.specs.declared.deltas.Did.TheVariants as did;
ghost use Rattle.mq_history.specs.declared.calls.Call.TheVariants as calls;
ghost use Rattle.mq_history.specs.declared.calls.Reply.{Reply};
ghost use Rattle.mq_history.specs.declared.scenario.CableLine.{CableLine};
ghost use Rattle.mq_history.specs.declared.scenario.Scenario.{Scenario};
ghost use Rattle.mq_history.specs.Scenarios.{IsScenario};
ghost use Rattle.mq_spec_network.specs.Story.{Mem};
ghost use Rattle.mq_calls.specs.State.{Change, Plain};
ghost use Rattle.mq_calls.specs.Changes.{apply_all};
ghost use Rattle.mq_calls.specs.Steps.{do_part};
ghost use Rattle.mq_spec_manager.specs.Stops.{lasts};
ghost use Rattle.mq_spec_manager.specs.Receiving.{Landed, landed, received_part, received_record, taken_of};
ghost use Rattle.mq_spec_network.specs.Ledger as ledgers;
ghost use Rattle.mq_spec_network.specs.Ledger.{Ledger, at_moment, post_call, take_all_gone, up_again};
ghost use Rattle.mq_law_manager.specs.Facts.{IsSound};
ghost use Rattle.mq_law_events.specs.from_law_rows.World.{Ghost, Inv};
ghost use Rattle.mq_law_events.specs.from_law_seen.Seen.{book_of, world_of};
ghost use Rattle.mq_law_events.specs.Tied.{IsNext};
ghost use Rattle.mq_law_receipts.specs.Receipts.{AreNumberedUpto, AreNextNumbers, Comes, IsAwaitedAt, IsCabled, IsReceipt, IsShadow, Receipt};

/// A unit's messages land at its receiver, all of them, and the ledger's entry of that turn is posted.
pub fn a_receivers_commit_keeps_the_facts()
    ensures { (s : Scenario) (given : Ident → Bool) (ps qs : List Plain) (p : Plain) (l : Ledger) (g : Ghost) (m t : ℕ) (c : List ℕ) (u : Luw) (last : ℕ) (ms : List Message) (x : Landed) (reply : Reply) → landed c ms p ≡ Ok x
        → IsNext t p (do_part (received_part c u last x p) p) ps qs → IsReceipt s given ps p l g m t c u ms → Inv (world_of s given ps) g (book_of l)
        → (taken_of (landed c ms p) ≡ ms)
        × Receipt s given qs (do_part (received_part c u last x p) p) l (post_call t calls.Turn reply ms (received_part c u last x p).delta (take_all_gone t (received_part c u last x p).delta l)) g m t c u }
{}

/// Connections have numbers of their own, up to the last that was given, under all changes of which one that begins has the next number.
pub fn connections_keep_their_numbers()
    ensures { (cs : List Change) (p : Plain) → AreNextNumbers cs p → AreNumberedUpto p → AreNumberedUpto (apply_all cs p) }
{}

/// Each cable of a scenario leads from its sender to its receiver, and no other of its channel's name does, where a manager's number is
/// its place and one.
pub fn cables_lead_where_they_say()
    ensures { (s : Scenario) (ps : List Plain) (k : CableLine) (sender : Plain) → IsScenario s → Mem k s.cables → ((a : ℕ) (x : Plain) → slice_get ps a ≡ Some x → x.given.number ≡ a + 1) → slice_get ps k.sender ≡ Some sender
        → IsCabled s ps k.sender k.receiver k.channel }
{}

/// So it is where a restart finds a commit whose write was stopped: the manager has lost rows since, and other managers went on. What the
/// messages land by is the manager as it was.
pub fn a_found_commit_keeps_the_facts()
    ensures { (s : Scenario) (given : Ident → Bool) (ps qs : List Plain) (b p : Plain) (l : Ledger) (g : Ghost) (m t : ℕ) (c : List ℕ) (u : Luw) (last : ℕ) (ms : List Message) (x : Landed) (reply : Reply) → landed c ms b ≡ Ok x → IsSound b → IsShadow b p → ((y : Message) → Mem y ms → Comes b y)
        → IsNext t p (do_part (received_part c u last x p) p) ps qs → IsAwaitedAt s given ps p l g m t c u ms → Inv (world_of s given ps) g (book_of l)
        → Receipt s given qs (do_part (received_part c u last x p) p) l (post_call t calls.Turn reply ms (received_part c u last x p).delta (take_all_gone t (received_part c u last x p).delta l)) g m t c u }
{}

/// The restart tells less than the commit: of a message that does not last, not where it was placed. Behind it the ledger has the same, since
/// such a message is lost with its manager.
pub fn what_a_found_commit_tells_is_enough()
    ensures { (s : Scenario) (given : Ident → Bool) (ps : List Plain) (b p q : Plain) (l : Ledger) (g : Ghost) (m t now : ℕ) (c : List ℕ) (u : Luw) (last : ℕ) (ms : List Message) (x : Landed) → landed c ms b ≡ Ok x → IsSound b → IsShadow b p → ((y : Message) → Mem y ms → Comes b y)
        → slice_get ps t ≡ Some p → IsAwaitedAt s given ps p l g m t c u ms → Inv (world_of s given ps) g (book_of l)
        → book_of (up_again t (at_moment t now (ledgers.receive t c ms (x.delta ++ did.Received c u ∷ []) l)))
        ≡ book_of (up_again t (at_moment t now (ledgers.receive t c ms (filter (lasts (received_record c u last x) q) (x.delta ++ did.Received c u ∷ [])) l))) }
{}
