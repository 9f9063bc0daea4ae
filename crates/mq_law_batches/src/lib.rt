//! What a sender's end asks of its manager on its batch, as changes of the network: rows are held, the batch is released or prepared,
//! the unit in doubt is settled; and a stop and a restart release all batches that are not prepared. The facts by which standing rows
//! are the ledger's are kept.
#![tactic(auto)]

ghost use Rattle.std.specs.Prelude.{◌≡◌, ◌≢◌, ℕ, Bool, true, false, List, None, Some};
ghost use Rattle.mq_message.specs.declared.message.Ident.{Ident};
ghost use Rattle.mq_sync.specs.declared.unit.Unit.{Unit as Luw};
ghost use Rattle.mq_sync.specs.declared.data.InDoubt.{InDoubt};
ghost use Rattle.mq_sync.specs.declared.data.SenderData.{SenderData};
ghost use Rattle.mq_calls.specs.declared.agents.Note.{Note};
ghost use Rattle.mq_history.specs.declared.scenario.Scenario.{Scenario};
ghost use Rattle.mq_calls.specs.State.{LogState, Plain, Running};
ghost use Rattle.mq_calls.specs.declared.state.Batch.{Batch};
ghost use Rattle.mq_calls.specs.declared.state.Seizure.{Seizure};
ghost use Rattle.mq_calls.specs.State.Change.{Seize, SetBound, Unseize};
ghost use Rattle.mq_calls.specs.Reads.{batch_of, in_doubt_of, sender_data};
ghost use Rattle.mq_calls.specs.Changes.{apply, apply_all};
ghost use Rattle.mq_calls.specs.Images.{begun, lasting, raised};
ghost use Rattle.mq_spec_manager.specs.Stops.{at_rest};
ghost use Rattle.mq_spec_manager.specs.Batches.{prepared_changes};
ghost use Rattle.mq_spec_manager.specs.Hardening.{harden_part};
ghost use Rattle.mq_law_events.specs.from_spec_network.Ledger.{Ledger};
ghost use Rattle.mq_law_events.specs.from_law_rows.World.{Book, Ghost, Inv, Tag, standing, tag_idents};
ghost use Rattle.mq_law_events.specs.from_law_rows.Kinds.{Chosen, after, freed, ghost_force, ghost_hold, ghost_take};
ghost use Rattle.mq_law_events.specs.from_law_rows.Ordered.{IsFront};
ghost use Rattle.mq_law_events.specs.from_law_seen.Seen.{book_of, last_of, world_of};
ghost use Rattle.mq_law_events.specs.Tied.{IsFresh, IsNext, IsTold};
ghost use Rattle.mq_law_batches.specs.Releases.{AreUnprepared, IsWord, Rested, held_changes, release_changes, settled_changes};

/// A channel's batch is released, where it has no unit in doubt and the batch is not its receiver's last unit.
pub fn a_released_batch_keeps_the_facts()
    ensures { (s : Scenario) (given : Ident → Bool) (m : ℕ) (p : Plain) (ps qs : List Plain) (c : List ℕ) (g : Ghost) (k : Book) → IsNext m p (apply_all (release_changes c) p) ps qs → in_doubt_of (sender_data c p) ≡ None
        → ((b : Batch) → batch_of c p.channels.batches ≡ Some b → last_of s ps c (Some p) ≢ b.unit) → Inv (world_of s given ps) g k → Inv (world_of s given qs) (after g (freed g m c)) k }
{}

/// Free rows are held as the batch of a channel that has none; where they are the front of their queue, that is known of the unit.
pub fn a_held_batch_keeps_the_facts()
    ensures held { (s : Scenario) (given : Ident → Bool) (m : ℕ) (p : Plain) (ps qs : List Plain) (c : List ℕ) (u : Luw) (q : List ℕ) (ts : List Tag) (g : Ghost) (k : Book) → IsNext m p (apply_all (held_changes c u q (tag_idents ts)) p) ps qs
        → batch_of c p.channels.batches ≡ None → in_doubt_of (sender_data c p) ≡ None → last_of s ps c (Some p) ≢ u → g.operated m c u ≡ false → Chosen (world_of s given ps) m q ts → Inv (world_of s given ps) g k
        → Inv (world_of s given qs) (ghost_hold g m q c u ts) k }
    ensures fronted { (s : Scenario) (given : Ident → Bool) (m : ℕ) (p : Plain) (ps qs : List Plain) (c : List ℕ) (u : Luw) (q : List ℕ) (ts : List Tag) (front : Bool) (g : Ghost) (k : Book) → IsNext m p (apply_all (held_changes c u q (tag_idents ts)) p) ps qs
        → batch_of c p.channels.batches ≡ None → in_doubt_of (sender_data c p) ≡ None → last_of s ps c (Some p) ≢ u → g.operated m c u ≡ false → Chosen (world_of s given ps) m q ts
        → (front ≡ true → IsFront (tag_idents ts) (standing (world_of s given ps) m q)) → Inv (world_of s given ps) g k → Inv (world_of s given qs) (ghost_take g m q c u ts front) k }
{}

/// A batch is prepared. A unit in doubt is settled: dropped, since it is its receiver's last unit; committed by an operator before
/// its receiver has it, so that its rows are in the ledger alone; or backed out before its receiver has it.
pub fn prepared_and_settled_units_keep_the_facts()
    ensures prepared { (s : Scenario) (given : Ident → Bool) (m : ℕ) (p : Plain) (ps qs : List Plain) (c : List ℕ) (last : ℕ) (b : Batch) (x : SenderData) (g : Ghost) (k : Book) → IsNext m p (apply_all (prepared_changes c last b x) p) ps qs
        → batch_of c p.channels.batches ≡ Some b → in_doubt_of (sender_data c p) ≡ None → last_of s ps c (Some p) ≢ b.unit → Inv (world_of s given ps) g k → Inv (world_of s given qs) g k }
    ensures dropped { (s : Scenario) (given : Ident → Bool) (m : ℕ) (p : Plain) (ps qs : List Plain) (c : List ℕ) (x : SenderData) (y : InDoubt) (g : Ghost) (k : Book) → IsNext m p (apply_all (settled_changes true c x) p) ps qs
        → batch_of c p.channels.batches ≡ None → in_doubt_of (sender_data c p) ≡ Some y → last_of s ps c (Some p) ≡ y.unit → Inv (world_of s given ps) g k → Inv (world_of s given qs) g k }
    ensures forced { (s : Scenario) (given : Ident → Bool) (m : ℕ) (p : Plain) (ps qs : List Plain) (c : List ℕ) (x : SenderData) (y : InDoubt) (g : Ghost) (k : Book) → IsNext m p (apply_all (settled_changes true c x) p) ps qs
        → batch_of c p.channels.batches ≡ None → in_doubt_of (sender_data c p) ≡ Some y → last_of s ps c (Some p) ≢ y.unit → Inv (world_of s given ps) g k → Inv (world_of s given qs) (ghost_force g m c y.unit) k }
    ensures backed_out { (s : Scenario) (given : Ident → Bool) (m : ℕ) (p : Plain) (ps qs : List Plain) (c : List ℕ) (x : SenderData) (y : InDoubt) (g : Ghost) (k : Book) → IsNext m p (apply_all (settled_changes false c x) p) ps qs
        → batch_of c p.channels.batches ≡ None → in_doubt_of (sender_data c p) ≡ Some y → last_of s ps c (Some p) ≢ y.unit → Inv (world_of s given ps) g k → Inv (world_of s given qs) (after g (freed g m c)) k }
{}

/// What ends harden beside settlements, and what they have of queues and bonds, leaves the network as the facts see it.
pub fn other_words_of_ends_leave_the_network()
    ensures words { (s : Scenario) (given : Ident → Bool) (m : ℕ) (p : Plain) (ps qs : List Plain) (c : List ℕ) (note : Note) → IsWord note → IsNext m p (apply_all (harden_part c note p).changes p) ps qs → world_of s given qs ≡ world_of s given ps }
    ensures seized { (s : Scenario) (given : Ident → Bool) (m : ℕ) (p : Plain) (ps qs : List Plain) (x : Seizure) → IsNext m p (apply (Seize x) p) ps qs → world_of s given qs ≡ world_of s given ps }
    ensures left { (s : Scenario) (given : Ident → Bool) (m : ℕ) (p : Plain) (ps qs : List Plain) (c : List ℕ) → IsNext m p (apply (Unseize c) p) ps qs → world_of s given qs ≡ world_of s given ps }
    ensures bound { (s : Scenario) (given : Ident → Bool) (m : ℕ) (p : Plain) (ps qs : List Plain) (c : List ℕ) (is : Bool) → IsNext m p (apply (SetBound c is) p) ps qs → world_of s given qs ≡ world_of s given ps }
{}

/// A stop, and a restart from what lasts, release all batches that are not prepared, back out units, and lose what is not
/// persistent; the ledger follows.
pub fn stops_and_restarts_release_batches()
    ensures stops { (s : Scenario) (given : Ident → Bool) (m : ℕ) (p : Plain) (running : Running) (ps qs : List Plain) (l : Ledger) (g : Ghost) → IsNext m p (record (at_rest p) { running = running }) ps qs → IsTold m p l → IsFresh given p
        → AreUnprepared s ps p → Inv (world_of s given ps) g (book_of l) → Rested s given m p (record (at_rest p) { running = running }) qs g l }
    ensures restarts { (s : Scenario) (given : Ident → Bool) (m started : ℕ) (p : Plain) (log : LogState) (ps qs : List Plain) (l : Ledger) (g : Ghost) → IsNext m p (begun p.given (raised started (lasting p)) log p.moment) ps qs → IsTold m p l
        → IsFresh given (begun p.given (raised started (lasting p)) log p.moment) → AreUnprepared s ps p → Inv (world_of s given ps) g (book_of l) → Rested s given m p (begun p.given (raised started (lasting p)) log p.moment) qs g l }
{}
