//! A network and all its channels at once: whatever happens at one manager, all channels are of one mind with the network behind it.
#![tactic(auto)]

ghost use Rattle.std.specs.Prelude.{◌≡◌, ◌+◌, ℕ, Bool, false, List, Option, Some, slice_get};
ghost use Rattle.mq_sync.specs.declared.unit.Unit.{Unit as Luw};
ghost use Rattle.mq_message.specs.declared.message.Ident.{Ident};
ghost use Rattle.mq_history.specs.declared.scenario.CableLine.{CableLine};
ghost use Rattle.mq_history.specs.declared.scenario.Scenario.{Scenario};
ghost use Rattle.mq_history.specs.Scenarios.{IsScenario};
ghost use Rattle.mq_calls.specs.State.{Plain};
ghost use Rattle.mq_spec_network.specs.Ledger.{Ledger};
ghost use Rattle.mq_spec_network.specs.Story.{Mem};
ghost use Rattle.mq_law_channel.specs.Channel.{Channel, Facts, Past};
ghost use Rattle.mq_law_rows.specs.Families.{put_at};
ghost use Rattle.mq_law_rows.specs.World.{Book, Ghost, Inv, World};
ghost use Rattle.mq_law_turns.specs.from_law_seen.Seen.{book_of, world_of};
ghost use Rattle.mq_law_turns.specs.from_law_events.Tied.{Follow, IsNext, IsTold};
ghost use Rattle.mq_law_manager.specs.Facts.{IsSound};
ghost use Rattle.mq_law_turns.specs.from_law_batches.Releases.{AreUnprepared};
ghost use Rattle.mq_law_turns.specs.Turns.{IsAtRest, IsJoint, Scene, Taken, TurnedBy, world_in};
ghost use Rattle.mq_law_cables.specs.Joints.{AreCabled, AreJoint, Begins, Joined, LeadTo, rested};

/// Where the ledger follows a manager, all channels stay tied to the network.
pub fn all_channels_stay_tied()
    ensures each { (w : World) (g : Ghost) (b : Book) (ks : List CableLine) (xs : ℕ → List ℕ → Channel) (ys : ℕ → List ℕ → Past) (k : CableLine) → Mem k ks → AreJoint w g b ks xs ys → IsJoint w g b k.sender k.receiver k.channel (xs k.sender k.channel) (ys k.sender k.channel) }
    ensures follows { (s : Scenario) (given : Ident → Bool) (a : ℕ) (p q : Plain) (ps qs : List Plain) (l k : Ledger) (g : Ghost) (ks : List CableLine) (xs : ℕ → List ℕ → Channel) (ys : ℕ → List ℕ → Past) → IsNext a p q ps qs → IsTold a p l → (f : Follow a given p l q k)
        → AreJoint (world_of s given ps) g (book_of l) ks xs ys → Joined (world_of s f.now qs) (book_of k) ks xs ys }
{}

/// So do they behind a turn of one channel's end, or an operator's command on it, whose own channel takes its step.
pub fn an_ends_turn_leaves_all_channels_tied()
    ensures sender { (o : Option Luw) (z : Scene) (v : World) (x : Channel) (y : Past) (ks : List CableLine) (xs : ℕ → List ℕ → Channel) (ys : ℕ → List ℕ → Past) → TurnedBy o z v x y → LeadTo ks z.sender z.place.channel z.receiver → AreJoint (world_in z) z.ghost z.book ks xs ys
        → Joined v z.book ks (put_at xs z.sender z.place.channel x) (put_at ys z.sender z.place.channel y) }
    ensures receiver { (z : Scene) (v : World) (b : Book) (x : Channel) (y : Past) (ks : List CableLine) (xs : ℕ → List ℕ → Channel) (ys : ℕ → List ℕ → Past) → Taken z v b x y → LeadTo ks z.sender z.place.channel z.receiver → AreJoint (world_in z) z.ghost z.book ks xs ys
        → Joined v b ks (put_at xs z.sender z.place.channel x) (put_at ys z.sender z.place.channel y) }
{}

/// And behind a stop or a restart of a manager, where its ends let go what they have not prepared.
pub fn stops_and_restarts_leave_all_channels_tied()
    ensures { (s : Scenario) (given later : Ident → Bool) (a : ℕ) (p q : Plain) (ps qs : List Plain) (g h : Ghost) (b d : Book) (ks : List CableLine) (xs zs : ℕ → List ℕ → Channel) (ys : ℕ → List ℕ → Past) → IsNext a p q ps qs → IsAtRest p q
        → h.sent ≡ g.sent → h.operated ≡ g.operated → Inv (world_of s later qs) h d → ((k : CableLine) → Mem k ks → Facts (xs k.sender k.channel) (ys k.sender k.channel)) → ((k : CableLine) → Mem k ks → (zs k.sender k.channel).receives ≡ (xs k.sender k.channel).receives)
        → AreJoint (world_of s given ps) g b ks xs ys → AreJoint (world_of s later qs) h d ks zs (rested a ys) }
{}

/// In a scenario a sender and a channel's name have one receiver.
pub fn channels_of_a_scenario_differ()
    ensures { (s : Scenario) (k : CableLine) → IsScenario s → Mem k s.cables → LeadTo s.cables k.sender k.channel k.receiver }
{}

/// A network begins so, where each channel begins with what its managers' logs have hardened.
pub fn networks_begin_with_all_channels_tied()
    ensures { (s : Scenario) (given : Ident → Bool) (ps : List Plain) (g : Ghost) (b : Book) (xs : ℕ → List ℕ → Channel) (ys : ℕ → List ℕ → Past) → IsScenario s → ((a : ℕ) (p : Plain) → slice_get ps a ≡ Some p → p.given.number ≡ a + 1) → Inv (world_of s given ps) g b
        → ((m : ℕ) (c : List ℕ) (u : Luw) → g.operated m c u ≡ false) → ((k : CableLine) → Mem k s.cables → Begins ps (g.sent k.sender k.channel) k (xs k.sender k.channel) (ys k.sender k.channel)) → AreJoint (world_of s given ps) g b s.cables xs ys }
{}

/// No batch of a manager was prepared, nor is it its receiver's last unit, where each is of a cable that it sends: so a stop and a restart may
/// release them (`stops_and_restarts_release_batches` of mq_law_batches).
pub fn batches_of_cables_are_unprepared()
    ensures { (s : Scenario) (given : Ident → Bool) (ps : List Plain) (g : Ghost) (b : Book) (ks : List CableLine) (xs : ℕ → List ℕ → Channel) (ys : ℕ → List ℕ → Past) (m : ℕ) (p : Plain) → slice_get ps m ≡ Some p → IsSound p → AreCabled ks m p
        → ((k : CableLine) → Mem k ks → Facts (xs k.sender k.channel) (ys k.sender k.channel)) → AreJoint (world_of s given ps) g b ks xs ys → AreUnprepared s ps p }
{}
