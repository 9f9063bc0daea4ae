//! What follows for a story of several histories: it is one run, and where the facts hold of a prefix, what is promised of it
//! does.
#![tactic(auto)]

ghost use Rattle.std.specs.Prelude.{◌≡◌, ◌∷◌, ◌++◌, ◌==◌, slice_get, ℕ, Bool, true, false, List, [], Some, None, map};
ghost use Rattle.mq_message.specs.declared.message.Ident.{Ident};
ghost use Rattle.mq_sync.specs.declared.unit.Unit.{Unit as Luw};
ghost use Rattle.mq_spec_network.specs.Promised.{AreDistinct};
ghost use Rattle.mq_spec_network.specs.Story.{Mem};
ghost use Rattle.mq_spec_network.specs.Standing.{rows_told};
ghost use Rattle.mq_law_seen.specs.from_law_rows.World.{Book, Ghost, Inv, World, is_last, standing};
ghost use Rattle.mq_law_seen.specs.from_law_rows.Kinds.{Commits};
ghost use Rattle.mq_law_seen.specs.from_law_rows.Beginning.{first_owner};
ghost use Rattle.mq_law_seen.specs.Seen.{world_of, book_of};
ghost use Rattle.mq_law_seen.specs.Opening.{AreNamed};
ghost use Rattle.mq_law_story.specs.Told.{IsTold};
ghost use Rattle.mq_law_seen.specs.Given.{AreOpenings, is_given, sent_at, source_at, spots_of};
ghost use Rattle.mq_spec_network.specs.Apart.{apart_of};
ghost use Rattle.mq_law_story.specs.Needs.{IsTied, letter_tag};
ghost use Rattle.mq_law_channel.specs.Channel.{Channel, Past};
ghost use Rattle.mq_law_channel.specs.Following.{Awaited, Placed};
ghost use Rattle.mq_history.specs.declared.calls.Actor.{Actor};
ghost use Rattle.mq_history.specs.declared.calls.Entry.{Entry};
ghost use Rattle.mq_history.specs.declared.history.History.{History};
ghost use Rattle.mq_history.specs.declared.scenario.Scenario.{Scenario};
ghost use Rattle.mq_cable.specs.declared.fault.Fault.{Fault};
ghost use Rattle.mq_frame.specs.declared.frame.Frame.{Frame};
ghost use Rattle.mq_frame.specs.declared.frame.Seen.TheVariants as items;
ghost use Rattle.mq_calls.specs.State.{Plain};
ghost use Rattle.mq_spec_network.specs.from_spec_node.Replays.{Follows, Tells, done_by, opening_node};
ghost use Rattle.mq_spec_network.specs.Cables.{Carries, pops_item};
ghost use Rattle.mq_spec_network.specs.from_spec_node.Doers.{by};
ghost use Rattle.mq_spec_network.specs.Conflict.{NoConflict};
ghost use Rattle.mq_spec_network.specs.Given.{surroundings};
ghost use Rattle.mq_spec_network.specs.Ledger.{Ledger, ledger, ledger_rows, posted};
ghost use Rattle.mq_spec_network.specs.Promised.{AreImages, all_standing};
ghost use Rattle.mq_spec_network.specs.Standing as standings;
ghost use Rattle.mq_spec_network.specs.Standing.{managers_at, node_after, opening_ledger, opening_managers};
ghost use Rattle.mq_spec_network.specs.Story.{IsStory, Line, entries_at};

/// A network whose histories begin with images of logs, which belong together, begins with the facts.
pub fn a_network_begins_with_the_facts()
    ensures openings { (s : Scenario) (hs : List History) → AreImages hs → AreOpenings (opening_managers s hs) }
    ensures facts { (s : Scenario) (hs : List History) → AreImages hs → apart_of s (opening_managers s hs) ≡ None
        → Inv (world_of s (is_given (opening_managers s hs)) (opening_managers s hs)) (record {
          sent = sent_at (opening_managers s hs);
          source = source_at (opening_managers s hs);
          operated = λ m c u. false;
          loose = λ m c u. is_last ((world_of s (is_given (opening_managers s hs)) (opening_managers s hs)).holds m c) u;
          owner = first_owner (world_of s (is_given (opening_managers s hs)) (opening_managers s hs)) (spots_of 0 (opening_managers s hs));
        }) (book_of (opening_ledger s hs)) }
{}

/// Where the managers of a prefix and its ledger have the facts, the prefix has no conflict, and what the proof follows of
/// operators' settlements is what the prefix tells, the standing rows are the ledger's, each ident stands once in the
/// network, and is in one committed get.
pub fn the_facts_are_what_is_promised()
    ensures rows { (s : Scenario) (hs : List History) (p : List Line) (known : Ident → Bool) (g : Ghost) → Inv (world_of s known (managers_at s p hs)) g (book_of (ledger (opening_ledger s hs) p)) → NoConflict s hs p → IsTold s hs p g
        → (m : ℕ) (name : List ℕ) → rows_told (standings.standing s (managers_at s p hs) m name) ≡ rows_told (ledger_rows m name (ledger (opening_ledger s hs) p)) }
    ensures once { (s : Scenario) (known : Ident → Bool) (ps : List Plain) (g : Ghost) (b : Book) → Inv (world_of s known ps) g b → ((m : ℕ) (p : Plain) → slice_get ps m ≡ Some p → AreNamed p.queues) → AreDistinct (all_standing s ps) }
    ensures got_once { (s : Scenario) (hs : List History) (p : List Line) (known : Ident → Bool) (g : Ghost) → Inv (world_of s known (managers_at s p hs)) g (book_of (ledger (opening_ledger s hs) p)) → AreDistinct (ledger (opening_ledger s hs) p).got }
{}

/// A story is one run: an entry more changes its manager by its event, and no other; it is posted to the ledger; it tells
/// its event where it stands; and each frame that it popped was offered in the prefix before it.
pub fn a_story_is_one_run()
    ensures others { (s : Scenario) (p : List Line) (x : Line) (hs : List History) (a : ℕ) → (a == x.manager) ≡ false → slice_get (managers_at s (p ++ x ∷ []) hs) a ≡ slice_get (managers_at s p hs) a }
    ensures manager { (s : Scenario) (p : List Line) (x : Line) (hs : List History) (h : History) → slice_get hs x.manager ≡ Some h → slice_get (managers_at s (p ++ x ∷ []) hs) x.manager ≡ Some (done_by x.entry (node_after s x.manager p h)).next.manager }
    ensures ledger { (l : Ledger) (p : List Line) (x : Line) → ledger l (p ++ x ∷ []) ≡ posted x.manager x.entry x.entry.reply (ledger l p) }
    ensures tells { (s : Scenario) (hs : List History) (p : List Line) (x : Line) (rest : List Line) (h : History) → IsStory hs (p ++ x ∷ rest) → slice_get hs x.manager ≡ Some h
        → Follows (opening_node (surroundings s x.manager) h) 0 h.entries → (stamp : ℕ) × Tells (node_after s x.manager p h) stamp x.entry }
    ensures popped { (hs : List History) (p : List Line) (x : Line) (rest : List Line) (from : ℕ) (fs : List Fault) (pusher test : Actor → Bool) (f : Frame) → IsStory hs (p ++ x ∷ rest)
        → Carries fs (by pusher (entries_at hs from)) test (entries_at hs x.manager) → pops_item test x.entry ≡ true → x.entry.effect.popped ≡ items.Frame f
        → ((o : Entry) → Mem o (entries_at hs from) → o.effect.pushed ≡ Some f → o.stamp ≡ f.stamp)
        → (o : Entry) × Mem (record { manager = from; entry = o }) p × (pusher o.actor ≡ true) × (o.effect.pushed ≡ Some f) }
{}

/// A channel's facts are what its rows need of a receiver's commit.
pub fn channels_give_what_rows_need()
    ensures { (w : World) (g : Ghost) (b : Book) (m t : ℕ) (c : List ℕ) (channel : Channel) (p : Past) (u : Luw) → Inv w g b → IsTied w g m t c channel p → Placed channel p u → Awaited channel p u
        → Commits w g m c u t × (map letter_tag channel.kept ≡ g.sent m c u) }
{}
