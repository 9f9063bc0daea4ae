//! What the histories of a cable's ends say of what lies on it.
ghost use Rattle.std.specs.Prelude.{◌≡◌, ℕ, List, [], Some, slice_get};
ghost use Rattle.std.specs.List.{AllByRecursion};
ghost use Rattle.mq_cable.specs.declared.fault.Fault.{Fault};
ghost use Rattle.mq_cable.specs.declared.item.Item.{Item};
ghost use Rattle.mq_cable.specs.Faults.{spoil};
ghost use Rattle.mq_cable.specs.Lists.{first_of};
ghost use Rattle.mq_frame.specs.declared.frame.Frame.{Frame};
ghost use Rattle.mq_frame.specs.declared.frame.Seen.{Seen};
ghost use Rattle.mq_frame.specs.declared.frame.Seen.TheVariants as items;
ghost use Rattle.mq_frame.specs.Frames.{IsFrame, frame_bytes};
ghost use Rattle.mq_frame.specs.Sight.{Shows};
ghost use Rattle.mq_spec_network.specs.from_spec_node.Terms.{Entry};
ghost use Rattle.mq_spec_network.specs.from_spec_node.Words.{is_receiver, is_sender, items_of};
ghost use Rattle.mq_spec_network.specs.Cables.{Lying, lying, pops_of};
ghost use Rattle.mq_spec_network.specs.Turns.{Network, does, waiting};
ghost use Rattle.mq_wires.specs.Wires.{Sees};
ghost use Rattle.mq_ways.specs.Ways.{AreNew, AreSeen, AreShown, CableState, IsCableAt, IsNew, IsQuietEntry, IsWay, WayState};
ghost use Rattle.mq_history.specs.declared.scenario.CableLine.{CableLine};

/// Where no end has offered or popped, a new direction is as the histories say.
#[tactic(auto, using(crate::proofs::WayLaws::way_begins))]
pub fn nothing_lies_on_a_new_direction()
    ensures { (fs : List Fault) (pushes pops : List Entry) (w : WayState) → items_of pushes ≡ [] → pops_of pops ≡ [] → IsNew fs w → IsWay fs pushes pops w }
{}

/// A frame whose first byte was spoiled is none.
#[tactic(auto, using(crate::proofs::SpoilLaws::spoiled_shows))]
pub fn a_spoiled_frame_is_none()
    ensures { (f : Frame) → IsFrame f → Shows (spoil (frame_bytes f)) items.Spoiled }
{}

/// What lies on a direction, as its reader sees it, is what the faults make of the frames that were offered.
#[tactic(auto, using(crate::proofs::SightLaws::way_seen))]
pub fn what_lies_there_is_what_the_faults_make()
    ensures { (fs : List Fault) (ps qs : List Entry) (w : WayState) → AreShown ps → IsWay fs ps qs w → AreSeen w.items (lying fs ps qs) }
{}

/// What an end sees on its wire is the item that waits.
#[tactic(auto, using(crate::proofs::SightLaws::waits_here))]
pub fn an_item_that_waits_is_seen()
    ensures { (xs : List Item) (ys : List Lying) (seen : Seen) (stamp : ℕ) → AreSeen xs ys → Sees (first_of xs) (xs ≡ []) seen stamp → waiting ys ≡ seen }
{}

/// Where nothing was done yet, each line's new cable is as the histories say.
pub fn new_cables_are_as_their_ends_say()
    ensures { (w : Network) (cs : List CableState) (k : ℕ) (l : CableLine) (c : CableState) → ((m : ℕ) → w.done m ≡ []) → AreNew w.scenario.cables cs → slice_get w.scenario.cables k ≡ Some l → slice_get cs k ≡ Some c → IsCableAt w k l c }
{}

/// Entries of which none offers or pops as an end of a cable leave it as it is.
pub fn a_cable_stays_where_its_ends_are_quiet()
    ensures { (w : Network) (m k : ℕ) (l : CableLine) (es : List Entry) (c : CableState) → AllByRecursion (IsQuietEntry (is_sender k)) es → AllByRecursion (IsQuietEntry (is_receiver k)) es → IsCableAt w k l c → IsCableAt (does m es w) k l c }
{}
