//! What bounds the counters of a manager: each event raises them by three at most.
#![tactic(auto)]

ghost use Rattle.std.specs.Prelude.{◌+◌, ◌≤◌, ℕ, length};
ghost use Rattle.mq_calls.specs.declared.image.Image.{Image};
ghost use Rattle.mq_calls.specs.declared.image.Shelf.{Shelf};
ghost use Rattle.mq_frame.specs.declared.frame.Seen.{Seen};
ghost use Rattle.mq_spec_node.specs.Terms.{Actor, Call, Chance, Given, Plain};
ghost use Rattle.mq_spec_node.specs.Words.{Node, event};
ghost use Rattle.mq_spec_manager.specs.Stops.{first_start};
ghost use Rattle.std.specs.List.{AllByRecursion};
ghost use Rattle.mq_calls.specs.Counts.{IsCounted};
ghost use Rattle.mq_law_image.specs.from_law_manager.Facts.{Mem, AreNamed};
ghost use Rattle.mq_law_counts.specs.Counts.{Climbs, AreWithin, IsCountedCall};

/// An event of a node raises the counters of its manager by three at most, whatever comes from outside: so where they are at most
/// so high, they are at most three higher behind it. A unit's puts are counted when they are made, so its end raises none.
pub fn an_event_raises_counters_by_three()
    ensures events { (stamp : ℕ) (actor : Actor) (call : Call) (chance : Chance) (seen : Seen) (n : Node) → IsCountedCall call → Climbs 3 n.manager (event stamp actor call chance seen n).next.manager }
    ensures within { (n most : ℕ) (p q : Plain) → Climbs n p q → AreWithin most p → AreWithin (most + n) q }
    ensures begins { (most : ℕ) (given : Given) (image : Image) (long moment : ℕ) → image.incarnation + 1 ≤ most → ((s : Shelf) → Mem s image.shelves → length s.rows ≤ most) → AreWithin most (first_start given image long moment) }
    ensures counted { (most : ℕ) (p : Plain) → AreNamed p.queues → AreWithin most p → AllByRecursion (IsCounted most p) p.queues }
{}
