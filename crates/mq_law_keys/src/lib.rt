//! The ends of channels at a node are told apart, by their cables and by their names, from a scenario's begin on and over every
//! event. So at a sender's manager it is known of each deed what it is for that sender's channel.
#![tactic(auto)]

ghost use Rattle.std.specs.Prelude.{◌≡◌, ℕ, true, false, List, Some};
ghost use Rattle.mq_frame.specs.declared.frame.Seen.{Seen};
ghost use Rattle.mq_history.specs.declared.calls.Actor.{Actor};
ghost use Rattle.mq_history.specs.declared.calls.Call.{Call};
ghost use Rattle.mq_history.specs.declared.calls.Chance.{Chance};
ghost use Rattle.mq_history.specs.declared.calls.Entry.{Entry};
ghost use Rattle.mq_history.specs.declared.history.History.{History};
ghost use Rattle.mq_history.specs.declared.scenario.Scenario.{Scenario};
ghost use Rattle.mq_history.specs.Scenarios.{IsScenario};
ghost use Rattle.mq_calls.specs.Reads.{is_up};
ghost use Rattle.mq_spec_node.specs.Node.{Node, SenderEnd, end_in};
ghost use Rattle.mq_spec_node.specs.Node.ChannelEnd.{Sends};
ghost use Rattle.mq_spec_node.specs.Happens.{deed_of, event};
ghost use Rattle.mq_spec_node.specs.Replays.{after, opening_node};
ghost use Rattle.mq_spec_network.specs.Given.{surroundings};
ghost use Rattle.mq_law_node.specs.from_law_channel.Channel.{Channel, Past};
ghost use Rattle.mq_law_node.specs.Ends.{SendsAs, TakesAs, Where};
ghost use Rattle.mq_law_node.specs.Beside.{EachDoes, KeyedNear, is_ours, is_ours_far};
ghost use Rattle.mq_law_keys.specs.Keys.{EachDoesFar, IsKeyed, keys};

/// Where no two ends are of one cable or one channel, each is found by its cable and by its name, and no other.
pub fn keyed_ends_are_told_apart()
    ensures { (w : Where) (n : Node) (e : SenderEnd) → IsKeyed n → end_in w.cable n.own.ends ≡ Some (Sends e) → e.channel ≡ w.channel → KeyedNear w n }
{}

/// No event changes the keys, and a scenario's managers begin with such.
pub fn ends_keep_their_keys()
    ensures events { (stamp : ℕ) (actor : Actor) (call : Call) (chance : Chance) (seen : Seen) (n : Node) → IsKeyed n → keys (event stamp actor call chance seen n).next.own.ends ≡ keys n.own.ends }
    ensures runs { (s : Scenario) (m : ℕ) (h : History) (es : List Entry) → IsScenario s → IsKeyed (after (opening_node (surroundings s m) h) es) }
{}

/// So in each run of a scenario, whatever isn't a turn or timeout of a sender's end is a step of its channel or leaves it alone; and
/// whatever isn't a turn of a receiver's end so of its own.
pub fn deeds_of_runs_are_known()
    ensures near { (s : Scenario) (m : ℕ) (h : History) (es : List Entry) (w : Where) (stamp : ℕ) (actor : Actor) (call : Call) (seen : Seen) (c : Channel) → IsScenario s
        → SendsAs w (after (opening_node (surroundings s m) h) es) c → is_up (after (opening_node (surroundings s m) h) es).manager.running ≡ true → is_ours w.cable actor call ≡ false
        → EachDoes w (after (opening_node (surroundings s m) h) es) c (deed_of stamp actor call seen (after (opening_node (surroundings s m) h) es)) }
    ensures far { (s : Scenario) (m : ℕ) (h : History) (es : List Entry) (w : Where) (stamp : ℕ) (actor : Actor) (call : Call) (seen : Seen) (c : Channel) (p : Past) → IsScenario s
        → TakesAs w (after (opening_node (surroundings s m) h) es) c → is_up (after (opening_node (surroundings s m) h) es).manager.running ≡ true → is_ours_far w.cable actor call ≡ false
        → EachDoesFar w (after (opening_node (surroundings s m) h) es) c p (deed_of stamp actor call seen (after (opening_node (surroundings s m) h) es)) }
{}
