//! What holds of one channel, whatever its cable loses, repeats, delays or spoils, and whenever its ends stop.
//!
//! A channel is what its two ends have hardened, their machines, the messages that are being sent and those that the
//! receiver keeps, and every frame that was ever offered, in either direction. Any of these may come at any time,
//! again, late or never. Beside the channel stands what the proof follows: what each unit has, which unit the sender
//! holds, and which units an operator has settled. `Facts` ties the two, and each step keeps it.
#![tactic(auto)]

ghost use Rattle.std.specs.Prelude.{◌≡◌, ◌≢◌, ◌≤◌, ℕ, Bool, true, false, List, Option, Some, None};
ghost use Rattle.mq_sync.specs.declared.unit.Unit.{Unit as Luw};
ghost use Rattle.mq_sync.specs.declared.unit.Settle.{Settle};
ghost use Rattle.mq_sync.specs.declared.unit.Settle.TheVariants as settles;
ghost use Rattle.mq_sync.specs.Units.{unit_named};
ghost use Rattle.mq_sync.specs.declared.data.InDoubt.{InDoubt};
ghost use Rattle.mq_sync.specs.declared.data.SenderData.{SenderData};
ghost use Rattle.mq_sync.specs.declared.data.ReceiverData.{ReceiverData};
ghost use Rattle.mq_sender.specs.declared.state.Limits.{Limits};
ghost use Rattle.mq_sender.specs.declared.state.SenderState.TheVariants.{Inactive, Running, Waiting};
ghost use Rattle.mq_sender.specs.declared.turns.SenderDoes.TheVariants as sends;
ghost use Rattle.mq_sender.specs.declared.turns.SenderOut.TheVariants as outs;
ghost use Rattle.mq_sender.specs.declared.state.Sender.{Sender};
ghost use Rattle.mq_sender.specs.States.{is_running};
ghost use Rattle.mq_receiver.specs.declared.turns.ReceiverDoes.TheVariants.{Place};
ghost use Rattle.mq_receiver.specs.States.{is_bound};
ghost use Rattle.mq_law_channel.specs.Facts.{Dead, Letter};
ghost use Rattle.mq_law_channel.specs.Channel.{Channel, Facts, Past, far};
ghost use Rattle.mq_law_channel.specs.Counting.{Agree, Count, Numbers, SenderAgrees, count_opened, count_set, sender_count};
ghost use Rattle.mq_law_channel.specs.Example.{acknowledged, delivered, delivered_late};
ghost use Rattle.mq_law_channel.specs.Following.{Alone, Awaited, HeldWithin, Later, Placed, Reached, RefusesUnits, Said, is_in_session};
ghost use Rattle.mq_law_channel.specs.Opening.{Belong, opened, past_opened};
ghost use Rattle.mq_law_channel.specs.Turns.{ReceiverMay, ReceiverTurn, SenderMay, SenderTurn, past_resolved, receiver_does, receiver_halted, receiver_numbered, receiver_restarted, receiver_rests, receiver_started, receiver_stopped, receiver_turn, released, resolved, sender_does, sender_numbered, sender_past, sender_past_restarted, sender_restarted, sender_rests, sender_started, sender_stopped, sender_timed_out, sender_turn};

/// Where two logs belong together, the channel begins with the facts; the unit in doubt has any messages.
pub fn a_channel_begins_with_the_facts()
    ensures { (s : SenderData) (r : ReceiverData) (letters : List Letter) → Belong s r → Facts (opened s r) (past_opened s r letters) }
{}

/// What an earlier run left is what a later one may begin from: two logs of a channel with the facts belong together, and
/// so the channel that opens with them, its unit in doubt with any messages, has the facts again.
pub fn a_channel_can_begin_again()
    ensures belong { (c : Channel) (p : Past) → Facts c p → Belong c.sends c.receives }
    ensures facts { (c : Channel) (p : Past) (letters : List Letter) → Facts c p → Facts (opened c.sends c.receives) (past_opened c.sends c.receives letters) }
{}

/// Each turn of the sender keeps the facts: a session hardened, BIND, a batch held, messages, a unit prepared or one
/// for which the log has no room, END, STATUS, ACK, ERR, and what is ignored. So does a timeout.
pub fn turns_of_a_sender_keep_the_facts()
    ensures turn { (t : SenderTurn) (c : Channel) (p : Past) → Facts c p → SenderMay t c → Facts (sender_turn t c) (sender_past t c p) }
    ensures timeout { (c : Channel) (p : Past) → Facts c p → Facts (sender_timed_out c) p }
{}

/// Each turn of the receiver keeps the facts: what is owed pushed, a session bound, messages kept, a unit committed,
/// acknowledged again or refused, a spoiled frame, and what is ignored.
pub fn turns_of_a_receiver_keep_the_facts()
    ensures { (t : ReceiverTurn) (c : Channel) (p : Past) → Facts c p → ReceiverMay t c p → Facts (receiver_turn t c) p }
{}

/// An operator's START, STOP, RESET and RESOLVE keep the facts, each in the states in which it is accepted.
pub fn operators_keep_the_facts()
    ensures sender_starts { (limits : Limits) (c : Channel) (p : Past) → Facts c p → is_running c.sender.state ≡ false → Facts (sender_started limits c) p }
    ensures receiver_starts { (c : Channel) (p : Past) → Facts c p → is_bound c.receiver.state ≡ false → Facts (receiver_started c) p }
    ensures sender_stops { (c : Channel) (p : Past) → Facts c p → Facts (sender_stopped c) (released p) }
    ensures receiver_stops { (c : Channel) (p : Past) → Facts c p → Facts (receiver_stopped c) p }
    ensures sender_resets { (last : ℕ) (c : Channel) (p : Past) → Facts c p → is_running c.sender.state ≡ false → Facts (sender_numbered last c) p }
    ensures receiver_resets { (last : ℕ) (c : Channel) (p : Past) → Facts c p → Facts (receiver_numbered last c) p }
    ensures resolves_commit { (c : Channel) (p : Past) (d : InDoubt) → Facts c p → is_running c.sender.state ≡ false → c.sends.in_doubt ≡ Some d → Facts (resolved settles.Commit c) (past_resolved settles.Commit d p) }
    ensures resolves_backout { (c : Channel) (p : Past) (d : InDoubt) → Facts c p → is_running c.sender.state ≡ false → c.sends.in_doubt ≡ Some d → Facts (resolved settles.Backout c) (past_resolved settles.Backout d p) }
{}

/// A stop of either manager keeps the facts. A turn whose write is stopped leaves the channel as it is until the
/// restart, which does the turn where its write was kept, and then what a stop does.
pub fn stops_and_restarts_keep_the_facts()
    ensures sender { (m : Sender) (c : Channel) (p : Past) → Facts c p → m.state ≡ Inactive → Facts (sender_rests m c) (released p) }
    ensures receiver_halts { (c : Channel) (p : Past) → Facts c p → Facts (receiver_halted c) p }
    ensures receiver { (c : Channel) (p : Past) → Facts c p → Facts (receiver_rests c) p }
    ensures sender_noted { (kept : Bool) (t : SenderTurn) (m : Sender) (c : Channel) (p : Past) → Facts c p → SenderMay t c → m.state ≡ Inactive → Facts (sender_restarted kept t m c) (sender_past_restarted kept t c p) }
    ensures receiver_noted { (kept : Bool) (t : ReceiverTurn) (c : Channel) (p : Past) → Facts c p → ReceiverMay t c p → Facts (receiver_restarted kept t c) p }
{}

/// What the queues need. At a receiver's commit what is kept is what was sent, the unit is above the last one, and it
/// is its sender's unit in doubt, unless an operator has settled that. What a sender is told of its unit is so: one
/// settled as committed is the receiver's last unit; one settled as backed out was not committed, and its session is
/// closed.
pub fn queues_can_rest_on_a_channel()
    ensures placed { (t : ReceiverTurn) (c : Channel) (p : Past) (u : Luw) → Facts c p → ReceiverMay t c p → receiver_does t c ≡ Place u → Placed c p u }
    ensures awaited { (t : ReceiverTurn) (c : Channel) (p : Past) (u : Luw) → Facts c p → ReceiverMay t c p → receiver_does t c ≡ Place u → p.near.undone u ≡ false → Awaited c p u }
    ensures said { (t : SenderTurn) (c : Channel) (p : Past) → Facts c p → SenderMay t c → Said (sender_does t c) t c p }
{}

/// What a receiver has closed or passed stays so, and no unit of it is committed: so a unit that was settled as backed
/// out is never committed later. Each step of the receiver leaves its data `Later`, its session never falls, and `same`
/// and `later` chain the steps of a run. This rests on the receiver alone, and holds also after a conflict.
pub fn closed_sessions_stay_closed()
    ensures facts { (c : Channel) (p : Past) → Facts c p → Alone c }
    ensures turn { (t : ReceiverTurn) (c : Channel) → Alone c → RefusesUnits t c → Alone (receiver_turn t c) }
    ensures turn_later { (t : ReceiverTurn) (c : Channel) → Alone c → RefusesUnits t c → Later c.receives (receiver_turn t c).receives }
    ensures start { (c : Channel) → Alone c → Alone (receiver_started c) }
    ensures start_later { (c : Channel) → Alone c → Later c.receives (receiver_started c).receives }
    ensures stop { (c : Channel) → Alone c → Alone (receiver_stopped c) }
    ensures stop_later { (c : Channel) → Alone c → Later c.receives (receiver_stopped c).receives }
    ensures halt { (c : Channel) → Alone c → Alone (receiver_halted c) }
    ensures halt_later { (c : Channel) → Alone c → Later c.receives (receiver_halted c).receives }
    ensures rest { (c : Channel) → Alone c → Alone (receiver_rests c) }
    ensures rest_later { (c : Channel) → Alone c → Later c.receives (receiver_rests c).receives }
    ensures reset { (last : ℕ) (c : Channel) → Alone c → Alone (receiver_numbered last c) }
    ensures reset_later { (last : ℕ) (c : Channel) → Alone c → Later c.receives (receiver_numbered last c).receives }
    ensures same { (r : ReceiverData) → Later r r }
    ensures later { (q r s : ReceiverData) → Later q r → Later r s → Later q s }
    ensures rises { (q r : ReceiverData) → Later q r → q.session ≤ r.session }
    ensures dead { (c d : Channel) (x : ℕ) → Later c.receives d.receives → Dead (far c) x → Dead (far d) x }
    ensures live { (t : ReceiverTurn) (c : Channel) (u : Luw) → Alone c → receiver_does t c ≡ Place u → ¬ Dead (far c) u.session }
{}

/// No unit is sent, and no END offered, before the receiver has bound its session. It stays so under a sender that is
/// started, stopped, reset, resolved or at rest, and under all that only raises the receiver's session.
pub fn no_unit_is_sent_before_its_session_is_bound()
    ensures begins { (s : SenderData) (r : ReceiverData) (letters : List Letter) → Reached (opened s r) (past_opened s r letters) }
    ensures sender { (t : SenderTurn) (c : Channel) (p : Past) → Facts c p → SenderMay t c → Reached c p → Reached (sender_turn t c) (sender_past t c p) }
    ensures timeout { (c : Channel) (p : Past) → Reached c p → Reached (sender_timed_out c) p }
    ensures rests { (c d : Channel) (p q : Past) → Reached c p → is_in_session d.sender.state ≡ false → d.out ≡ c.out → d.receives ≡ c.receives → Reached d q }
    ensures receiver { (c d : Channel) (p : Past) → Reached c p → Later c.receives d.receives → d.sender ≡ c.sender → d.out ≡ c.out → Reached d p }
{}

/// A prepared unit's session is at most the receiver's: that of the unit which a sender holds, in doubt or not, also where
/// its END was never offered. It is so whenever the sender is in session, from the opening on where it is so of the unit
/// in doubt there, and each step keeps it; logs that an earlier run left so begin a later one so. Two logs may belong
/// together without it, as where the receiver's log is new: then it is so from the first STATUS on.
pub fn a_unit_in_doubt_is_within_the_receivers_sessions()
    ensures begins { (s : SenderData) (r : ReceiverData) (letters : List Letter) → ((d : InDoubt) → s.in_doubt ≡ Some d → d.unit.session ≤ r.session) → HeldWithin (opened s r) (past_opened s r letters) }
    ensures in_session { (c : Channel) (p : Past) → Facts c p → Reached c p → is_in_session c.sender.state ≡ true → HeldWithin c p }
    ensures sender { (t : SenderTurn) (c : Channel) (p : Past) → Reached c p → HeldWithin c p → HeldWithin (sender_turn t c) (sender_past t c p) }
    ensures timeout { (c : Channel) (p : Past) → HeldWithin c p → HeldWithin (sender_timed_out c) p }
    ensures sender_starts { (limits : Limits) (c : Channel) (p : Past) → HeldWithin c p → HeldWithin (sender_started limits c) p }
    ensures sender_stops { (c : Channel) (p : Past) → HeldWithin c p → HeldWithin (sender_stopped c) (released p) }
    ensures sender_rests { (m : Sender) (c : Channel) (p : Past) → HeldWithin c p → HeldWithin (sender_rests m c) (released p) }
    ensures sender_noted { (kept : Bool) (t : SenderTurn) (m : Sender) (c : Channel) (p : Past) → Reached c p → HeldWithin c p → HeldWithin (sender_restarted kept t m c) (sender_past_restarted kept t c p) }
    ensures sender_resets { (last : ℕ) (c : Channel) (p : Past) → HeldWithin c p → HeldWithin (sender_numbered last c) p }
    ensures resolves { (settle : Settle) (c : Channel) (p : Past) (d : InDoubt) → HeldWithin c p → HeldWithin (resolved settle c) (past_resolved settle d p) }
    ensures receiver { (c d : Channel) (p : Past) → HeldWithin c p → Later c.receives d.receives → HeldWithin d p }
    ensures in_doubt { (c : Channel) (p : Past) (d : InDoubt) → Facts c p → HeldWithin c p → c.sends.in_doubt ≡ Some d → d.unit.session ≤ c.receives.session }
    ensures again { (c : Channel) (p : Past) (letters : List Letter) → Facts c p → HeldWithin c p → HeldWithin (opened c.sends c.receives) (past_opened c.sends c.receives letters) }
{}

/// Sequence numbers. Beside the facts stands the last number of each unit, and whether an operator has set a number.
/// Each step keeps what ties them; a RESET alone sets the mark.
pub fn steps_keep_the_numbers()
    ensures begins { (s : SenderData) (r : ReceiverData) (letters : List Letter) → Agree s r → Numbers (opened s r) (past_opened s r letters) (count_opened s false) }
    ensures begins_set { (s : SenderData) (r : ReceiverData) (letters : List Letter) → Numbers (opened s r) (past_opened s r letters) (count_opened s true) }
    ensures sender { (t : SenderTurn) (c : Channel) (p : Past) (n : Count) → Facts c p → Numbers c p n → SenderMay t c → SenderAgrees t c p → Numbers (sender_turn t c) (sender_past t c p) (sender_count t c p n) }
    ensures receiver { (t : ReceiverTurn) (c : Channel) (p : Past) (n : Count) → Facts c p → Numbers c p n → ReceiverMay t c p → Numbers (receiver_turn t c) p n }
    ensures timeout { (c : Channel) (p : Past) (n : Count) → Numbers c p n → Numbers (sender_timed_out c) p n }
    ensures sender_starts { (limits : Limits) (c : Channel) (p : Past) (n : Count) → Numbers c p n → Numbers (sender_started limits c) p n }
    ensures sender_stops { (c : Channel) (p : Past) (n : Count) → Facts c p → Numbers c p n → Numbers (sender_stopped c) (released p) n }
    ensures sender_rests { (m : Sender) (c : Channel) (p : Past) (n : Count) → Facts c p → Numbers c p n → m.state ≡ Inactive → Numbers (sender_rests m c) (released p) n }
    ensures sender_resets { (last : ℕ) (c : Channel) (p : Past) (n : Count) → Numbers c p n → is_running c.sender.state ≡ false → c.sends.in_doubt ≡ None → Numbers (sender_numbered last c) p (count_set n) }
    ensures receiver_resets { (last : ℕ) (c : Channel) (p : Past) (n : Count) → Numbers c p n → Numbers (receiver_numbered last c) p (count_set n) }
    ensures resolves_commit { (c : Channel) (p : Past) (n : Count) (d : InDoubt) → Facts c p → Numbers c p n → is_running c.sender.state ≡ false → c.sends.in_doubt ≡ Some d → Numbers (resolved settles.Commit c) (past_resolved settles.Commit d p) n }
    ensures resolves_backout { (c : Channel) (p : Past) (n : Count) (d : InDoubt) → Facts c p → Numbers c p n → is_running c.sender.state ≡ false → c.sends.in_doubt ≡ Some d → d.unit ≢ c.receives.unit → Numbers (resolved settles.Backout c) (past_resolved settles.Backout d p) n }
    ensures receiver_starts { (c : Channel) (p : Past) (n : Count) → Numbers c p n → Numbers (receiver_started c) p n }
    ensures receiver_stops { (c : Channel) (p : Past) (n : Count) → Numbers c p n → Numbers (receiver_stopped c) p n }
    ensures receiver_halts { (c : Channel) (p : Past) (n : Count) → Numbers c p n → Numbers (receiver_halted c) p n }
    ensures receiver_rests { (c : Channel) (p : Past) (n : Count) → Numbers c p n → Numbers (receiver_rests c) p n }
{}

/// Where no operator has set a number, and STATUS bears each RESOLVE out, the two ends' last numbers are the same
/// after each settlement: the sender runs, and is never stopped for its numbers.
pub fn no_sequence_error_without_a_reset()
    ensures { (t : SenderTurn) (c : Channel) (p : Past) (n : Count) (settle : Option Settle) (partner : ℕ) → Facts c p → Numbers c p n → SenderMay t c → SenderAgrees t c p → n.set ≡ false
        → t.outcome ≡ outs.Done → sender_does t c ≡ sends.Bound settle partner → (sender_turn t c).sender.state ≡ Running }
{}

/// The facts are of channels that do send: one message goes over by the tables' own turns, and is committed once, also
/// where its ACK is lost.
pub fn a_message_goes_over()
    ensures doubt { (l : Letter) → (acknowledged l).sender.state ≡ Waiting }
    ensures committed { (l : Letter) → (acknowledged l).receives.unit ≡ unit_named 1 1 }
    ensures settled { (l : Letter) → ((delivered l).sends.in_doubt ≡ None) × ((delivered l).sends.last ≡ 1) × ((delivered l).receives.last ≡ 1) × ((delivered l).sender.state ≡ Running) }
    ensures late { (l : Letter) → ((delivered_late l).sends.in_doubt ≡ None) × ((delivered_late l).sends.session ≡ 2) × ((delivered_late l).sends.last ≡ 1) × ((delivered_late l).receives.unit ≡ unit_named 1 1) × ((delivered_late l).sender.state ≡ Running) }
{}
