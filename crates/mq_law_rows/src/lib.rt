//! The rows of a network as families: rows by manager and queue, and the ledger's beside them.
//!
//! Beside them stands what the proof follows: where each ident belongs, what each unit has, and which units an operator
//! has committed before their receivers. `Inv` ties the three. Each kind of change of rows keeps it, and it says that
//! each queue's standing rows are the ledger's, list for list, and that each ident stands once.
#![tactic(auto)]

ghost use Rattle.std.specs.Prelude.{◌≡◌, ◌≢◌, ◌⊎◌, ◌∷◌, ◌++◌, ℕ, Bool, true, false, not, List, [], Some, None, map};
ghost use Rattle.mq_message.specs.declared.message.Ident.{Ident};
ghost use Rattle.mq_message.specs.declared.message.Message.{Message};
ghost use Rattle.mq_queue.specs.declared.row.Row.{Row};
ghost use Rattle.mq_queue.specs.Rows.{keep, insert_row};
ghost use Rattle.mq_sync.specs.declared.unit.Unit.{Unit as Luw};
ghost use Rattle.mq_calls.specs.declared.state.Item.{Item};
ghost use Rattle.mq_calls.specs.declared.state.Item.TheVariants.{Put};
ghost use Rattle.mq_spec_network.specs.Promised.{AreDistinct};
ghost use Rattle.mq_spec_network.specs.Story.{Mem};
ghost use Rattle.mq_spec_network.specs.Standing.{row_told, rows_told};
ghost use Rattle.mq_law_rows.specs.World.{Book, Ghost, InOrder, IsOthers, is_last, InHand, At, Gone, InUnit, HeldBy, Inv, Tag, World, away, got_idents, LanesRise, idents_in, is_forced, items_told, standing, tag_idents, tag_mark, tag_of};
ghost use Rattle.mq_law_rows.specs.Kinds.{AllBorne, Chosen, among, Commits, Landing, after, back_out, backed_out, book_bury, book_hold, book_lift, book_lose, book_place, book_receive, book_take_gets, book_units, drop_batch, freed, ghost_force, ghost_hold, ghost_take, ghost_receive, give, hold_batch, hold_row, landing_mark, landing_told, place_all, lift_row, lose, owned, place_row, prepare, receive, release_batch, spent, take_gets, with_units};
ghost use Rattle.mq_law_rows.specs.Beginning.{Opens, Spot, first_owner};
ghost use Rattle.mq_law_rows.specs.Ordered.{IsFront, with_young};
ghost use Rattle.mq_law_rows.specs.Families.{put_at};
ghost use Rattle.mq_spec_network.specs.Order.{Before, KeepsQueue};
ghost use Rattle.mq_calls.specs.Reads.{is_persistent};
ghost use Rattle.mq_spec_network.specs.from_spec_node.Doers.{by};
ghost use Rattle.mq_spec_network.specs.Ledger.{ledger};

/// Rows are placed and taken: an ident is given; what is in hand is placed; a free row is taken off its queue; what is in
/// hand is gone for good; rows that are not persistent go.
pub fn rows_that_come_and_go_keep_the_facts()
    ensures given { (w : World) (g : Ghost) (b : Book) (m : ℕ) (i : Ident) → Inv w g b → w.given i ≡ false → Inv (give w i) (after g (owned i (InHand m))) b }
    ensures placed { (w : World) (g : Ghost) (b : Book) (m : ℕ) (q : List ℕ) (row told : Row) → Inv w g b → g.owner row.message.ident ≡ InHand m → row.by ≡ None → row_told told ≡ row_told row
        → ((a : ℕ) (d : List ℕ) (x : Row) → Mem x (w.rows a d) → x.message.ident ≡ row.message.ident → is_persistent x.message ≡ is_persistent row.message)
        → Inv (place_row w m q row) (after g (owned row.message.ident (At m q))) (book_place b m q told) }
    ensures lifted { (w : World) (g : Ghost) (b : Book) (m : ℕ) (q : List ℕ) (x : Row) → Inv w g b → Mem x (w.rows m q) → x.by ≡ None
        → Inv (lift_row w m q x.message.ident) (after g (owned x.message.ident (InHand m))) (book_lift b m x.message.ident) }
    ensures buried { (w : World) (g : Ghost) (b : Book) (m : ℕ) (by_get : Bool) (i : Ident) → Inv w g b → g.owner i ≡ InHand m → w.given i ≡ true → Inv w (after g (owned i Gone)) (book_bury b by_get i) }
    ensures lost { (w : World) (g : Ghost) (b : Book) (m : ℕ) → Inv w g b → Inv (lose w m) g (book_lose b m) }
{}

/// Units of connections: a put and a get in one, its commit, its backout.
pub fn units_keep_the_facts()
    ensures pended { (w : World) (g : Ghost) (b : Book) (m k : ℕ) (q : List ℕ) (message : Message) → Inv w g b → g.owner message.ident ≡ InHand m → w.given message.ident ≡ true
        → ((a : ℕ) (d : List ℕ) (x : Row) → Mem x (w.rows a d) → x.message.ident ≡ message.ident → is_persistent x.message ≡ is_persistent message)
        → Inv (with_units w m k (w.units m k ++ Put q message ∷ [])) (after g (owned message.ident (InUnit m k))) (book_units b m k (b.units m k ++ Put q message ∷ [])) }
    ensures held { (w : World) (g : Ghost) (b : Book) (m : ℕ) (q : List ℕ) (k : ℕ) (x : Row) (lasting : Bool) → Inv w g b → Mem x (w.rows m q) → x.by ≡ None
        → Inv (hold_row w m q k x.message.ident lasting) (after g (owned x.message.ident (HeldBy m q k))) (book_hold b m k x.message.ident) }
    ensures taken { (w : World) (g : Ghost) (b : Book) (m k : ℕ) (went : List Ident) → Inv w g b → ((j : Ident) → Mem j went → Mem j (got_idents (w.units m k)) ⊎ Mem j b.gone)
        → Inv (take_gets w m k) (after g (spent (got_idents (w.units m k)))) (book_take_gets b m k (got_idents (w.units m k)) went) }
    ensures unpended { (w : World) (g : Ghost) (b : Book) (m k : ℕ) (q : List ℕ) (message : Message) (items told : List Item) → Inv w g b → w.units m k ≡ Put q message ∷ items → items_told told ≡ items_told items
        → Inv (with_units w m k items) (after g (owned message.ident (InHand m))) (book_units b m k told) }
    ensures backed_out { (w : World) (g : Ghost) (b : Book) (m k : ℕ) (back : Bool) → Inv w g b → Inv (back_out w m k back) (after g (backed_out m k)) (book_units b m k []) }
{}

/// Batches: one is held, prepared, released, dropped since its receiver has committed it, and dropped since an operator
/// says so; and a receiver commits a unit, in doubt at its sender or committed there by an operator.
pub fn batches_keep_the_facts()
    ensures held { (w : World) (g : Ghost) (b : Book) (m : ℕ) (q c : List ℕ) (u : Luw) (ts : List Tag) → Inv w g b → w.holds m c ≡ None → w.last m c ≢ u → g.operated m c u ≡ false → Chosen w m q ts
        → Inv (hold_batch w m q c u (tag_idents ts)) (ghost_hold g m q c u ts) b }
    ensures fronted { (w : World) (g : Ghost) (b : Book) (m : ℕ) (q c : List ℕ) (u : Luw) (ts : List Tag) (front : Bool) → Inv w g b → w.holds m c ≡ None → w.last m c ≢ u → g.operated m c u ≡ false → Chosen w m q ts
        → (front ≡ true → IsFront (tag_idents ts) (standing w m q)) → Inv (hold_batch w m q c u (tag_idents ts)) (ghost_take g m q c u ts front) b }
    ensures prepared { (w : World) (g : Ghost) (b : Book) (m : ℕ) (c : List ℕ) (u : Luw) → Inv w g b → w.holds m c ≡ Some u → w.last m c ≢ u → Inv (prepare w m c) g b }
    ensures released { (w : World) (g : Ghost) (b : Book) (m : ℕ) (c : List ℕ) (back : Bool) → Inv w g b → ((u : Luw) → w.holds m c ≡ Some u → w.last m c ≢ u) → Inv (release_batch w m c back) (after g (freed g m c)) b }
    ensures dropped { (w : World) (g : Ghost) (b : Book) (m : ℕ) (c : List ℕ) → Inv w g b → away w m c ≡ true → Inv (drop_batch w m c) g b }
    ensures forced { (w : World) (g : Ghost) (b : Book) (m : ℕ) (c : List ℕ) (u : Luw) → Inv w g b → w.holds m c ≡ Some u → w.last m c ≢ u → Inv (drop_batch w m c) (ghost_force g m c u) b }
    ensures received { (w : World) (g : Ghost) (b : Book) (m : ℕ) (c : List ℕ) (u : Luw) (t : ℕ) (ls ks : List Landing) → Inv w g b → Commits w g m c u t
        → map landing_mark ls ≡ map tag_mark (g.sent m c u) → map landing_told ks ≡ map landing_told ls → ((l : Landing) → Mem l ls → l.row.by ≡ None)
        → Inv (receive w m c u t (tag_idents (g.sent m c u)) ls) (ghost_receive g m c u t (tag_idents (g.sent m c u)) ls) (book_receive b t (tag_idents (g.sent m c u)) ks) }
    ensures awaited { (w : World) (g : Ghost) (b : Book) (m : ℕ) (c : List ℕ) (u : Luw) (t : ℕ) → Inv w g b → t ≢ m → w.holds m c ≡ Some u → w.doubt m c ≡ true → w.last m c ≢ u → Commits w g m c u t }
    ensures operated { (w : World) (g : Ghost) (b : Book) (m : ℕ) (c : List ℕ) (u : Luw) (t : ℕ) → Inv w g b → t ≢ m → g.operated m c u ≡ true → ((x : Luw) → w.holds m c ≡ Some x → (w.last m c ≢ x) × (x ≢ u)) → Commits w g m c u t }
{}

/// Of a unit that its receiver may commit, the ledger's rows are the messages that were sent, but for the names that they go by and the
/// count of their backouts, and each row of such an ident, of whatever manager, is as persistent as the message is.
pub fn the_facts_know_what_is_sent()
    ensures words { (w : World) (g : Ghost) (b : Book) (m : ℕ) (c : List ℕ) (u : Luw) (t : ℕ) → Inv w g b → Commits w g m c u t → (s : Tag) (a : ℕ) (q : List ℕ) (r : Row) → Mem s (g.sent m c u) → Mem r (b.rows a q) → r.message.ident ≡ s.ident → tag_of r.message ≡ s }
    ensures lasting { (w : World) (g : Ghost) (b : Book) (m : ℕ) (c : List ℕ) (u : Luw) (t : ℕ) → Inv w g b → Commits w g m c u t → (s : Tag) (a : ℕ) (q : List ℕ) (x : Row) → Mem s (g.sent m c u) → Mem x (w.rows a q) → x.message.ident ≡ s.ident
        → is_persistent x.message ≡ s.lasting }
{}

/// Order: rows are kept, placed last in their lanes, and land; a batch is taken from the front of its queue. So at each
/// receiver's commit what stands before a row of its list on its queue, with its priority, is in the list too, and before it;
/// and what lands on one queue with one priority stands there in the order of the list.
pub fn batches_keep_the_order()
    ensures kept { (g : Ghost) (rows : ℕ → List ℕ → List Row) (young : ℕ → List ℕ → Luw → Bool) (p : ℕ → List ℕ → Row → Bool) → InOrder g rows young → InOrder g (λ m q. keep (p m q) (rows m q)) young }
    ensures placed { (g : Ghost) (rows : ℕ → List ℕ → List Row) (young : ℕ → List ℕ → Luw → Bool) (m : ℕ) (q : List ℕ) (row : Row) → InOrder g rows young → LanesRise (rows m q)
        → ((a : ℕ) (c : List ℕ) (u : Luw) → young a c u ≡ true → Mem row.message.ident (tag_idents (g.sent a c u)) → ⊥) → InOrder g (put_at rows m q (insert_row row (rows m q))) young }
    ensures landed { (g : Ghost) (young : ℕ → List ℕ → Luw → Bool) (t : ℕ) (ls : List Landing) (rows : ℕ → List ℕ → List Row) → InOrder g rows young → ((m : ℕ) (q : List ℕ) → LanesRise (rows m q))
        → ((l : Landing) → Mem l ls → (a : ℕ) (c : List ℕ) (u : Luw) → young a c u ≡ true → Mem l.row.message.ident (tag_idents (g.sent a c u)) → ⊥) → InOrder g (λ a d. place_all t ls a d (rows a d)) young }
    ensures owned { (g v : Ghost) (rows : ℕ → List ℕ → List Row) (young : ℕ → List ℕ → Luw → Bool) → InOrder g rows young → ((m : ℕ) (c : List ℕ) (u : Luw) → young m c u ≡ true → v.sent m c u ≡ g.sent m c u)
        → ((m : ℕ) (q : List ℕ) (x : Row) → Mem x (rows m q) → is_forced (g.owner x.message.ident) ≡ true → v.owner x.message.ident ≡ g.owner x.message.ident) → InOrder v rows young }
    ensures taken { (w : World) (g : Ghost) (b : Book) (young : ℕ → List ℕ → Luw → Bool) (m : ℕ) (q c : List ℕ) (u : Luw) (ts : List Tag) (front : Bool) → Inv w g b → InOrder g b.rows young → g.operated m c u ≡ false
        → ((i : Ident) → Mem i (tag_idents ts) → g.owner i ≡ At m q) → IsFront (tag_idents ts) (standing w m q) → InOrder (ghost_take g m q c u ts front) b.rows (with_young young m c u) }
    ensures queue { (g : Ghost) (b : Book) (young : ℕ → List ℕ → Luw → Bool) (m : ℕ) (c : List ℕ) (u : Luw) → InOrder g b.rows young → young m c u ≡ true
        → (a : ℕ) (q : List ℕ) (xs : List Row) → ((x y : Row) → Before x y xs → Before x y (b.rows a q)) → ((x : Row) → Mem x xs → IsOthers g m c u x → ⊥) → KeepsQueue (tag_idents (g.sent m c u)) xs }
    ensures committed { (w : World) (g : Ghost) (b : Book) (m : ℕ) (c : List ℕ) (u : Luw) (t : ℕ) → Inv w g b → Commits w g m c u t → g.loose m c u ≡ false
        → (a : ℕ) (q : List ℕ) (xs : List Row) → ((x y : Row) → Before x y xs → Before x y (b.rows a q)) → ((x : Row) → Mem x xs → IsOthers g m c u x → ⊥) → KeepsQueue (tag_idents (g.sent m c u)) xs }
    ensures listed { (t : ℕ) (ids : List Ident) (ks : List Landing) (q : List ℕ) (xs : List Row) → map (λ (l : Landing). l.row.message.ident) ks ≡ ids → AreDistinct ids → LanesRise xs
        → (x y : Row) → Mem x (place_all t ks t q (keep (λ r. not (among ids r.message.ident)) xs)) → Mem y (place_all t ks t q (keep (λ r. not (among ids r.message.ident)) xs)) → x.place.lane ≡ y.place.lane
        → Before x.message.ident y.message.ident ids → Before x y (place_all t ks t q (keep (λ r. not (among ids r.message.ident)) xs)) }
    ensures first { (xs rest : List Row) → AreDistinct (idents_in (xs ++ rest)) → IsFront (idents_in xs) (xs ++ rest) }
    ensures list { (t : ℕ) (ls : List Landing) (q : List ℕ) (xs : List Row) (l k : Landing) → LanesRise xs → Before l k ls → l.queue ≡ q → k.queue ≡ q → l.row.place.lane ≡ k.row.place.lane → Before l.row k.row (place_all t ls t q xs) }
{}

/// Where no settlement of an operator is open, each queue's standing rows are the ledger's, list for list; a standing
/// ident stands on one queue of one manager, and there once.
pub fn the_facts_say_that_rows_stand_as_posted()
    ensures rows { (w : World) (g : Ghost) (b : Book) → Inv w g b → AllBorne g → (m : ℕ) (q : List ℕ) → rows_told (b.rows m q) ≡ rows_told (standing w m q) }
    ensures one { (w : World) (g : Ghost) (b : Book) → Inv w g b → (m a : ℕ) (q d : List ℕ) (x y : Row) → Mem x (standing w m q) → Mem y (standing w a d) → x.message.ident ≡ y.message.ident → (m ≡ a) × (q ≡ d) }
    ensures once { (w : World) (g : Ghost) (b : Book) → Inv w g b → (m : ℕ) (q : List ℕ) → AreDistinct (idents_in (standing w m q)) }
{}

/// Families that begin as first starts do have the facts.
pub fn rows_begin_with_the_facts()
    ensures { (w : World) (b : Book) (spots : List Spot) (sent : ℕ → List ℕ → Luw → List Tag) (source : ℕ → List ℕ → List ℕ) → Opens w b spots sent source
        → Inv w (record { sent = sent; source = source; operated = λ m c u. false; loose = λ m c u. is_last (w.holds m c) u; owner = first_owner w spots }) b }
{}
