//! Rows that are kept in order of arrival are a queue's, lane by lane.
ghost use Rattle.std.specs.Prelude.{◌≡◌, ◌<◌, ◌++◌, ◌∷◌, [], Bool, List, find, true};
ghost use Rattle.mq_queue.specs.declared.row.Row.{Row};
ghost use Rattle.mq_queue.specs.Rows.{insert_row, keep, retag};
ghost use Rattle.mq_index.specs.Lanes.{found_from, in_order};

/// A row that comes last stands last in its lane.
#[tactic(auto, using(crate::proofs::LaneLaws::order_insert))]
pub fn a_row_comes_last_in_its_lane()
    ensures { (row : Row) (rows : List Row) → row.place.lane < 10 → in_order (rows ++ row ∷ []) ≡ insert_row row (in_order rows) }
{}

/// Rows that stay are those that stay lane by lane.
#[tactic(auto, using(crate::proofs::LaneLaws::order_keep))]
pub fn rows_stay_in_their_lanes()
    ensures { (test : Row → Bool) (rows : List Row) → in_order (keep test rows) ≡ keep test (in_order rows) }
{}

/// So are rows that are changed, where each keeps its lane.
#[tactic(auto, using(crate::proofs::LaneLaws::order_retag))]
pub fn changed_rows_stay_in_their_lanes()
    ensures { (change : Row → Row) (rows : List Row) → ((row : Row) → (change row).place.lane ≡ row.place.lane) → in_order (retag change rows) ≡ retag change (in_order rows) }
{}

/// The first row that passes a test is the first of the first lane that has one.
#[tactic(auto, using(crate::proofs::LaneLaws::order_find))]
pub fn a_row_is_found_lane_by_lane()
    ensures { (test : Row → Bool) (rows : List Row) → find test (in_order rows) ≡ found_from test 10 0 rows }
{}

/// It is found among the rows that a wider test lets pass.
#[tactic(auto, using(crate::proofs::LaneLaws::find_kept))]
pub fn a_row_is_found_among_those_with_its_id()
    ensures { (test wide : Row → Bool) (rows : List Row) → ((row : Row) → test row ≡ true → wide row ≡ true) → find test rows ≡ find test (keep wide rows) }
{}
