//! Managers and their ledger as the laws see them: what each change of rows and each step of the ledger is on the
//! families, and with what they begin.
#![tactic(auto)]

ghost use Rattle.std.specs.Prelude.{◌≡◌, ℕ, false, List, None};
ghost use Rattle.mq_law_rows.specs.World.{Inv, is_last, standing};
ghost use Rattle.mq_law_rows.specs.Beginning.{first_owner};
ghost use Rattle.mq_law_seen.specs.Seen.{world_of, book_of};
ghost use Rattle.mq_law_seen.specs.Given.{AreOpenings, is_given, sent_at, source_at, spots_of};
ghost use Rattle.mq_law_rows.specs.from_spec_network.Apart.{apart_of};
ghost use Rattle.mq_law_rows.specs.from_history.{Scenario};
ghost use Rattle.mq_calls.specs.State.{Plain};
ghost use Rattle.mq_law_rows.specs.from_spec_network.Ledger.{ledger};
ghost use Rattle.mq_law_rows.specs.from_spec_network.Standing.{opening_ledger_of};
ghost use Rattle.mq_calls.specs.State.{Given, LogState};
ghost use Rattle.mq_calls.specs.Images.{begun, raised};
ghost use Rattle.mq_calls.specs.declared.image.Image.{Image};
ghost use Rattle.mq_calls.specs.Recovery.{IsImage};
ghost use Rattle.mq_law_seen.specs.Opening.{IsOpening};

/// Managers at their first starts that belong together have the facts, with the ledger that has their standing rows; and an image
/// of a log gives such a start.
pub fn openings_have_the_facts()
    ensures managers { (s : Scenario) (ps : List Plain) → AreOpenings ps → apart_of s ps ≡ None
        → Inv (world_of s (is_given ps) ps) (record { sent = sent_at ps; source = source_at ps; operated = λ m c u. false; loose = λ m c u. is_last ((world_of s (is_given ps) ps).holds m c) u; owner = first_owner (world_of s (is_given ps) ps) (spots_of 0 ps) }) (book_of (opening_ledger_of s ps)) }
    ensures images { (given : Given) (image : Image) (log : LogState) (moment : ℕ) → IsImage image → IsOpening (begun given (raised 0 image) log moment) }
{}
