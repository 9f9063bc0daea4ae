//! What is so of each such scenario.
ghost use Rattle.std.specs.Prelude.{ℕ, ◌≤◌};
ghost use Rattle.mq_soak.specs.Words as words;

/// It is a scenario: within all limits, each place in it is there, no name comes twice.
pub fn soaks_are_scenarios()
    ensures { (n : ℕ) → n ≤ 1000 → words.IsScenario (words.soak n) }
{}

/// Each command in it is one whose values a text of commands gives, as all are that are read.
pub fn soaks_have_texts()
    ensures { (n : ℕ) → words.AllFit words.IsText (words.soak n) }
{}
