//! Where histories have the entries of a scenario's steps, each script did its lines, in order from the first, each once.
#![tactic(auto)]

ghost use Rattle.std.specs.Prelude.{◌≡◌, ℕ, List, Some, slice_get};
ghost use Rattle.mq_history.specs.declared.history.History.{History};
ghost use Rattle.mq_history.specs.declared.scenario.Scenario.{Scenario};
ghost use Rattle.mq_history.specs.declared.scenario.ScriptPart.{ScriptPart};
ghost use Rattle.mq_spec_network.specs.Lawful.{AreSteps, ScriptIs};

/// The entries of each script are its lines, in order from the first, each once, whatever the steps did of it: by a RUN, by a
/// monitor, in a phase, or with clocks between.
pub fn entries_of_scripts_are_their_lines()
    ensures { (s : Scenario) (hs : List History) → AreSteps s hs → (k : ℕ) (p : ScriptPart) → slice_get s.scripts k ≡ Some p → ScriptIs s hs k p }
{}
