//! The laws of texts of scenarios, as functions with empty bodies whose contracts are the theorems.

ghost use Rattle.std.specs.Prelude.{◌≡◌, ◌⊎◌, ℕ, List, Ok, Err};
ghost use Rattle.mq_history.specs.declared.scenario.Scenario.{Scenario};
ghost use Rattle.mq_scn_text.specs.declared.fault.ScenarioFault.{ScenarioFault};
ghost use Rattle.mq_scn_text.specs.Reading.{scenario_of};
ghost use Rattle.mq_history.specs.Scenarios.{IsScenario};
ghost use Rattle.mq_law_scenario.specs.Texts.{IsText};
ghost use Rattle.mq_law_scenario.specs.Faults.{IsTextFault};

/// A text is that of one scenario at most.
pub fn one_scenario_of_a_text()
    ensures { (text : List ℕ) (s other : Scenario) → IsText text s → IsText text other → s ≡ other }
{}

/// The reader answers a scenario exactly where the text is that of this scenario.
pub fn scenarios_are_those_of_the_text()
    ensures found { (text : List ℕ) (s : Scenario) → scenario_of text ≡ Ok s → IsText text s }
    ensures read { (text : List ℕ) (s : Scenario) → IsText text s → scenario_of text ≡ Ok s }
{}

/// The reader answers a fault, other than that memory ran out, exactly where it is that of the first line that can't stand.
pub fn the_first_fault_is_told()
    ensures found { (text : List ℕ) (fault : ScenarioFault) → scenario_of text ≡ Err fault → IsTextFault text fault }
    ensures read { (text : List ℕ) (fault : ScenarioFault) → IsTextFault text fault → scenario_of text ≡ Err fault }
{}

/// Each text is that of a scenario or has a fault, never both, and has one fault at most.
pub fn a_text_is_a_scenario_or_has_a_fault()
    ensures either { (text : List ℕ) → ((s : Scenario) × IsText text s) ⊎ ((fault : ScenarioFault) × IsTextFault text fault) }
    ensures never_both { (text : List ℕ) (s : Scenario) (fault : ScenarioFault) → IsText text s → IsTextFault text fault → ⊥ }
    ensures one_fault { (text : List ℕ) (fault other : ScenarioFault) → IsTextFault text fault → IsTextFault text other → fault ≡ other }
{}

/// The scenario of a text keeps to what is meant by a scenario: names, channels and labels differ, all that is named is
/// there, and all numbers are within their limits.
pub fn scenarios_of_texts_keep_to_their_limits()
    ensures { (text : List ℕ) (s : Scenario) → IsText text s → IsScenario s }
{}
