//! Each command of a scenario that is read is one that a line of a text of commands is: so it has values that commands give.
#![tactic(auto)]

ghost use Rattle.std.specs.Prelude.{◌≡◌, ℕ, List, Ok};
ghost use Rattle.mq_history.specs.declared.scenario.Scenario.{Scenario};
ghost use Rattle.mq_scn_text.specs.Reading.{scenario_of};
ghost use Rattle.mq_nodes.specs.Texts.{AllFit};
ghost use Rattle.mq_law_commands.specs.Written.{IsWritten};

/// Each command of a section, of a script's line MQSC and of a step DO.
pub fn commands_of_scenarios_are_written()
    ensures { (text : List ℕ) (s : Scenario) → scenario_of text ≡ Ok s → AllFit IsWritten s }
{}
