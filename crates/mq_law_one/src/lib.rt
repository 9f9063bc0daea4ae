//! Managers without channels: of every lawful story of theirs each prefix is as promised.
#![tactic(auto)]

ghost use Rattle.mq_history.specs.declared.history.History.{History};
ghost use Rattle.mq_history.specs.declared.scenario.Scenario.{Scenario};
ghost use Rattle.std.specs.Prelude.{List};
ghost use Rattle.mq_spec_network.specs.Promised.{Promised};
ghost use Rattle.mq_law_one.specs.Alone.{IsAlone};

/// Where the scenario has no channel: after each prefix the standing rows of each queue are the ledger's, list for list; each
/// ident stands once, and is in at most one committed get.
pub fn managers_alone_are_as_promised()
    ensures { (s : Scenario) (hs : List History) → IsAlone s → Promised s hs }
{}
