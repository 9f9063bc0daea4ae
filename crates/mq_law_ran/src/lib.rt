//! What follows from what the calls of a run tell: its story is lawful, and what is promised of it.
#![tactic(auto)]

ghost use Rattle.std.specs.Prelude.{◌≡◌, ℕ, List, [], Some, length, slice_get};
ghost use Rattle.mq_history.specs.declared.history.History.{History};
ghost use Rattle.mq_history.specs.declared.history.Mark.{Mark};
ghost use Rattle.mq_history.specs.declared.scenario.Scenario.{Scenario};
ghost use Rattle.mq_history.specs.declared.scenario.Step.{Step};
ghost use Rattle.mq_course.specs.Courses.{net_of};
ghost use Rattle.mq_spec_network.specs.Apart.{IsJoined, apart};
ghost use Rattle.mq_spec_network.specs.Tasks.{Task};
ghost use Rattle.mq_history.specs.Scenarios.{IsScenario};
ghost use Rattle.mq_net_ledger.specs.from_story.Spots.{AreRising};
ghost use Rattle.mq_spec_network.specs.Lawful.{AreOwn, AreSteps, IsLawful, Stands, marks_at};
ghost use Rattle.mq_spec_network.specs.Promised.{AreDoubtsKnown, AreImages};
ghost use Rattle.mq_spec_network.specs.Story.{entries_at};
ghost use Rattle.mq_law_ran.specs.Runs.{AreCarried, AreHistories, BeginsAs, Left};
ghost use Rattle.mq_law_ran.specs.Promises.{GotOnce, OrderKept, RowsAreLedgers, StandOnce};

pub mod below;

/// The stamps of a history that replays rise.
pub fn histories_rise()
    ensures { (s : Scenario) (hs : List History) → AreHistories s hs → AreRising hs }
{}

/// Histories that replay, the ends of whose cables popped what was offered, and that have the entries of the scenario's steps, make a
/// lawful story. So do those without entries and marks: nothing was popped, and no step was done.
pub fn a_run_is_lawful()
    ensures steps { (s : Scenario) (hs : List History) → AreHistories s hs → AreCarried s hs → AreSteps s hs → IsLawful s hs }
    ensures carried { (s : Scenario) (hs : List History) → ((m : ℕ) → entries_at hs m ≡ []) → AreCarried s hs }
    ensures begun { (s : Scenario) (hs : List History) → ((m : ℕ) → entries_at hs m ≡ []) → ((m : ℕ) → marks_at hs m ≡ []) → AreSteps s hs }
{}

/// The steps of a run keep the nodes with which it began, and so whether the logs belong together.
pub fn a_run_keeps_its_beginning()
    ensures begins { (s : Scenario) (gs hs : List History) (whole rest : List Step) (marks : ℕ → List Mark) (tasks : List Task) → Stands (net_of s gs) whole rest marks (net_of s hs) tasks
        → (m : ℕ) (h : History) → slice_get hs m ≡ Some h → BeginsAs s gs m h }
    ensures apart { (s : Scenario) (gs hs : List History) (whole rest : List Step) (marks : ℕ → List Mark) (tasks : List Task) → Stands (net_of s gs) whole rest marks (net_of s hs) tasks
        → length gs ≡ length hs → apart s gs ≡ apart s hs }
{}

/// After each prefix of the story of a run whose logs belong together, and no restart of which read a log that was changed from outside,
/// the rows of each queue are the ledger's, list for list; each ident stands at most once, and is in at most one committed get; each
/// receiver's commit keeps the order.
pub fn a_run_is_as_promised()
    ensures rows { (l : Left) → IsScenario l.scenario → AreImages l.histories → AreDoubtsKnown l.histories → IsLawful l.scenario l.histories → IsJoined l.scenario l.histories → AreOwn l.histories → RowsAreLedgers l }
    ensures once { (l : Left) → IsScenario l.scenario → AreImages l.histories → AreDoubtsKnown l.histories → IsLawful l.scenario l.histories → IsJoined l.scenario l.histories → AreOwn l.histories → StandOnce l }
    ensures got_once { (l : Left) → IsScenario l.scenario → AreImages l.histories → AreDoubtsKnown l.histories → IsLawful l.scenario l.histories → IsJoined l.scenario l.histories → AreOwn l.histories → GotOnce l }
    ensures order { (l : Left) → IsScenario l.scenario → AreImages l.histories → AreDoubtsKnown l.histories → IsLawful l.scenario l.histories → IsJoined l.scenario l.histories → AreOwn l.histories → OrderKept l }
{}
