//! Each PUMP of a run that has enough turns comes to rest.
#![tactic(auto)]

ghost use Rattle.std.specs.Prelude.{◌≡◌, ◌++◌, ℕ, List, Some, slice_get};
ghost use Rattle.mq_history.specs.declared.history.History.{History};
ghost use Rattle.mq_history.specs.declared.history.Mark.{Mark};
ghost use Rattle.mq_history.specs.declared.scenario.Scenario.{Scenario};
ghost use Rattle.mq_history.specs.declared.scenario.Step.{Step};
ghost use Rattle.mq_history.specs.declared.scenario.Step.TheVariants as steps;
ghost use Rattle.mq_spec_network.specs.Tasks.{Task};
ghost use Rattle.mq_spec_network.specs.Turns.{Network};
ghost use Rattle.mq_spec_network.specs.Lawful.{IsFar};
ghost use Rattle.mq_history.specs.declared.calls.Entry.{Entry};
ghost use Rattle.mq_calls.specs.State.Running.{Up};
ghost use Rattle.mq_spec_node.specs.Replays.{after, opening_node};
ghost use Rattle.mq_spec_network.specs.Given.{surroundings};
ghost use Rattle.mq_spec_network.specs.Promised.{Premises};
ghost use Rattle.mq_law_pump.specs.Fit.{IsFit};
ghost use Rattle.mq_law_pump.specs.Fit.{Good};
ghost use Rattle.mq_law_pump.specs.Restful.{Restful};
ghost use Rattle.mq_law_ran.specs.from_course.Courses.{net_of};
ghost use Rattle.mq_history.specs.Scenarios.{IsScenario};
ghost use Rattle.mq_spec_network.specs.Apart.{IsJoined};
ghost use Rattle.mq_spec_network.specs.Conflict.{NoConflict};
ghost use Rattle.mq_spec_network.specs.Story.{IsStory, Line};
ghost use Rattle.mq_spec_network.specs.Lawful.{AreOwn, IsLawful};
ghost use Rattle.mq_spec_network.specs.Promised.{AreDoubtsKnown, AreImages};
ghost use Rattle.mq_law_ran.specs.Runs.{Left};
ghost use Rattle.mq_law_rest.specs.Rests.{AllMayRest, AllUp, AreSome, IsPeaceful, PumpsRest, PumpsTell};
ghost use Rattle.mq_law_rest.specs.Within.{AllWithin, NoFaults};
ghost use Rattle.mq_nodes.specs.Carried.{AreCarriedSoFar, until};
ghost use Rattle.mq_nodes.specs.Texts.{AllFit};
ghost use Rattle.mq_law_rest.specs.Values.{AreTextCalls, IsTextOf, OpenTexts};
ghost use Rattle.mq_law_rest.specs.Until.{IsPlace, IsStep, net_until};

/// Each step of a run has its place there, and its networks are those that the marks of the histories tell.
pub fn steps_of_runs_have_their_places()
    ensures same { (s : Scenario) (hs : List History) (i : ℕ) (w : Network) → IsPlace s hs i w → net_until s hs i ≡ w }
    ensures pumps { (s : Scenario) (hs : List History) (whole rest : List Step) (tasks : List Task) (i n : ℕ) → IsFar s hs whole rest tasks → slice_get s.steps i ≡ Some (steps.Pump n)
        → (m : ℕ) (h : History) (k : Mark) → slice_get hs m ≡ Some h → slice_get h.marks i ≡ Some k → IsStep s hs i n }
{}

/// Where the cables of a run are carried at the ends of its steps and have no faults, no end has popped more than was offered to it, between any two steps.
pub fn ends_pop_no_more_than_was_offered()
    ensures { (s : Scenario) (hs : List History) (i : ℕ) → NoFaults s → AreCarriedSoFar s hs → AllWithin (net_until s hs i) }
{}

/// So the histories are lawful up to the end of each step, and all premises hold of them.
pub fn a_run_is_lawful_so_far()
    ensures { (s : Scenario) (hs : List History) (i : ℕ) (w : Network) → Premises s hs → AreCarriedSoFar s hs → IsPlace s hs i w → Premises s (until i hs) }
{}

/// A run whose story has no conflict is peaceful up to the end of each step.
pub fn a_run_without_conflict_is_peaceful()
    ensures { (s : Scenario) (hs : List History) (i : ℕ) (story : List Line) → IsStory hs story → NoConflict s hs story → IsPeaceful s (until i hs) }
{}

/// Where the story of a run has no conflict, each manager fits after each of its entries with which it is up.
pub fn managers_of_a_run_fit()
    ensures { (s : Scenario) (hs : List History) → Premises s hs → IsPeaceful s hs → AreSome s hs → (m : ℕ) (h : History) (front back : List Entry) → slice_get hs m ≡ Some h → h.entries ≡ front ++ back
        → (after (opening_node (surroundings s m) h) front).manager.running ≡ Up → IsFit (after (opening_node (surroundings s m) h) front) }
{}

/// Along a run whose managers begin with definitions such as commands give, and whose commands have values such as a text gives, each channel that is
/// defined as a sender's has BATCHSZ 1 at least; and a run gives no other commands than the scenario's.
pub fn definitions_of_a_run_keep_their_values()
    ensures values { (s : Scenario) (hs : List History) → Premises s hs → IsPeaceful s hs → OpenTexts s hs → AreTextCalls hs → AreSome s hs }
    ensures calls { (s : Scenario) (hs : List History) (i : ℕ) (w : Network) → AllFit IsTextOf s → IsPlace s hs i w → AreTextCalls (until i hs) }
{}

/// So the facts hold behind a PUMP at whose end all managers are up; and before it what is asked there, where each cable may rest.
pub fn networks_of_a_run_are_fit_to_rest()
    ensures good { (s : Scenario) (hs : List History) → Premises s hs → IsPeaceful s hs → AreSome s hs → AllUp (net_of s hs) → Good (net_of s hs) }
    ensures restful { (s : Scenario) (hs : List History) → Premises s hs → IsPeaceful s hs → Good (net_of s hs) → AllWithin (net_of s hs) → AllMayRest (net_of s hs) → Restful (net_of s hs) }
{}

/// Each PUMP of a lawful story that was done whole ended idle exactly where nothing can change behind it; it took no more turns and timeouts than it was
/// given, and just as many where it did not end idle.
pub fn pumps_of_a_run_are_told()
    ensures { (l : Left) → IsLawful l.scenario l.histories → PumpsTell l }
{}

/// **Each PUMP of a run that has enough turns comes to rest**: it ended idle, where it was done whole, so where no manager of it made its last event and memory was there.
pub fn pumps_of_a_run_come_to_rest()
    ensures { (l : Left) → IsScenario l.scenario → AllFit IsTextOf l.scenario → OpenTexts l.scenario l.histories → AreImages l.histories → AreDoubtsKnown l.histories → IsLawful l.scenario l.histories → AreCarriedSoFar l.scenario l.histories → IsJoined l.scenario l.histories → AreOwn l.histories → PumpsRest l }
{}
