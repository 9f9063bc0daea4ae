//! What a manager's log tells of it, call by call.
ghost use Rattle.std.specs.Prelude.{◌≡◌, ℕ, List, ◌∷◌, Result};
ghost use Rattle.mq_calls.specs.Words.{MeetsAs, Step, Wants};
ghost use Rattle.mq_calls.specs.declared.commands.Halt.{Halt};
ghost use Rattle.mq_law_log.specs.Restarts.{StepHarmless};
ghost use Rattle.mq_receive.specs.from_core.Values.{CoreValue, WritesLog, manager_of};
ghost use Rattle.mq_manager.specs.Tells.{StepRead, Tells, TellsAfter};

/// Where the image of a log's bodies is what lasts, it is so behind each call whose parts make crashes harmless and whose records are
/// read back; and behind a stopped write the image is what lasts without it, and with its body what the write would have come to.
pub fn a_call_keeps_what_the_log_tells<F, T>()
    ensures { (wants : Wants) (v new : CoreValue) (step : Step F T) (result : Result T (Halt F)) (first : List ℕ) (bodies : List (List ℕ)) → v.log.bodies ≡ first ∷ bodies → MeetsAs wants (manager_of v) step result (manager_of new)
        → WritesLog v step result new → Tells v.log.bodies v.plain → StepHarmless step v.plain → StepRead step → TellsAfter step result new }
{}
