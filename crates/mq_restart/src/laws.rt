//! Why a log goes on to stand behind what is not a restart.
ghost use Rattle.std.specs.Prelude.{◌≡◌, ℕ, ◌+◌, true, List, ◌∷◌, Option, Some, None, length};
ghost use Rattle.mq_calls.specs.declared.records.LogRecord.{LogRecord};
ghost use Rattle.mq_record.specs.Records.{record_bytes};
ghost use Rattle.mq_calls.specs.Sizes.{need};
ghost use Rattle.mq_calls.specs.State.{Plain};
ghost use Rattle.mq_calls.specs.State.Running.{Up};
ghost use Rattle.mq_calls.specs.Steps.{Part, freeze, note_of};
ghost use Rattle.mq_spec_manager.specs.Stops.{advance_clock, cut, stop};
ghost use Rattle.mq_spec_log.specs.Applies.{is_in_bounds};
ghost use Rattle.mq_spec_log.specs.Applies.Start.{Later};
ghost use Rattle.mq_spec_log.specs.Bodies.{record_of};
ghost use Rattle.mq_law_image.specs.from_law_log.Restarts.{IsGivenIn, IsHarmless};
ghost use Rattle.mq_redo.specs.from_core.Values.{LogBodies};
ghost use Rattle.mq_restart.specs.declared.reading.LogRead.{LogRead};
ghost use Rattle.mq_restart.specs.declared.reading.LogRead.TheVariants.{Unread};
ghost use Rattle.mq_restart.specs.Stands.{LogStands, StandsUp};

use mq_disk::Disk;

/// A cut that is armed and a clock that moves leave what a log tells (`LogStands`); a stop of a manager that is up takes it to what it
/// then tells; and so does a write that was stopped, whose part makes a crash harmless and whose record is read from its bytes.
pub fn a_log_stands_behind_each_stop<D: Disk>()
    ensures cuts { (read : LogRead) (log : LogBodies) (k : ℕ) (p : Plain) → LogStands D.tells read log p → LogStands D.tells read log (cut k p) }
    ensures clock { (read : LogRead) (log : LogBodies) (by : ℕ) (p : Plain) → LogStands D.tells read log p → LogStands D.tells read log (advance_clock by p) }
    ensures stops { (log : LogBodies) (p : Plain) → p.running ≡ Up → StandsUp log p → LogStands D.tells Unread log (stop p).next }
    ensures breaks { (first : List ℕ) (bodies : List (List ℕ)) (r : LogRecord) (part : Part) (left : ℕ) (p : Plain) → StandsUp (record { bodies = first ∷ bodies; pending = None }) p → part.forced ≡ Some r → IsHarmless part p → IsGivenIn part.forced p
        → record_of (record_bytes r) ≡ Some r → is_in_bounds Later r ≡ true → length (record_bytes r) + 5 ≡ need r → LogStands D.tells Unread (record { bodies = first ∷ bodies; pending = Some (record_bytes r) }) (freeze (note_of part part.forced) left p) }
{}
