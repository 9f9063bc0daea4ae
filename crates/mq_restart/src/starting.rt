//! Why a restart that comes up is what the manager's history says.
ghost use Rattle.std.specs.Prelude.{◌≡◌, ◌≢◌, ◌+◌, ◌<◌, ◌≤◌, ◌^◌, ℕ, Bool, List, Option};
ghost use Rattle.mq_log.specs.declared.images.Found.{Found};
ghost use Rattle.mq_log.specs.declared.images.Found.TheVariants.{Other};
ghost use Rattle.mq_log.specs.State.{LogState};
ghost use Rattle.mq_calls.specs.State.{Noted, Plain};
ghost use Rattle.mq_spec_manager.specs.Stops.{restarted, CanReturnTold};
ghost use Rattle.mq_spec_manager.specs.Words.{last_moment};
ghost use Rattle.mq_spec_log.specs.Applies.Start.{Later};
ghost use Rattle.mq_rebuild.specs.declared.building.Built.{Built};
ghost use Rattle.mq_redo.specs.from_core.{ReadLog};
ghost use Rattle.mq_redo.specs.from_core.Ties.{Tied};
ghost use Rattle.mq_redo.specs.from_core.Views.{PartsValue, plain_of};
ghost use Rattle.mq_restart.specs.Begun.{begun_parts, IsReadFrom};
ghost use Rattle.mq_restart.specs.Tells.{HasRestarted, LogStood, Stood, kept_of};
ghost use Rattle.mq_restart.specs.declared.reading.Unraised.{Unraised};
ghost use Rattle.mq_restart.specs.Raised.{Raises, Fell, ComesUp, read_after, starts_after, fails_as};

use mq_disk::Disk;

/// What is built from a log that tells what lasts of a manager is, behind the Started record of its restart, just the manager
/// that comes up by its history: with the noted write or without it, behind the Started records of restarts that were
/// stopped. And its parts are tied to one another.
pub fn a_restart_comes_up_as_its_history_says()
    ensures seen { (kept : Bool) (started : ℕ) (noted : Option Noted) (starts : ℕ) (found : List (List ℕ)) (p : Plain) (b : Built) (log : LogState) → Stood kept started noted starts found p → IsReadFrom p.given Later found b → HasRestarted p found b log → plain_of (begun_parts p.given.number p.given.name p.moment b log) ≡ restarted kept started noted p }
    ensures tied { (found : List (List ℕ)) (p : Plain) (b : Built) (log : LogState) → IsReadFrom p.given Later found b → HasRestarted p found b log → p.given.log_max < 2 ^ 32 → p.moment ≤ last_moment → Tied (begun_parts p.given.number p.given.name p.moment b log) }
{}

/// A restart whose log stands as the manager's history says (`LogStood`) keeps to that history. Where it comes up, it is just the
/// manager of that history, and `kept` is as the body at its place says. Where it is refused, over a disk that tells its bytes, the
/// log stands as the history then says; it has found no bad log, and the calls of its disk are those of such a restart.
pub fn a_restart_keeps_to_its_history<D: Disk>()
    ensures comes { (read : Option ReadLog) (noted : Option Noted) (starts : ℕ) (x y : PartsValue) (found : Found) → Raises D.tells x found y → found ≢ Other → Tied x → LogStood read noted starts x.log.bodies x.log.pending (plain_of x) → ComesUp (kept_of read found) noted starts x y }
    ensures falls { D.tells → (read : Option ReadLog) (noted : Option Noted) (starts : ℕ) (x y : PartsValue) (e : Unraised) → Fell D.tells x e y → LogStood read noted starts x.log.bodies x.log.pending (plain_of x) → x.incarnation + starts + 1 < 2 ^ 61
        → LogStood (read_after read e.found (plain_of x).log.length) noted (starts_after e.in_write starts) y.log.bodies y.log.pending (plain_of x) }
    ensures calls { D.tells → (read : Option ReadLog) (noted : Option Noted) (starts : ℕ) (x y : PartsValue) (e : Unraised) → Fell D.tells x e y → LogStood read noted starts x.log.bodies x.log.pending (plain_of x) → CanReturnTold (fails_as e y.log.armed) noted starts x.log.armed }
{}
