//! What a unit needs of the log.

ghost use Rattle.std.specs.Prelude.{◌≡◌, List};
ghost use Rattle.mq_record.specs.from_calls.{Item};
ghost use Rattle.mq_record.specs.from_calls.Words.{unit_need};
ghost use Rattle.mq_spec_manager.specs.Units.{adds_of, removes_of, record_of};
ghost use Rattle.mq_unit.specs.Forced.{need_of};

/// A unit needs what its record takes of the log; nothing where it has no persistent item, for then it forces no record.
pub fn a_unit_needs_its_record()
    ensures { (items : List Item) → need_of (record_of (adds_of items) (removes_of items)) ≡ unit_need items }
{}
