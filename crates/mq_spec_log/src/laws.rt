//! Laws of images.

ghost use Rattle.std.specs.Prelude.{◌≡◌, ◌∷◌, [], ◌++◌, ℕ, List, true, Ok};
ghost use Rattle.mq_record.specs.from_calls.{Image, LogRecord};
ghost use Rattle.mq_record.specs.Records.{IsRecord, IsOther, record_bytes};
ghost use Rattle.std.specs.Prelude.{Some};
ghost use Rattle.mq_record.specs.from_calls.State.{Given};
ghost use Rattle.mq_spec_log.specs.Applies.{Start, applies};
ghost use Rattle.mq_spec_log.specs.Records.{doing};
ghost use Rattle.mq_spec_log.specs.Bodies.{image, record_of};

/// A record that doesn't change objects is read from its own bytes; and where a log has an image, the log with a
/// record more that applies has the image behind it.
pub fn bodies_are_read_one_after_another()
    ensures records { (r : LogRecord) → IsOther r → IsRecord r → record_of (record_bytes r) ≡ Some r }
    ensures more { (g : Given) (start : Start) (body : List ℕ) (bodies : List (List ℕ)) (next : List ℕ) (r : LogRecord) (i : Image) → image g start (body ∷ bodies) ≡ Ok i → record_of next ≡ Some r → applies g start r i ≡ true → image g start (body ∷ bodies ++ next ∷ []) ≡ Ok (doing r i) }
{}
