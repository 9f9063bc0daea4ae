//! Laws of records and their bytes.

ghost use Rattle.std.specs.Prelude.{◌≡◌, ◌++◌, ℕ, List, length, Ok};
ghost use Rattle.mq_calls.specs.declared.records.LogRecord.{LogRecord};
ghost use Rattle.mq_calls.specs.Sizes.{record_size};
ghost use Rattle.mq_record.specs.declared.record.WrittenRecord.{WrittenRecord};
ghost use Rattle.mq_record.specs.Records.{IsRecord, IsWritten, IsBodyOf, record_bytes, body_bytes};
ghost use Rattle.mq_record.specs.Reading.{record_at};

/// What is written is read back, whatever stands behind it.
pub fn what_is_written_is_read_back()
    ensures { (w : WrittenRecord) (rest : List ℕ) → IsWritten w → record_at (body_bytes w ++ rest) ≡ Ok (w, rest) }
{}

/// No record's bytes begin another's: which record begins some bytes, and what stands behind it, is told by
/// the bytes alone.
pub fn no_record_begins_another()
    ensures { (w other : WrittenRecord) (rest left : List ℕ) → IsWritten w → IsWritten other → body_bytes w ++ rest ≡ body_bytes other ++ left → (w ≡ other) × (rest ≡ left) }
{}

/// A body is one record at most.
pub fn a_body_is_one_record()
    ensures { (body : List ℕ) (w other : WrittenRecord) → IsBodyOf w body → IsBodyOf other body → w ≡ other }
{}

/// A record has as many bytes as its size says.
pub fn records_have_their_sizes()
    ensures { (r : LogRecord) → IsRecord r → length (record_bytes r) ≡ record_size r }
{}
