//! What holds of all frames, as functions with empty bodies whose contracts are the theorems.

ghost use Rattle.std.specs.Prelude.{◌≡◌, ◌++◌, ℕ, List};
ghost use Rattle.mq_frame.specs.declared.frame.Frame.{Frame};
ghost use Rattle.mq_frame.specs.declared.frame.Seen.{Seen};
ghost use Rattle.mq_frame.specs.Sight.{Shows};
ghost use Rattle.mq_frame.specs.Frames.{frame_bytes, IsFrame, IsCut, IsBadAt, MayGoOn};

/// No spelling of a frame begins another: which frame begins some bytes, and what stands behind it, is
/// told by the bytes alone.
pub fn no_frame_begins_another()
    ensures { (frame other : Frame) (rest left : List ℕ) → IsFrame frame → IsFrame other → frame_bytes frame ++ rest ≡ frame_bytes other ++ left → (frame ≡ other) × (rest ≡ left) }
{}

/// Bytes are frames and a part of one in one way alone, so it doesn't matter in which pieces they came.
pub fn bytes_are_cut_in_one_way()
    ensures { (bytes : List ℕ) (frames others : List Frame) (rest left : List ℕ) → IsCut bytes frames rest → IsCut bytes others left → (frames ≡ others) × (rest ≡ left) }
{}

/// What is frames and a part of one may go on as frames; what went wrong at a place can't, however it goes
/// on. So a decoder answers a wrong byte exactly where no continuation is a list of frames.
pub fn wrong_bytes_never_go_on()
    ensures cut { (bytes : List ℕ) (frames : List Frame) (rest : List ℕ) → IsCut bytes frames rest → MayGoOn bytes }
    ensures bad { (bytes : List ℕ) (place : ℕ) → IsBadAt bytes place → MayGoOn bytes → ⊥ }
{}

/// An item's bytes show one thing alone. So what an end sees of a frame's own bytes is that frame.
pub fn bytes_show_one_thing()
    ensures { (bytes : List ℕ) (seen other : Seen) → Shows bytes seen → Shows bytes other → seen ≡ other }
{}
