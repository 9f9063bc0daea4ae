//! Scripted faults of one direction, and which one is on a frame.
ghost use Rattle.std.specs.Prelude.{◌≡◌};
ghost use Rattle.mq_cable.specs.Faults.{names, fault_of};

/// A scripted fault of one direction of a cable, on its k-th offered frame, from 1 (this project's choice). The
/// first number is k.
#[derive(Clone, Copy)]
pub enum Fault {
    /// It is not pushed.
    Drop(u32),
    /// It is pushed only after this later frame.
    Late(u32, u32),
    /// It is pushed, and again after this frame, itself or a later one.
    Copy(u32, u32),
    /// It is pushed with hex ff as its first byte.
    Spoil(u32),
}

/// The faults of one direction. Of two on one frame the first in the list counts.
pub type Faults = mq_message::below::Items<Fault>;

/// Whether a fault is on the frame of that number.
fn names(frame: u64, fault: Fault) -> bool
    ensures { result ≡ names frame fault }
{
    match fault {
        Fault::Drop(on) => on as u64 == frame,
        Fault::Late(on, _) => on as u64 == frame,
        Fault::Copy(on, _) => on as u64 == frame,
        Fault::Spoil(on) => on as u64 == frame,
    }
}

/// The fault on the frame of that number.
pub fn fault_of(faults: &[Fault], frame: u64) -> Option<Fault>
    ensures { result ≡ fault_of frame faults.now }
{
    faults.iter().copied().find(|fault| names(frame, *fault))
}
