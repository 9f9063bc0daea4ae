//! A script of a phase, as it lies under a lock beside the node and the ends of cables.
use mq_history::ScriptPart;
use mq_progress::Progress;
use std::marker::Model;

/// A script in a phase, at its manager.
#[derive(Drop)]
pub struct HeldScript<'a> {
    /// Its place in the scenario.
    pub script: u16,
    /// Its lines.
    pub part: &'a ScriptPart,
    /// The moment with which the phase began at its manager, in milliseconds since 1970.
    pub moment: u64,
    /// How far it is.
    pub progress: Progress,
}

impl<'a> Model for HeldScript<'a> {
    ghost use Rattle.mq_shared.specs.Held.{ScriptState};

    ghost Value = { ScriptState };

    ghost view = { λ s. record { script = s.script; part = s.part.now; moment = s.moment; course = s.progress } };
}
