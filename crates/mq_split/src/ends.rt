//! An end of a cable that threads share.
use mq_cable::Offers;
use mq_ruled::Ruled;
use std::marker::Model;
use std::sync::Wait;

/// An end of a cable in a phase, at its manager.
#[derive(Drop)]
pub struct HeldEnd<'a, R: Wait> {
    /// The cable's place in the scenario.
    pub cable: u16,
    /// Whether it is the sender's end.
    pub sends: bool,
    /// What was offered on the direction that it writes.
    pub offers: Offers,
    /// Both directions.
    pub wire: Ruled<'a, R>,
}

impl<'a, R: Wait> Model for HeldEnd<'a, R> {
    ghost use Rattle.mq_split.specs.Took.{EndState};

    ghost Value = { EndState };

    ghost view = { λ e. record { cable = e.cable; sends = e.sends; offers = e.offers; wire = e.wire } };
}
