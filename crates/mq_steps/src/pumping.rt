//! PUMP: turns of channel ends in rounds, cable by cable; after a round of none, timeouts; until so many are taken, or nothing
//! can change.
ghost use Rattle.std.specs.Prelude.{◌≡◌, ◌≤◌, ◌<◌, ◌∷◌, [], false, None, IfOk, length};
ghost use Rattle.mq_spec_network.specs.Turns.{is_idle};
ghost use Rattle.mq_spec_network.specs.Tasks.Slot.{Sends, Receives, TimesOut};
ghost use Rattle.mq_spec_network.specs.Tasks.Task.{Pump};
ghost use Rattle.mq_nodes.specs.Course.{Ready};
ghost use Rattle.mq_nodes.specs.Told.{Part};
ghost use Rattle.mq_nodes.specs.Pumps.{TurnsIn, RoundTold, TurnsStill, TimeoutsStill, AllStill, pumping, round_then, from_start};
ghost use Rattle.mq_steps.specs.Counts.{Counts, RoundsTold, Took, left_by, pumped_then, without_number};

use mq_base::NoMemory;
use mq_nodes::{Nodes, Stop};

/// What a PUMP did.
#[derive(Clone, Copy)]
pub struct Pumped {
    /// The turns and timeouts that changed something.
    pub turns: u32,
    /// Whether nothing can change now.
    pub idle: bool,
    /// The manager that made its last event by the last of these turns, a place from 0.
    pub spent: Option<u16>,
}

/// Why a pump's turns break off.
#[derive(Clone, Copy)]
pub(crate) enum Halt {
    NoMemory,
    /// This manager has made its last event; so many turns are left behind it.
    Spent(u16, u32),
}

/// So many turns are left after one that was tried.
fn left_after(turn: Result<bool, Stop>, left: u32) -> Result<u32, Halt>
    requires any { 0 < left }
    ensures { result ≡ left_by turn left }
{
    match turn {
        Ok(true) => Ok(left - 1),
        Ok(false) => Ok(left),
        Err(Stop::NoMemory) => Err(Halt::NoMemory),
        Err(Stop::Spent(manager)) => Err(Halt::Spent(manager, left - 1)),
    }
}

/// The sender of a cable takes a turn, if it changes something and turns are left: so many are left then.
fn sends<N: Nodes>(nodes: &mut N, cable: u16, left: u32) -> Result<u32, Halt>
    requires ready { Ready (N.course nodes.old).net }
    requires there { cable < length (N.course nodes.old).net.scenario.cables }
    ensures told { TurnsIn Sends cable left (without_number result) (N.course nodes.old) (N.course nodes.new) }
    ensures counted { Counts left result (N.course nodes.old) (N.course nodes.new) }
{
    if left == 0 {
        return Ok(0);
    }
    left_after(nodes.sender_turn(cable), left)
}

/// The receiver of a cable, likewise.
fn receives<N: Nodes>(nodes: &mut N, cable: u16, left: u32) -> Result<u32, Halt>
    requires ready { Ready (N.course nodes.old).net }
    requires there { cable < length (N.course nodes.old).net.scenario.cables }
    ensures told { TurnsIn Receives cable left (without_number result) (N.course nodes.old) (N.course nodes.new) }
    ensures counted { Counts left result (N.course nodes.old) (N.course nodes.new) }
{
    if left == 0 {
        return Ok(0);
    }
    left_after(nodes.receiver_turn(cable), left)
}

/// A timeout comes to the sender of a cable, likewise.
fn times_out<N: Nodes>(nodes: &mut N, cable: u16, left: u32) -> Result<u32, Halt>
    requires ready { Ready (N.course nodes.old).net }
    requires there { cable < length (N.course nodes.old).net.scenario.cables }
    ensures told { TurnsIn TimesOut cable left (without_number result) (N.course nodes.old) (N.course nodes.new) }
    ensures counted { Counts left result (N.course nodes.old) (N.course nodes.new) }
{
    if left == 0 {
        return Ok(0);
    }
    left_after(nodes.timeout(cable), left)
}

/// A round: each cable gets a sender's turn and a receiver's, as long as any turn is left. So many are left then.
fn round<N: Nodes>(nodes: &mut N, most: u32) -> Result<u32, Halt>
    requires ready { Ready (N.course nodes.old).net }
    ensures told { RoundTold (pumping most Sends 0 false) round_then TurnsStill most (without_number result) (N.course nodes.old) (N.course nodes.new) }
    ensures counted { Counts most result (N.course nodes.old) (N.course nodes.new) }
{
    let mut left = most;
    for cable in 0..nodes.cables() {
        left = sends(nodes, cable, left)?;
        left = receives(nodes, cable, left)?;
    }
    Ok(left)
}

/// Each sender that waits for an answer gets a timeout, as long as any turn is left. So many are left then.
fn timeouts<N: Nodes>(nodes: &mut N, most: u32) -> Result<u32, Halt>
    requires ready { Ready (N.course nodes.old).net }
    ensures told { RoundTold (pumping most TimesOut 0 false) from_start TimeoutsStill most (without_number result) (N.course nodes.old) (N.course nodes.new) }
    ensures counted { Counts most result (N.course nodes.old) (N.course nodes.new) }
{
    let mut left = most;
    for cable in 0..nodes.cables() {
        left = times_out(nodes, cable, left)?;
    }
    Ok(left)
}

/// A round, and where no turn was taken in it, timeouts. So many turns are left then.
fn turns_of_round<N: Nodes>(nodes: &mut N, most: u32) -> Result<u32, Halt>
    requires ready { Ready (N.course nodes.old).net }
    ensures told { RoundTold (pumping most Sends 0 false) from_start AllStill most (without_number result) (N.course nodes.old) (N.course nodes.new) }
    ensures counted { Counts most result (N.course nodes.old) (N.course nodes.new) }
{
    let left = round(nodes, most)?;
    if left < most {
        return Ok(left);
    }
    timeouts(nodes, left)
}

/// Takes so many turns, or as many as there are until nothing can change. So many are left then.
fn rounds<N: Nodes>(nodes: &mut N, turns: u32) -> Result<u32, Halt>
    requires ready { Ready (N.course nodes.old).net }
    ensures told { RoundsTold turns result (N.course nodes.old) (N.course nodes.new) }
    ensures counted { Counts turns result (N.course nodes.old) (N.course nodes.new) }
{
    let mut left = turns;
    for _ in 0..turns {
        let rest = turns_of_round(nodes, left)?;
        if rest == left {
            return Ok(left);
        }
        left = rest;
    }
    Ok(left)
}

/// Takes so many turns, or as many as there are until nothing can change, or until a manager makes its last event.
pub fn pump<N: Nodes>(nodes: &mut N, turns: u32) -> Result<Pumped, NoMemory>
    requires ready { Ready (N.course nodes.old).net }
    ensures told { Part (Pump turns Sends 0 false ∷ []) (pumped_then result) (N.course nodes.old) (N.course nodes.new) }
    ensures idle { IfOk result (λ pumped. pumped.idle ≡ is_idle (N.course nodes.new).net) }
    ensures taken { IfOk result (λ pumped. (pumped.turns ≤ turns) × Took (N.course nodes.old).net pumped.turns (N.course nodes.new).net) }
    ensures all { IfOk result (λ pumped. pumped.idle ≡ false → pumped.spent ≡ None → pumped.turns ≡ turns) }
{
    match rounds(nodes, turns) {
        Ok(left) => Ok(Pumped {
            turns: turns - left,
            idle: nodes.is_idle(),
            spent: None,
        }),
        Err(Halt::Spent(manager, left)) => Ok(Pumped {
            turns: turns - left,
            idle: nodes.is_idle(),
            spent: Some(manager),
        }),
        Err(Halt::NoMemory) => Err(NoMemory),
    }
}
