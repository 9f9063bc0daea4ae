//! Turns of a cable's two ends: at their node, with the trigger turns behind them, and in the network.
ghost use Rattle.std.specs.Prelude.{◌≡◌, ◌<◌, ◌^◌, length};
ghost use Rattle.mq_world.specs.Words as words;
ghost use Rattle.mq_history.specs.declared.calls.Actor.TheVariants as actors;

use crate::idling::line_at;
use crate::parts::NetParts;
use crate::settling::settle;
use mq_base::NoMemory;
use mq_cable::Near;
use mq_disk::Disk;
use mq_nodes::Stop;
use mq_shared::below::{Turn, receiver_turn, sender_turn};
use mq_watch::below::Node;
use mq_ways::Cable;

/// A turn begins: no push and no fetch was refused yet.
fn begin(wire: &mut Near)
    ensures read { wire.new.read ≡ wire.old.read }
    ensures write { wire.new.write ≡ wire.old.write }
{
    wire.fulls = 0;
    wire.empties = 0;
}

/// The two directions change places: so the other end has them.
fn turn_round(wire: &mut Near)
    ensures read { wire.new.read ≡ wire.old.write }
    ensures write { wire.new.write ≡ wire.old.read }
{
    std::mem::swap(&mut wire.read, &mut wire.write);
}

/// The turn of a cable's sender at its node.
fn near_turn<D: Disk>(node: &mut Node<D>, ways: &mut Cable, cable: u16) -> Result<Turn, NoMemory>
    requires served { words.IsServed node.old }
    requires may { words.MayAct node.old }
    requires low { words.AllLow ways.old.back.items }
    requires count { ways.old.out.offers.number < 2 ^ 48 }
    ensures told { words.SideTurn (actors.Sender cable) (words.near_sides ways.old) (words.near_sides ways.new) node.old result node.new }
    ensures leaves { ways.new.back.offers ≡ ways.old.back.offers }
{
    begin(&mut ways.wire);
    sender_turn(node, &mut ways.out, &mut ways.wire, cable)
}

/// The turn of its receiver.
fn far_turn<D: Disk>(node: &mut Node<D>, ways: &mut Cable, cable: u16) -> Result<Turn, NoMemory>
    requires served { words.IsServed node.old }
    requires may { words.MayAct node.old }
    requires low { words.AllLow ways.old.out.items }
    requires count { ways.old.back.offers.number < 2 ^ 48 }
    ensures told { words.SideTurn (actors.Receiver cable) (words.far_sides ways.old) (words.far_sides ways.new) node.old result node.new }
    ensures leaves { ways.new.out.offers ≡ ways.old.out.offers }
{
    begin(&mut ways.wire);
    turn_round(&mut ways.wire);
    let turn = receiver_turn(node, &mut ways.back, &mut ways.wire, cable);
    turn_round(&mut ways.wire);
    turn
}

/// A cable's sender takes a turn at its node, if it changes something: whether it did.
#[tactic(auto, using(crate::proofs::EndLaws::end_none, crate::proofs::EndLaws::end_still, crate::proofs::EndLaws::end_then))]
fn sender_on<D: Disk>(
    node: &mut Node<D>,
    manager: u16,
    ways: &mut Cable,
    cable: u16,
) -> Result<bool, Stop>
    requires served { words.IsServed node.old }
    requires may { words.MayAct node.old }
    requires low { words.AllLow ways.old.back.items }
    requires count { ways.old.out.offers.number < 2 ^ 48 }
    ensures { words.EndOn (actors.Sender cable) manager (words.near_sides ways.old) (words.near_sides ways.new) node.old result node.new }
{
    match near_turn(node, ways, cable) {
        Err(NoMemory) => Err(Stop::NoMemory),
        Ok(Turn::Still) => Ok(false),
        Ok(Turn::Changed) => settle(node, manager, true),
    }
}

/// Its receiver does.
#[tactic(auto, using(crate::proofs::EndLaws::end_none, crate::proofs::EndLaws::end_still, crate::proofs::EndLaws::end_then))]
fn receiver_on<D: Disk>(
    node: &mut Node<D>,
    manager: u16,
    ways: &mut Cable,
    cable: u16,
) -> Result<bool, Stop>
    requires served { words.IsServed node.old }
    requires may { words.MayAct node.old }
    requires low { words.AllLow ways.old.out.items }
    requires count { ways.old.back.offers.number < 2 ^ 48 }
    ensures { words.EndOn (actors.Receiver cable) manager (words.far_sides ways.old) (words.far_sides ways.new) node.old result node.new }
{
    match far_turn(node, ways, cable) {
        Err(NoMemory) => Err(Stop::NoMemory),
        Ok(Turn::Still) => Ok(false),
        Ok(Turn::Changed) => settle(node, manager, true),
    }
}

impl<D: Disk> NetParts<D> {
    /// The sender of a cable takes a turn, if it changes something: whether it did.
    pub fn sender_turn(&mut self, cable: u16) -> Result<bool, Stop>
        requires kept { words.IsNetwork self.old }
        requires ready { words.Ready (words.course_in self.old).net }
        requires there { cable < length self.old.scenario.cables }
        ensures kept { words.IsNetwork self.new }
        ensures told { words.TurnIn words.Sends cable result (words.course_in self.old) (words.course_in self.new) }
        ensures own { D.tells → words.StaysOwnIn self.old self.new }
        ensures long { length self.new.nodes ≡ length self.old.nodes }
    {
        let manager = line_at(&self.lines, cable).sender;
        let place = usize::from(manager);
        let at = usize::from(cable);
        let node = self.nodes.at_mut(place);
        let ways = self.cables.at_mut(at);
        sender_on(node, manager, ways, cable)
    }

    /// The receiver of a cable, likewise.
    pub fn receiver_turn(&mut self, cable: u16) -> Result<bool, Stop>
        requires kept { words.IsNetwork self.old }
        requires ready { words.Ready (words.course_in self.old).net }
        requires there { cable < length self.old.scenario.cables }
        ensures kept { words.IsNetwork self.new }
        ensures told { words.TurnIn words.Receives cable result (words.course_in self.old) (words.course_in self.new) }
        ensures own { D.tells → words.StaysOwnIn self.old self.new }
        ensures long { length self.new.nodes ≡ length self.old.nodes }
    {
        let manager = line_at(&self.lines, cable).receiver;
        let place = usize::from(manager);
        let at = usize::from(cable);
        let node = self.nodes.at_mut(place);
        let ways = self.cables.at_mut(at);
        receiver_on(node, manager, ways, cable)
    }
}
