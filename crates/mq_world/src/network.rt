//! A network: real nodes, over which the steps of their scenario run.
ghost use Rattle.std.specs.Prelude.{◌≡◌, MatchResult};
ghost use Rattle.mq_world.specs.Words as words;

use crate::parts::NetParts;
use crate::resting::RestRoom;
use crate::starting::{StartRoom, nodes_of, start_room};
use mq_base::{Items, NoMemory};
use mq_disk::Disk;
use mq_gate::Gate;
use mq_history::{Scenario, ScriptPart};
use mq_nodes::{Advanced, Monitored, Nodes, Stop};
use mq_sc_parse::Command;
use mq_world_begin::Rested;
use std::alloc::Global;
use std::marker::Model;
use std::sync::Wait;
use std::thread::Threads;

/// The nodes of a scenario's managers, each with its history, how far its scripts are, and what lies on its cables.
#[derive(Drop)]
pub struct Network<D: Disk> {
    parts: NetParts<D>,
    room: RestRoom<D>,
}

impl<D: Disk> Model for Network<D> {
    ghost use Rattle.std.specs.Prelude.{◌≤◌, length};
    ghost use Rattle.mq_world.specs.Words as words;

    ghost Value = { words.NetState };

    ghost view = { λ n. n.parts };

    ghost invariant = { λ n. words.IsNetwork n.parts × (length n.parts.nodes ≤ n.room) × (D.tells → words.AreOwn (words.histories_in n.parts)) };
}

impl<D: Disk> Network<D> {
    /// A network starts from managers at rest of which nothing has happened.
    ///
    /// # Errors
    ///
    /// No memory: the managers as they were.
    pub fn start(
        alloc: Global,
        scenario: &Scenario,
        rested: Rested<D>,
    ) -> Result<Network<D>, Rested<D>>
        requires same { rested.scenario ≡ scenario.now }
        requires fresh { words.IsFresh rested }
        requires texts { words.AllFit words.IsTextCommand scenario.now }
        ensures { MatchResult result (λ n. words.Starts rested n) (λ back. back ≡ rested) }
    {
        let StartRoom {
            nodes,
            rooms,
            scripts,
            lines,
            cables,
            handlers,
            monitors,
        } = match start_room(alloc, scenario, rested.managers.len()) {
            Ok(room) => room,
            Err(NoMemory) => return Err(rested),
        };
        let Rested {
            scenario: whole,
            managers,
            owns,
            histories,
            disks,
        } = rested;
        let room = match RestRoom::take(alloc, managers.len(), disks) {
            Ok(room) => room,
            Err(disks) => {
                return Err(Rested {
                    scenario: whole,
                    managers,
                    owns,
                    histories,
                    disks,
                });
            }
        };
        let nodes = nodes_of(alloc, scenario, managers, owns, histories, rooms, nodes);
        Ok(Network {
            parts: NetParts {
                alloc,
                scenario: whole,
                nodes: Items::from_vec(nodes),
                scripts,
                lines,
                cables,
                handlers,
                monitors,
            },
            room,
        })
    }

    /// The nodes come to rest; what lies on the cables is lost. Over disks that tell their bytes, no restart read a log that was
    /// changed from outside. It takes no memory.
    pub fn rest(self) -> Rested<D>
        ensures rests { result ≡ words.rest_of self.scenario self.nodes }
        ensures own { D.tells → words.AreOwn result.histories }
        // Each disk failed at least as often as its manager's history tells.
        ensures risen { words.IsRisen result }
    {
        let Network { parts, room } = self;
        let NetParts {
            alloc: _,
            scenario,
            nodes,
            scripts: _,
            lines: _,
            cables: _,
            handlers: _,
            monitors: _,
        } = parts;
        room.fill(scenario, nodes)
    }
}

impl<D: Disk + Send> Network<D> {
    /// Scripts and the ends of channels go on in threads: each manager does lines of these scripts, with turns and timeouts of its
    /// channels' ends between them. No clock advances. Lines may be left; the next one of each of these scripts, where it is a get,
    /// keeps its deadline. The gate is passed before each try of a line.
    ///
    /// # Errors
    ///
    /// No memory: events that were done stand. A node has made all its events.
    pub fn phase<R: Threads + Wait + Sync, G: Gate + Sync>(
        &mut self,
        rt: &R,
        gate: &G,
        scenario: &Scenario,
        scripts: &[u16],
    ) -> Result<(), Stop>
        requires ready { words.Ready (words.course_in self.old).net }
        requires rests { words.Rests (words.course_in self.old) }
        requires same { self.old.scenario ≡ scenario.now }
        requires phased { words.ArePhased scenario.now scripts.now }
        ensures { words.PhaseTold scripts.now result (words.course_in self.old) (words.course_in self.new) }
    {
        self.parts.run_phase(rt, gate, scenario, scripts)
    }
}

impl<D: Disk> Nodes for Network<D> {
    ghost use Rattle.mq_world.specs.Words as words;

    ghost course = { words.course_in };

    ghost may_obey = { words.IsTextCommand };

    fn managers(&self) -> u16 {
        self.parts.managers()
    }

    fn moment(&self, manager: u16) -> u64 {
        self.parts.moment(manager)
    }

    fn obey(&mut self, manager: u16, command: &Command) -> Result<(), Stop> {
        self.parts.obey(manager, command)
    }

    fn advance_clock(&mut self, manager: u16, ms: u64) -> Result<(), Stop> {
        self.parts.advance_clock(manager, ms)
    }

    fn advance(&mut self, script: u16, part: &ScriptPart) -> Result<Advanced, Stop> {
        self.parts.advance(script, part)
    }

    fn cables(&self) -> u16 {
        self.parts.cables()
    }

    fn sender_turn(&mut self, cable: u16) -> Result<bool, Stop> {
        self.parts.sender_turn(cable)
    }

    fn receiver_turn(&mut self, cable: u16) -> Result<bool, Stop> {
        self.parts.receiver_turn(cable)
    }

    fn timeout(&mut self, cable: u16) -> Result<bool, Stop> {
        self.parts.timeout(cable)
    }

    fn is_idle(&self) -> bool {
        self.parts.is_idle()
    }

    fn handler_turn(&mut self, rules: u16) -> Result<bool, Stop> {
        self.parts.handler_turn(rules)
    }

    fn handler_idle(&self, rules: u16) -> bool {
        self.parts.handler_idle(rules)
    }

    fn monitor_turn(&mut self, monitor: u16) -> Result<Monitored, Stop> {
        self.parts.monitor_turn(monitor)
    }

    fn watch(&mut self, monitor: u16) -> Result<(), Stop> {
        self.parts.watch(monitor)
    }

    fn is_up(&self, manager: u16) -> bool {
        self.parts.is_up(manager)
    }

    fn crash(&mut self, manager: u16) -> Result<(), Stop> {
        self.parts.crash(manager)
    }

    fn restart(&mut self, manager: u16) -> Result<bool, Stop> {
        self.parts.restart(manager)
    }

    fn cut(&mut self, manager: u16, device_calls: u32) -> Result<(), Stop> {
        self.parts.cut(manager, device_calls)
    }

    fn mark(&mut self, idle: bool) {
        self.parts.mark(idle);
    }
}
