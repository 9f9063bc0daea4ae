//! A network comes to rest: its nodes are taken apart into managers, what is their own, and histories.
ghost use Rattle.std.specs.Prelude.{◌≡◌, ◌≤◌, ◌<◌, ◌+◌, [], MatchResult, length, vec_len, vec_capacity};
ghost use Rattle.mq_world.specs.Words as words;

use mq_base::Items;
use mq_disk::Disk;
use mq_history::{History, Scenario};
use mq_idle::below::Manager;
use mq_own::Own;
use mq_watch::below::{Node, NodeParts, Opening};
use mq_world_begin::Rested;
use std::alloc::Global;
use std::marker::Model;
use std::snapshot::Snapshot;

/// Room for the parts of nodes, once they rest.
#[derive(Drop)]
pub struct RestRoom<D: Disk> {
    managers: Vec<Manager<D>>,
    owns: Vec<Own>,
    histories: Vec<History>,
    disks: Vec<D>,
    most: usize,
}

impl<D: Disk> Model for RestRoom<D> {
    ghost use Rattle.std.specs.Prelude.{◌≡◌, ◌≤◌, ◌+◌, ℕ, [], vec_len, vec_capacity};

    ghost Value = { ℕ };

    ghost view = { λ r. r.most };

    ghost invariant = { λ r. (r.managers.items ≡ []) × (vec_len r.managers + r.most ≤ vec_capacity r.managers) × (r.owns.items ≡ []) × (vec_len r.owns + r.most ≤ vec_capacity r.owns) × (r.histories.items ≡ []) × (vec_len r.histories + r.most ≤ vec_capacity r.histories) × (r.disks.items ≡ []) × (vec_len r.disks + r.most + 1 ≤ vec_capacity r.disks) };
}

/// The parts of a node that rests.
#[derive(Drop)]
struct NodeRest<D: Disk> {
    manager: Manager<D>,
    own: Own,
    history: History,
}

/// A node is taken apart. It takes no memory.
fn rest_node<D: Disk>(node: Node<D>) -> NodeRest<D>
    ensures manager { result.manager ≡ words.manager_in node }
    ensures own { result.own ≡ words.own_in node }
    ensures history { result.history ≡ words.history_in node }
    ensures risen { words.HasRisen result.history.entries result.manager.faults }
{
    let Node { parts } = node;
    let NodeParts {
        alloc: _,
        manager,
        own,
        first: _,
        opening,
        entries,
        marks,
        stamp: _,
        few: _,
    } = parts;
    let Opening {
        number,
        name,
        log_max: _,
        image,
        length,
        moment,
    } = opening;
    NodeRest {
        manager,
        own,
        history: History {
            number,
            name,
            opening: image,
            length,
            moment,
            entries: Items::from_vec(entries.into_vec()),
            marks: Items::from_vec(marks),
        },
    }
}

impl<D: Disk> RestRoom<D> {
    /// Room for so many nodes, and for their disks.
    ///
    /// # Errors
    ///
    /// No memory.
    pub fn take(alloc: Global, most: usize, disks: Vec<D>) -> Result<RestRoom<D>, Vec<D>>
        requires none { disks.items ≡ [] }
        requires room { vec_len disks + most < vec_capacity disks }
        ensures { MatchResult result (λ room. room ≡ most) (λ back. (back.items ≡ []) × (vec_len back + most < vec_capacity back)) }
    {
        let Ok(managers) = Vec::with_capacity(alloc, most) else {
            return Err(disks);
        };
        let Ok(owns) = Vec::with_capacity(alloc, most) else {
            return Err(disks);
        };
        let Ok(histories) = Vec::with_capacity(alloc, most) else {
            return Err(disks);
        };
        Ok(RestRoom {
            managers,
            owns,
            histories,
            disks,
            most,
        })
    }

    /// The nodes rest. It takes no memory.
    pub fn fill(self, scenario: Snapshot<Scenario>, nodes: Items<Node<D>>) -> Rested<D>
        requires room { length nodes ≤ self }
        requires rested { words.IsRested (words.rest_of scenario.value nodes) }
        ensures rests { result ≡ words.rest_of scenario.value nodes }
        ensures risen { words.IsRisen result }
    {
        let RestRoom {
            mut managers,
            mut owns,
            mut histories,
            disks,
            most: _,
        } = self;
        let mut left = nodes.into_vec();
        left.reverse();
        while let Some(node) = left.pop() {
            let NodeRest {
                manager,
                own,
                history,
            } = rest_node(node);
            managers.push_reserved(manager);
            owns.push_reserved(own);
            histories.push_reserved(history);
        }
        Rested {
            scenario,
            managers,
            owns,
            histories,
            disks,
        }
    }
}
