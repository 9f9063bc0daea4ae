//! Managers of a scenario at rest.
ghost use Rattle.std.specs.Prelude.{◌≡◌, map};
ghost use Rattle.mq_world_begin.specs.Rested.{IsRested};

use mq_begin::below::Manager;
use mq_begin::disks_of;
use mq_disk::Disk;
use mq_history::{History, Scenario};
use mq_own::Own;
use std::marker::Model;
use std::snapshot::Snapshot;

/// The managers of a scenario, with what is their own and their histories, while nothing runs: each history leads to its manager.
#[derive(Drop)]
pub struct Rested<D: Disk> {
    pub scenario: Snapshot<Scenario>,
    /// In the scenario's order.
    pub managers: Vec<Manager<D>>,
    /// What is each one's own: ends, handlers, monitors, scripts.
    pub owns: Vec<Own>,
    pub histories: Vec<History>,
    /// No disk, and room for those of all managers.
    pub disks: Vec<D>,
}

impl<D: Disk> Model for Rested<D> {
    ghost use Rattle.std.specs.Prelude.{◌≡◌, ◌+◌, ◌<◌, [], vec_len, vec_capacity};
    ghost use Rattle.mq_world_begin.specs.Rested.{IsRested, RestState};

    ghost Value = { RestState };

    ghost view = { λ r. record { scenario = r.scenario.value; managers = r.managers.items; owns = r.owns.items; histories = r.histories.items } };

    ghost invariant = { λ r. IsRested (record { scenario = r.scenario.value; managers = r.managers.items; owns = r.owns.items; histories = r.histories.items }) × (r.disks.items ≡ []) × (vec_len r.disks + vec_len r.managers < vec_capacity r.disks) };
}

impl<D: Disk> Rested<D> {
    /// The histories, in the scenario's order; each leads to its manager.
    pub fn histories(&self) -> &[History]
        ensures histories { result.now ≡ self.now.histories }
        ensures rested { IsRested self.now }
    {
        self.histories.as_slice()
    }

    /// The disks of the managers, in their order, for a next run. It takes no memory.
    pub fn into_disks(self) -> Vec<D>
        ensures { map D.faults result.items ≡ map (λ m. m.faults) self.managers }
    {
        let Rested {
            scenario: _,
            managers,
            owns: _,
            histories: _,
            disks,
        } = self;
        disks_of(managers, disks)
    }
}
