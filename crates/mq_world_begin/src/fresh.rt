//! Managers of a scenario that have just begun, and whether their logs belong together.
ghost use Rattle.std.specs.Prelude.{◌≡◌, MatchResult, map};
ghost use Rattle.mq_begin.specs.declared.faults.NetFault.TheVariants as faults;
ghost use Rattle.mq_history.specs.Scenarios.{IsScenario};
ghost use Rattle.mq_disk.specs.declared.shelf.Side.TheVariants as sides;
ghost use Rattle.mq_begin.specs.Begun.{NotBegan, moment_or};
ghost use Rattle.mq_spec_network.specs.Apart.{apart};
ghost use Rattle.mq_world_begin.specs.Rested.{Began, IsRested};

use crate::beginning::begin_at_rest;
use crate::rested::Rested;
use mq_begin::{NetFault, NoNet};
use mq_disk::{Disk, Shelf};
use mq_history::{Apart, Scenario};
use mq_net_apart::compare;
use std::alloc::Global;
use std::marker::Model;

/// The managers of a scenario that have just begun, at rest; and the first case in which their logs don't belong together, which was
/// found when they began.
#[derive(Drop)]
pub struct Fresh<D: Disk> {
    rested: Rested<D>,
    found: Option<Apart>,
}

impl<D: Disk> Model for Fresh<D> {
    ghost use Rattle.std.specs.Prelude.{◌≡◌};
    ghost use Rattle.mq_spec_network.specs.Apart.{apart};
    ghost use Rattle.mq_world_begin.specs.Rested.{IsRested, RestState};

    ghost Value = { RestState };

    ghost view = { λ f. f.rested };

    ghost invariant = { λ f. IsRested f.rested × (f.found ≡ apart f.rested.scenario f.rested.histories) };
}

impl<D: Disk> Fresh<D> {
    /// The first case in which the logs don't belong together, as the first starts read them: cable by cable, then ident by ident;
    /// none where they do. It takes no memory.
    pub fn apart(&self) -> Option<Apart>
        ensures { result ≡ apart self.now.scenario self.now.histories }
    {
        self.found
    }

    /// The managers, at rest.
    pub fn into_rested(self) -> Rested<D>
        ensures same { result ≡ self }
        ensures rested { IsRested result }
    {
        let Fresh { rested, found: _ } = self;
        rested
    }
}

/// There was no memory to tell the logs of managers that had begun apart: their disks.
fn no_memory<D: Disk>(rested: Rested<D>) -> NoNet<D>
    ensures fault { result.fault ≡ faults.NoMemory }
    ensures counts { map D.faults result.disks.items ≡ map (λ m. m.faults) rested.managers }
{
    NoNet {
        fault: NetFault::NoMemory,
        disks: rested.into_disks(),
    }
}

/// The managers of a scenario begin over a shelf, in its order, each from the log on its own disk, with the ends of its channels. None has
/// done anything; whether their logs belong together is found, and kept.
///
/// # Errors
///
/// The first fault: the shelf or a disk failed, a manager's bytes are no log of it, or there was no memory. The disks that
/// were taken are handed back.
pub fn begin<H: Shelf>(
    alloc: Global,
    scenario: &Scenario,
    shelf: &mut H,
    start: u64,
) -> Result<Fresh<H::D>, NoNet<H::D>>
    requires scenario { IsScenario scenario.now }
    ensures { MatchResult result (λ fresh. Began H.D.tells (λ n b. H.holds shelf.old n sides.A b) scenario.now (moment_or scenario.now.moment start) fresh) (λ e. NotBegan H.D.tells (λ n b. H.holds shelf.old n sides.A b) (moment_or scenario.now.moment start) scenario.now.managers (H.faults shelf.old) (H.faults shelf.new) (map H.D.faults e.disks.items) e.fault) }
{
    let rested = match begin_at_rest(alloc, scenario, shelf, start) {
        Ok(rested) => rested,
        Err(refused) => return Err(refused),
    };
    match compare(alloc, scenario, rested.histories()) {
        Ok(found) => Ok(Fresh { rested, found }),
        Err(_) => Err(no_memory(rested)),
    }
}
