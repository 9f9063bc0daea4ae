//! The cables of a scenario, before anything is offered.
ghost use Rattle.std.specs.Prelude.{◌≡◌, IfOk};
ghost use Rattle.mq_ways.specs.Ways.{AreNew, IsNew};

use crate::cable::Cable;
use mq_base::{Items, NoMemory};
use mq_cable::Faults;
use mq_history::CableLine;
use std::alloc::Global;

/// A copy of the faults of a direction.
///
/// # Errors
///
/// No memory.
pub fn copy_faults(alloc: Global, faults: &Faults) -> Result<Faults, NoMemory>
    ensures { IfOk result (λ copy. copy ≡ faults.now) }
{
    match Faults::from_slice(alloc, faults.as_slice()) {
        Ok(copy) => Ok(copy),
        Err(_) => Err(NoMemory),
    }
}

/// The cable of a line.
fn cable_of(alloc: Global, line: &CableLine) -> Result<Cable, NoMemory>
    ensures out { IfOk result (λ cable. IsNew line.now.out cable.out) }
    ensures back { IfOk result (λ cable. IsNew line.now.back cable.back) }
{
    let out = copy_faults(alloc, &line.out)?;
    let back = copy_faults(alloc, &line.back)?;
    Cable::new(alloc, out, back)
}

/// A cable for each line, with its scripted faults.
///
/// # Errors
///
/// No memory.
pub fn cables_of(alloc: Global, lines: &[CableLine]) -> Result<Items<Cable>, NoMemory>
    ensures { IfOk result (λ cables. AreNew lines.now cables) }
{
    let mut cables = Items::new(alloc);
    for line in lines {
        let cable = cable_of(alloc, line)?;
        match cables.push(cable) {
            Ok(()) => {}
            Err(_) => return Err(NoMemory),
        }
    }
    Ok(cables)
}
