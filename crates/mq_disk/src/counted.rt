//! Counts of calls and of faults.
ghost use Rattle.std.specs.Prelude.{◌≡◌, ◌≤◌};
ghost use Rattle.mq_base.specs.Outside.{raised, Rose, HasCause};
ghost use Rattle.mq_base.specs.Memory.{is_failing};
ghost use Rattle.mq_disk.specs.Fuse.{faults_after};

use mq_base::Failed;

/// Counts a fault.
pub fn fault(faults: &mut u64) -> Failed
    ensures counted { faults.new ≡ raised faults.old }
    ensures rose { Rose faults.old faults.new }
    ensures later { faults.old ≤ faults.new }
{
    *faults = faults.saturating_add(1);
    Failed
}

/// Counts the fault of an answer.
pub fn noted<T>(answer: Result<T, Failed>, faults: &mut u64) -> Result<T, Failed>
    ensures same { result ≡ answer }
    ensures cause { HasCause faults.old faults.new result }
    ensures counted { faults.new ≡ faults_after result faults.old }
{
    match answer {
        Ok(value) => Ok(value),
        Err(_) => Err(fault(faults)),
    }
}

/// Counts a call from 0, and tells whether the list names it.
pub fn is_failing(failing: &[u64], calls: &mut u64) -> bool
    ensures listed { result ≡ is_failing failing.now calls.old }
    ensures counted { calls.new ≡ raised calls.old }
{
    let call = *calls;
    *calls = calls.saturating_add(1);
    failing.iter().any(|number| *number == call)
}
