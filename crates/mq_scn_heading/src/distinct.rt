//! Numbers none of which stands twice.

ghost use Rattle.std.specs.Prelude.{◌≡◌, IfOk};
ghost use Rattle.mq_scn_heading.specs.Distinct.{are_distinct};

use std::alloc::{AllocError, Global};
use std::collections::HashSet;

/// Whether no number stands twice: from the last on, none is among those behind it. Source: this project's choice.
pub fn are_distinct(alloc: Global, numbers: &[u32]) -> Result<bool, AllocError>
    ensures { IfOk result (λ b. b ≡ are_distinct numbers.now) }
{
    let mut behind = HashSet::new(alloc);
    let mut rest = numbers;
    'comparing: while let Some((number, others)) = rest.split_last() {
        match behind.insert(*number) {
            Ok(true) => {}
            Ok(false) => return Ok(false),
            Err(fault) => return Err(fault.into()),
        }
        rest = others;
    }
    Ok(true)
}
