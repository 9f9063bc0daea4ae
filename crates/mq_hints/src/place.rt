//! What was read with one line more.

ghost use Rattle.std.specs.Prelude.{◌≡◌, IfOk};
ghost use Rattle.mq_scn_text.specs.Reading.{line_read};
ghost use Rattle.mq_hints.specs.Places.{read_on};

use mq_scn_text::{Reading, ScenarioFault, line_read};
use std::alloc::{AllocError, Global};

/// What was read with one line more; none where that line can't stand.
pub fn read_on(alloc: Global, reading: Reading, line: &[u8]) -> Result<Option<Reading>, AllocError>
    ensures { IfOk result (λ next. next ≡ read_on (line_read line.now reading)) }
{
    match line_read(alloc, reading, line) {
        Ok(next) => Ok(Some(next)),
        Err(ScenarioFault::BadLine(_, _)) | Err(ScenarioFault::Limit(_, _)) => Ok(None),
        Err(ScenarioFault::NoMemory) => Err(AllocError),
    }
}
