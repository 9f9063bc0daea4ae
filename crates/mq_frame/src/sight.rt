//! What an end of a channel sees of an item.

ghost use Rattle.std.specs.Prelude.{◌≡◌, IfOk};
ghost use Rattle.mq_frame.specs.Sight.{Shows};

use crate::fault::Stop;
use crate::frame::Seen;
use crate::framing::frame_at;
use mq_message::below::NoMemory;
use std::alloc::Global;

/// What an end sees of an item that waits: the frame that the item's bytes are, or that they are none.
pub fn seen_of(alloc: Global, bytes: &[u8]) -> Result<Seen, NoMemory>
    ensures { IfOk result (λ seen. Shows bytes.now seen) }
{
    match frame_at(alloc, bytes) {
        Ok((frame, rest)) => {
            if rest.is_empty() {
                Ok(Seen::Frame(frame))
            } else {
                Ok(Seen::Spoiled)
            }
        }
        Err(Stop::NoMemory) => Err(NoMemory),
        Err(Stop::Miss(_)) => Ok(Seen::Spoiled),
    }
}
