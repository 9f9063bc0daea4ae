//! What passes on a wire in a turn.
ghost use Rattle.std.specs.Prelude.{◌≡◌, ◌+◌, ℕ, [], max, true};
ghost use Rattle.mq_frame.specs.Frames.{HasSpelling};
ghost use Rattle.mq_frame.specs.declared.frame.Seen.TheVariants as items;
ghost use Rattle.mq_wires.specs.Wires.{Sees};
ghost use Rattle.mq_turn_parts.specs.Wired.{Popped};

use mq_cable::Wire;
use mq_core::below::can_be_kept;
use mq_frame::{FrameKind, Seen};
use mq_wires::{Sight, take};

/// Takes the item that was seen, if one waits. It takes no memory.
pub fn pass<W: Wire>(wire: &mut W, sight: &Sight)
    requires sees { Sees (W.front_of wire.old) (Unit {0}) sight.now.seen sight.now.stamp }
    ensures read { (last : ℕ) → Popped (λ xs. W.reads wire.old xs wire.new) (sight.now.seen ≡ items.Nothing) last sight.now.seen (max last sight.now.stamp + 1) }
    ensures written { W.writes wire.old [] wire.new }
    ensures low { W.low wire.old → W.low wire.new }
{
    match &sight.seen {
        Seen::Nothing => {}
        Seen::Spoiled => take(wire),
        Seen::Frame(_) => take(wire),
    }
}

/// The bytes of a frame of that kind show it again.
pub fn has_spelling(kind: &FrameKind) -> bool
    ensures { result ≡ true → HasSpelling kind.now }
{
    match kind {
        FrameKind::Bind { .. } => true,
        FrameKind::Status { .. } => true,
        FrameKind::Msg { index, message, .. } => {
            *index > 0 && can_be_kept(message) && message.route.is_none()
        }
        FrameKind::End { count, .. } => *count > 0,
        FrameKind::Ack { .. } => true,
        FrameKind::Err { .. } => true,
    }
}
