//! A rule of the dead-letter handler moves a row: it goes from one queue and stands on another by one forced write.
ghost use Rattle.std.specs.Prelude.{◌≡◌, ◌+◌, ◌<◌, ◌≤◌, ◌^◌, true, false, length};
ghost use Rattle.mq_calls.specs.declared.records.LogRecord.TheVariants as records;
ghost use Rattle.mq_calls.specs.Words.{is_persistent, need, record_size};
ghost use Rattle.mq_agents.specs.from_record.Records.{CanBeKept};
ghost use Rattle.mq_agents.specs.from_core.Ties.{IsReady};
ghost use Rattle.mq_agents.specs.from_core.Forced.{IsForced};
ghost use Rattle.mq_agents.specs.from_core.Placing.{put_in_place};
ghost use Rattle.mq_agents.specs.Removing.{removed_one};
ghost use Rattle.mq_moves.specs.Moving.{CanMoveTo, MakesMove, downed_move};

use mq_agents::below::{
    Core, Parts, StoppedWrite, can_be_kept, make_put_room, moved_front, put_bytes, return_room,
};
use mq_agents::{agent_stop, go_down};
use mq_base::{NoMemory, QName};
use mq_calls::{AgentStop, Did, PlaceFault};
use mq_disk::{Disk, Stop};
use mq_message::{Dest, Ident, Message};

/// A row goes from its queue, and a message takes its last place on another, for which it waited. It takes no memory.
fn swap_rows<D: Disk>(
    parts: &mut Parts<D>,
    from: &QName,
    ident: &Ident,
    to: &QName,
    message: Message,
)
    requires { IsReady to.now message (removed_one from.now ident.now parts.old) }
    ensures { parts.new ≡ put_in_place to.now message (removed_one from.now ident.now parts.old) }
{
    let _message = parts.queues.remove(from, ident);
    parts.place(to, message);
}

/// A message that does not last moves at once.
fn move_free<D: Disk>(
    core: &mut Core<D>,
    from: &QName,
    target: &Dest,
    bare: bool,
    to: &QName,
    message: Message,
) -> Result<(), PlaceFault>
    requires may { CanMoveTo from.now to.now message core.old.plain }
    requires free { is_persistent message ≡ false }
    ensures { MakesMove from.now target.now bare to.now message core.old result core.new }
{
    core.begin_call();
    match make_put_room(&mut core.parts, &mut core.effects, to, 0) {
        Ok(()) => {}
        Err(NoMemory) => return Err(PlaceFault::Stop(AgentStop::NoMemory)),
    }
    let ident = message.ident;
    core.effects.tell(Did::Moved {
        from: *from,
        ident,
        to: *to,
        target: *target,
        bare,
    });
    swap_rows(&mut core.parts, from, &ident, to, message);
    Ok(())
}

/// Forces the record of a move: both halves stand in it. It takes no memory.
fn force_moved<D: Disk>(
    parts: &mut Parts<D>,
    from: &QName,
    to: &QName,
    message: &Message,
) -> Result<(), Stop>
    requires live { parts.old.log.live ≡ true }
    requires room { need (records.Moved from.now message.now.ident to.now message.now) ≤ parts.old.log.room }
    requires body { need (records.Moved from.now message.now.ident to.now message.now) ≤ parts.old.body.room + length parts.old.body.bytes }
    requires small { record_size (records.Moved from.now message.now.ident to.now message.now) < 2 ^ 32 }
    requires kept { CanBeKept message.now }
    ensures { IsForced (records.Moved from.now message.now.ident to.now message.now) parts.old result parts.new }
{
    parts.body.clear();
    parts.body.put(&moved_front(from, &message.ident, to));
    parts.body.put_message(message);
    parts.force_body()
}

/// The write of a move was stopped. It takes no memory.
fn give_move_up<D: Disk>(
    parts: &mut Parts<D>,
    from: &QName,
    target: &Dest,
    bare: bool,
    to: &QName,
    message: Message,
)
    ensures { parts.new ≡ downed_move from.now target.now bare to.now message parts.old }
{
    parts.queues.unpend(to);
    go_down(
        parts,
        StoppedWrite::Moved {
            from: *from,
            target: *target,
            bare,
            to: *to,
            message,
        },
    );
}

/// A message that lasts moves behind one forced record, in which it goes from its queue and stands on the other.
fn move_forced<D: Disk>(
    core: &mut Core<D>,
    from: &QName,
    target: &Dest,
    bare: bool,
    to: &QName,
    message: Message,
) -> Result<(), PlaceFault>
    requires may { CanMoveTo from.now to.now message core.old.plain }
    requires kept { CanBeKept message }
    ensures { MakesMove from.now target.now bare to.now message core.old result core.new }
{
    core.begin_call();
    let need = 71 + put_bytes(&message);
    match make_put_room(&mut core.parts, &mut core.effects, to, need) {
        Ok(()) => {}
        Err(NoMemory) => return Err(PlaceFault::Stop(AgentStop::NoMemory)),
    }
    match force_moved(&mut core.parts, from, to, &message) {
        Ok(()) => {}
        Err(stop) => {
            let agent = agent_stop(stop);
            give_move_up(&mut core.parts, from, target, bare, to, message);
            core.stopped = Some(stop);
            return Err(PlaceFault::Stop(agent));
        }
    }
    let ident = message.ident;
    core.effects.tell(Did::Moved {
        from: *from,
        ident,
        to: *to,
        target: *target,
        bare,
    });
    return_room(&mut core.parts, need);
    swap_rows(&mut core.parts, from, &ident, to, message);
    Ok(())
}

/// A message for which no refusal of a move applies.
pub(crate) fn move_message<D: Disk>(
    core: &mut Core<D>,
    from: &QName,
    target: &Dest,
    bare: bool,
    to: &QName,
    message: Message,
) -> Result<(), PlaceFault>
    requires { CanMoveTo from.now to.now message core.old.plain }
    ensures { MakesMove from.now target.now bare to.now message core.old result core.new }
{
    if message.md.persistence != 1 {
        return move_free(core, from, target, bare, to, message);
    }
    if !can_be_kept(&message) {
        core.begin_call();
        return Err(PlaceFault::Stop(AgentStop::NoMemory));
    }
    move_forced(core, from, target, bare, to, message)
}
