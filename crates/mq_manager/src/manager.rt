//! The queue manager and its calls.
ghost use Rattle.std.specs.Prelude.{◌≡◌, ◌≤◌, [], false, Ok, IfErr, MatchResult, option_copied, option_map};
ghost use Rattle.mq_calls.specs.Words.{Meets, MeetsInRoom, is_up};
ghost use Rattle.mq_receive.specs.from_core.Values.{WritesLog, manager_of};
ghost use Rattle.mq_calls.specs.Words.{MeetsOrWants};
ghost use Rattle.mq_spec_manager.specs.Commands.{command};
ghost use Rattle.mq_spec_manager.specs.Stops.{advance_clock, cut, stop};
ghost use Rattle.mq_spec_manager.specs.Triggers.{trigger_turn};
ghost use Rattle.mq_spec_manager.specs.Agents.{IsUp, IsSenderHere, HasSeized, HasBatch, CanHold, CanPrepare, CanHarden, HasFreeRow, kept, stock, batch_row, next_row, seize, leave, set_bound, expire, hold_batch, release_batch, prepare, harden, discard, CanMove, CanReceive, move_row, receive};
ghost use Rattle.mq_receive.specs.from_agents.Ends.{by_agent, by_memory, by_seize, by_prepare, by_place, kept_of, place_and_message};
ghost use Rattle.mq_steer.specs.Quiet.{quietly, Comes};
ghost use Rattle.mq_spec_manager.specs.Words.{last_moment};
ghost use Rattle.mq_restarts.specs.from_restart.Begun.{given_by, HasBegun, HasNotBegun, LeavesAsWas};
ghost use Rattle.mq_law_image.specs.Values.{IsCommandText};
ghost use Rattle.mq_restarts.specs.from_restart.Returned.{Passes, Stayed};
ghost use Rattle.mq_restarts.specs.Backs.{IsBack};
ghost use Rattle.mq_manager.specs.Due.{next_due};
ghost use Rattle.mq_manager.specs.Facts.{IsWell, MayCount};
ghost use Rattle.mq_manager.specs.Reads.{IsEnding};
ghost use Rattle.mq_steer.specs.Turns.{halted};
ghost use Rattle.mq_spec_manager.specs.Words.{mqconn, mqopen, mqclose, mqput, mqput1, mqget, mqcmit, mqback, mqdisc};

use crate::limit::command_that_fits;
use crate::notes::{harden_note, log_is_bytes, prepare_named, receive_named};
use mq_base::{ChName, NoMemory, QName};
use mq_calls::{
    AgentStop, Answer, Appl, Delta, Get, GetAnswer, Halt, Hconn, Hobj, Note, Open, PlaceFault,
    PrepareFault, ScRefusal, SeizeFault, Sent, Shown,
};
use mq_codes::Reason;
use mq_disk::{Cutter, Disk};
use mq_message::{Dest, Ident, Md, Message, Place};
use mq_objects::{Command, Defs};
use mq_receive::below::{Core, Hardened};
use mq_restarts::Back;
use mq_restarts::below::{LogRead, LogTold, Unbegun, Unreturned};
use mq_sync::{Stock, Unit};
use std::alloc::Global;
use std::marker::Model;

/// One queue manager. Contracts see it as the plain manager, what its last call did, what stopped
/// that call's write, and the bodies of its log. Between calls its facts hold, and its log tells what
/// a restart asks of it (`IsKept`).
#[derive(Drop)]
pub struct Manager<D: Disk> {
    /// Who changes it leaves the facts and the log as `IsKept` says.
    pub core: Core<D>,
    /// What restarts have read of the log since the stop.
    pub read: LogRead,
    /// What the log told the last restart, with the bytes that told it; none before the first.
    pub told: Option<LogTold>,
}

impl<D: Disk> Model for Manager<D> {
    ghost use Rattle.mq_receive.specs.from_core.Values.{CoreValue};
    ghost use Rattle.mq_manager.specs.Kept.{IsKept};

    ghost Value = { CoreValue };

    ghost view = { λ m. m.core };

    ghost invariant = { λ m. IsKept D.tells m.read m.core };
}

impl<D: Disk> Manager<D> {
    /// A first start, of the log on a disk: the manager has what its log tells, and its own Started record behind it. On an
    /// empty disk there is no log, and the manager begins with nothing.
    ///
    /// # Errors
    ///
    /// `Disk` only where the disk's count of faults rose; `BadLog`, where the disk tells its bytes, only where these are no log
    /// of this manager, with the place of the gate at fault; `NoMemory`. The disk is handed back: what a crash may leave of it is what
    /// it might have left before, or the log that stood there, with the Started record behind it only where its write was stopped.
    pub fn begin(
        alloc: Global,
        number: u8,
        name: &QName,
        disk: Cutter<D>,
        max: u64,
        moment: u64,
    ) -> Result<Self, Unbegun<D>>
        requires low { 1 ≤ number }
        requires high { number ≤ 8 }
        requires max { max ≤ 268435456 }
        requires moment { moment ≤ last_moment }
        requires armed { disk.armed ≡ 0 }
        requires passes { disk.stopped ≡ false }
        ensures begun { MatchResult result (λ m. HasBegun D.tells (D.seen disk.inner) (D.faults disk.inner) (given_by number name.now max) moment m) (λ e. HasNotBegun D.tells (D.seen disk.inner) (given_by number name.now max) (D.faults disk.inner) e.fault (D.faults e.disk.inner)) }
        ensures left { D.tells → IfErr result (λ e. LeavesAsWas (D.may_leave disk.inner) (D.seen disk.inner) (given_by number name.now max) e.fault (D.may_leave e.disk.inner)) }
    {
        match mq_restarts::below::begin(alloc, number, name, disk, max, moment) {
            Ok(core) => Ok(Manager {
                core,
                read: LogRead::Unread,
                told: None,
            }),
            Err(unbegun) => Err(unbegun),
        }
    }

    /// What holds of it between its calls. It does nothing.
    pub fn facts(&self)
        ensures well { IsWell self.now.plain }
    {
        let _ = &self.core;
    }

    /// Whether the manager is up. It takes no memory.
    pub fn is_up(&self) -> bool
        ensures { result ≡ is_up self.now.plain.running }
    {
        self.core.is_up()
    }

    /// The moment, in milliseconds since 1970. It takes no memory.
    pub fn moment(&self) -> u64
        ensures { result ≡ self.now.plain.moment }
    {
        self.core.parts.moment
    }

    /// The definitions. It takes no memory.
    pub fn defs(&self) -> &Defs
        ensures { result.now.definitions ≡ self.now.plain.definitions }
    {
        &self.core.parts.defs
    }

    /// The k of the cut that is armed: the k-th device call from now on is to be stopped; with 0 none is. It takes no memory.
    pub fn armed(&self) -> u32
        ensures { result ≡ self.now.plain.log.armed }
    {
        self.core.parts.log.armed()
    }

    /// MQCONN (MQI reference).
    #[tactic(auto, using(crate::proofs::CountLaws::can_count))]
    pub fn mqconn(&mut self, qmgr: &QName, appl: &Appl) -> Result<Answer<Hconn>, Halt<Reason>>
        requires low { MayCount self.old.plain }
        ensures meets { Meets (manager_of self.old) (mqconn qmgr.now appl.now self.old.plain) result (manager_of self.new) }
        ensures told { WritesLog self.old (mqconn qmgr.now appl.now self.old.plain) result self.new }
    {
        mq_mqi::mqconn(&mut self.core, qmgr, appl)
    }

    /// MQOPEN (MQI reference).
    #[tactic(auto, using(crate::proofs::CountLaws::can_count))]
    pub fn mqopen(
        &mut self,
        hc: Hconn,
        name: &QName,
        qmgr: &QName,
        how: &Open,
    ) -> Result<Answer<Hobj>, Halt<Reason>>
        requires low { MayCount self.old.plain }
        ensures meets { Meets (manager_of self.old) (mqopen hc name.now qmgr.now how.now self.old.plain) result (manager_of self.new) }
        ensures told { WritesLog self.old (mqopen hc name.now qmgr.now how.now self.old.plain) result self.new }
    {
        mq_mqi::mqopen(&mut self.core, hc, name, qmgr, how)
    }

    /// MQCLOSE (MQI reference). It takes no memory.
    pub fn mqclose(&mut self, hc: Hconn, ho: Hobj) -> Result<Answer<()>, Halt<Reason>>
        ensures meets { MeetsInRoom (manager_of self.old) (mqclose hc ho self.old.plain) result (manager_of self.new) }
        ensures told { WritesLog self.old (mqclose hc ho self.old.plain) result self.new }
    {
        mq_mqi::mqclose(&mut self.core, hc, ho)
    }

    /// MQPUT (MQI reference).
    #[tactic(auto, using(crate::proofs::CountLaws::can_count))]
    pub fn mqput(
        &mut self,
        hc: Hconn,
        ho: Hobj,
        md: &Md,
        body: &[u8],
        sync: bool,
    ) -> Result<Answer<Sent>, Halt<Reason>>
        requires low { MayCount self.old.plain }
        ensures meets { Meets (manager_of self.old) (mqput hc ho md.now body.now sync self.old.plain) result (manager_of self.new) }
        ensures told { WritesLog self.old (mqput hc ho md.now body.now sync self.old.plain) result self.new }
    {
        mq_mqi::mqput(&mut self.core, hc, ho, md, body, sync)
    }

    /// MQPUT1 (MQI reference).
    #[tactic(auto, using(crate::proofs::CountLaws::can_count))]
    pub fn mqput1(
        &mut self,
        hc: Hconn,
        name: &QName,
        qmgr: &QName,
        md: &Md,
        body: &[u8],
        sync: bool,
    ) -> Result<Answer<Sent>, Halt<Reason>>
        requires low { MayCount self.old.plain }
        ensures meets { Meets (manager_of self.old) (mqput1 hc name.now qmgr.now md.now body.now sync self.old.plain) result (manager_of self.new) }
        ensures told { WritesLog self.old (mqput1 hc name.now qmgr.now md.now body.now sync self.old.plain) result self.new }
    {
        mq_mqi::mqput1(&mut self.core, hc, name, qmgr, md, body, sync)
    }

    /// MQGET (MQI reference). An answer NotYet has changed nothing.
    pub fn mqget(
        &mut self,
        hc: Hconn,
        ho: Hobj,
        get: &Get,
        until: Option<u64>,
    ) -> Result<GetAnswer, Halt<Reason>>
        ensures meets { Meets (manager_of self.old) (mqget hc ho get.now until self.old.plain) result (manager_of self.new) }
        ensures told { WritesLog self.old (mqget hc ho get.now until self.old.plain) result self.new }
    {
        mq_receive::below::mqget(&mut self.core, hc, ho, get, until)
    }

    /// MQCMIT (MQI reference). It takes no memory.
    #[tactic(auto, using(crate::proofs::CountLaws::can_count))]
    pub fn mqcmit(&mut self, hc: Hconn) -> Result<Answer<()>, Halt<Reason>>
        requires low { MayCount self.old.plain }
        ensures meets { MeetsInRoom (manager_of self.old) (mqcmit hc self.old.plain) result (manager_of self.new) }
        ensures told { WritesLog self.old (mqcmit hc self.old.plain) result self.new }
    {
        mq_ends::mqcmit(&mut self.core, hc)
    }

    /// MQBACK (MQI reference). It takes no memory.
    pub fn mqback(&mut self, hc: Hconn) -> Result<Answer<()>, Halt<Reason>>
        ensures meets { MeetsInRoom (manager_of self.old) (mqback hc self.old.plain) result (manager_of self.new) }
        ensures told { WritesLog self.old (mqback hc self.old.plain) result self.new }
    {
        mq_ends::mqback(&mut self.core, hc)
    }

    /// MQDISC (MQI reference). It takes no memory.
    #[tactic(auto, using(crate::proofs::CountLaws::can_count))]
    pub fn mqdisc(&mut self, hc: Hconn) -> Result<Answer<()>, Halt<Reason>>
        requires low { MayCount self.old.plain }
        ensures meets { MeetsInRoom (manager_of self.old) (mqdisc hc self.old.plain) result (manager_of self.new) }
        ensures told { WritesLog self.old (mqdisc hc self.old.plain) result self.new }
    {
        mq_ends::mqdisc(&mut self.core, hc)
    }

    /// The queue whose trigger is served next: the first, in order of definition, with one due; none at a manager that is down.
    /// It takes no memory.
    pub fn next_due(&self) -> Option<QName>
        ensures { result ≡ next_due self.now.plain }
    {
        mq_steer::next_due(&self.core)
    }

    /// The trigger of the first queue, in order of definition, that has one due is served: false exactly where none is.
    ///
    /// # Errors
    ///
    /// No memory; the trigger stays due.
    #[tactic(auto, using(crate::proofs::CountLaws::can_count))]
    pub fn trigger_turn(&mut self) -> Result<bool, NoMemory>
        requires low { MayCount self.old.plain }
        ensures meets { Meets (manager_of self.old) (trigger_turn self.old.plain) (halted result) (manager_of self.new) }
        ensures told { WritesLog self.old (trigger_turn self.old.plain) (halted result) self.new }
    {
        mq_steer::trigger_turn(&mut self.core)
    }

    /// Does one MQSC command on objects. The lines are none but for DISPLAY.
    ///
    /// The values of the command are such as a text of commands gives (`IsCommandText`): names within their length, numbers within
    /// their bounds, texts on one line, known keywords. Each command that `parse` reads from a line of a text has such values
    /// (mq_law_image, `what_commands_write_is_read`); with others no restart would read what the command wrote.
    ///
    /// # Errors
    ///
    /// The first that applies of `Down`, `Exists`, `Missing`, `BadValue` with the first such keyword, `InUse`, `NotEmpty`
    /// (IBM MQ: MQSC reference); no memory, and nothing has changed: also where ALTER QMGR gives a MAXMSGL above 4,194,304,
    /// which no record keeps and no reader of commands gives; a forced write that was stopped, which takes the manager down.
    pub fn command(&mut self, asked: &Command) -> Result<Shown, Halt<ScRefusal>>
        requires text { IsCommandText asked.now }
        ensures meets { MeetsOrWants (manager_of self.old) (command asked.now self.old.plain) result (manager_of self.new) }
        ensures told { WritesLog self.old (command asked.now self.old.plain) result self.new }
    {
        command_that_fits(&mut self.core, asked)
    }

    /// The moment is later by so many milliseconds, but never past the last one that there is. It takes no memory.
    pub fn advance_clock(&mut self, by: u64)
        ensures { self.new ≡ quietly (advance_clock by) self.old }
    {
        mq_steer::advance_clock(&mut self.core, by);
    }

    /// The k-th device call from now on is to be stopped; with 0 none is. It takes no memory.
    pub fn cut(&mut self, k: u32)
        ensures { self.new ≡ quietly (cut k) self.old }
    {
        mq_steer::cut(&mut self.core, k);
    }

    /// What the last call changed, and none is left. It takes no memory.
    pub fn take_delta(&mut self) -> Delta
        ensures delta { result ≡ self.old.delta }
        ensures left { self.new ≡ record self.old { delta = [] } }
    {
        mq_steer::take_delta(&mut self.core)
    }

    /// Every connection is broken, and the manager comes to rest. False exactly where it is down already. It takes no memory.
    pub fn stop(&mut self) -> bool
        ensures { Comes (stop self.old.plain) result self.old self.new }
    {
        mq_steer::stop(&mut self.core)
    }

    /// Restarts a manager that is down: it comes up from its log alone, as a first start does. Where the log holds the write that
    /// was stopped, what that did is told. From a log that was changed from outside it goes on in an incarnation that its history
    /// can't have begun, and the image that it took is handed out. Over a disk that tells its bytes it comes up as its history says,
    /// and no log is bad.
    ///
    /// # Errors
    ///
    /// `Up`, where it is up. `Disk`, only where the disk's count rose; `Cut`, at the armed device call; `BadLog`, with the place of
    /// the gate at fault; `NoMemory`, also where a number has become so high that no restart would read it. It is then as before, but
    /// that the calls made count for an armed cut; after `NoMemory` that is armed again as it was.
    pub fn restart(&mut self) -> Result<Back, Unreturned>
        ensures ends { MatchResult result (λ b. IsBack D.tells self.old.plain b self.new) (λ e. Stayed D.tells self.old.plain self.old.faults e self.new) }
        ensures passes { Passes self.old self.new }
    {
        mq_restarts::restart(&mut self.core, &mut self.read, &mut self.told)
    }

    /// What this manager's ends of a channel have hardened; none exactly where nothing was hardened yet. It takes no memory.
    pub fn kept(&self, channel: &ChName) -> Option<Hardened<'_>>
        ensures { kept_of (option_map (λ k. (option_copied k.sender, option_copied k.receiver)) result) ≡ kept channel.now self.now.plain }
    {
        mq_receive::below::kept(&self.core, channel)
    }

    /// What a running sender sees of its queue. It takes no memory.
    pub fn stock(&self, channel: &ChName) -> Stock
        requires up { IsUp self.now.plain }
        requires seized { HasSeized channel.now self.now.plain }
        ensures { result ≡ stock channel.now self.now.plain }
    {
        mq_receive::below::stock(&self.core, channel)
    }

    /// The row of that number in the batch of a channel, from 1; none exactly where the batch has none. It takes no memory.
    pub fn batch_row(&self, channel: &ChName, index: u32) -> Option<&Message>
        ensures { option_copied result ≡ batch_row channel.now index self.now.plain }
    {
        mq_receive::below::batch_row(&self.core, channel, index)
    }

    /// The first free row of a queue above a place; none exactly where there is none. It takes no memory.
    pub fn next_row(&self, queue: &QName, after: Option<Place>) -> Option<(Place, &Message)>
        ensures { option_map (λ r. (r.0, r.1.now)) result ≡ option_map place_and_message (next_row queue.now after self.now.plain) }
    {
        mq_receive::below::next_row(&self.core, queue, after)
    }

    /// A sender opens its transmission queue, alone: `BadQueue` where its definition names no local queue of USAGE(XMITQ),
    /// `QueueInUse` where that is open for input, or a unit, or another channel holds a row.
    ///
    /// # Errors
    ///
    /// As said, and no memory; nothing has changed.
    pub fn seize(&mut self, channel: &ChName) -> Result<(), SeizeFault>
        requires up { IsUp self.old.plain }
        requires here { IsSenderHere channel.now self.old.plain }
        ensures meets { MeetsOrWants (manager_of self.old) (seize channel.now self.old.plain) (by_seize result) (manager_of self.new) }
        ensures told { WritesLog self.old (seize channel.now self.old.plain) (by_seize result) self.new }
    {
        mq_receive::below::seize(&mut self.core, channel)
    }

    /// A sender leaves its transmission queue. It takes no memory.
    pub fn leave(&mut self, channel: &ChName)
        requires up { IsUp self.old.plain }
        ensures meets { MeetsInRoom (manager_of self.old) (leave channel.now self.old.plain) (Ok tt) (manager_of self.new) }
        ensures told { WritesLog self.old (leave channel.now self.old.plain) (Ok tt) self.new }
    {
        mq_receive::below::leave(&mut self.core, channel);
    }

    /// Whether a receiver is bound from now on; one that has hardened nothing never is. It takes no memory.
    pub fn set_bound(&mut self, channel: &ChName, bound: bool)
        requires up { IsUp self.old.plain }
        ensures meets { MeetsInRoom (manager_of self.old) (set_bound channel.now bound self.old.plain) (Ok tt) (manager_of self.new) }
        ensures told { WritesLog self.old (set_bound channel.now bound self.old.plain) (Ok tt) self.new }
    {
        mq_receive::below::set_bound(&mut self.core, channel, bound);
    }

    /// The expired free rows of the queue that a sender has seized leave it, behind one forced record where one of them lasts.
    /// It is not refused for want of room in the log.
    ///
    /// # Errors
    ///
    /// The disk or the cut stopped the write, and the manager is down; no memory, and nothing has changed.
    pub fn expire(&mut self, channel: &ChName) -> Result<(), AgentStop>
        requires up { IsUp self.old.plain }
        requires seized { HasSeized channel.now self.old.plain }
        ensures meets { MeetsOrWants (manager_of self.old) (expire channel.now self.old.plain) (by_agent result) (manager_of self.new) }
        ensures told { WritesLog self.old (expire channel.now self.old.plain) (by_agent result) self.new }
    {
        mq_receive::below::expire(&mut self.core, channel)
    }

    /// A sender holds the first free rows of its queue, at most so many, as the next unit; their number.
    ///
    /// # Errors
    ///
    /// No memory; nothing has changed.
    pub fn hold_batch(&mut self, channel: &ChName, unit: &Unit, most: u32) -> Result<u32, NoMemory>
        requires up { IsUp self.old.plain }
        requires can { CanHold channel.now self.old.plain }
        ensures meets { MeetsOrWants (manager_of self.old) (hold_batch channel.now unit.now most self.old.plain) (by_memory result) (manager_of self.new) }
        ensures told { WritesLog self.old (hold_batch channel.now unit.now most self.old.plain) (by_memory result) self.new }
    {
        mq_receive::below::hold_batch(&mut self.core, channel, unit, most)
    }

    /// A batch that is not prepared is released: its rows are free again, at their places, with no backout counted. It takes no memory.
    pub fn release_batch(&mut self, channel: &ChName)
        requires up { IsUp self.old.plain }
        requires batch { HasBatch channel.now self.old.plain }
        ensures meets { MeetsInRoom (manager_of self.old) (release_batch channel.now self.old.plain) (Ok tt) (manager_of self.new) }
        ensures told { WritesLog self.old (release_batch channel.now self.old.plain) (Ok tt) self.new }
    {
        mq_receive::below::release_batch(&mut self.core, channel);
    }

    /// The batch of a channel becomes its unit in doubt, behind a forced record: `NoRoom` exactly where the log has no room for it.
    ///
    /// # Errors
    ///
    /// As said; the disk or the cut stopped the write, and the manager is down; no memory, and nothing has changed.
    pub fn prepare(&mut self, channel: &ChName, last: u32) -> Result<(), PrepareFault>
        requires up { IsUp self.old.plain }
        requires can { CanPrepare channel.now self.old.plain }
        ensures meets { MeetsOrWants (manager_of self.old) (prepare channel.now last self.old.plain) (by_prepare result) (manager_of self.new) }
        ensures told { WritesLog self.old (prepare channel.now last self.old.plain) (by_prepare result) self.new }
    {
        prepare_named(&mut self.core, channel, last)
    }

    /// A channel's end hardens a note: its record is forced, and a unit that is settled loses its rows, or they are free again.
    ///
    /// # Errors
    ///
    /// The disk or the cut stopped the write, and the manager is down; no memory, and nothing has changed: also where the channel's
    /// name is blank, or a session comes to 2^61, which no restart would read. `Closed` and `Resolved` take no memory, and never lack
    /// it: their room was made as the session or the unit was hardened.
    pub fn harden(&mut self, channel: &ChName, note: &Note) -> Result<(), AgentStop>
        requires up { IsUp self.old.plain }
        requires can { CanHarden channel.now note.now self.old.plain }
        ensures meets { MeetsOrWants (manager_of self.old) (harden channel.now note.now self.old.plain) (by_agent result) (manager_of self.new) }
        ensures room { IsEnding note.now → MeetsInRoom (manager_of self.old) (harden channel.now note.now self.old.plain) (by_agent result) (manager_of self.new) }
        ensures told { WritesLog self.old (harden channel.now note.now self.old.plain) (by_agent result) self.new }
    {
        log_is_bytes(&self.core);
        harden_note(&mut self.core, channel, note)
    }

    /// A receiver commits the messages of a unit, with the last sequence number: each lands on its queue or, with its reason, on the
    /// dead-letter queue; one whose ident stands here otherwise is left out. One forced record tells of those that last and of the
    /// unit.
    ///
    /// # Errors
    ///
    /// Refused: by the first message that can neither be put nor be a dead letter, with its put's reason; 2102 where the log has no
    /// room. Stop: the disk or the cut stopped the write, and the manager is down; no memory, and nothing has changed: also where the
    /// channel's name is blank, whose record no restart would read.
    #[tactic(auto, using(crate::proofs::CountLaws::can_count))]
    pub fn receive(
        &mut self,
        channel: &ChName,
        unit: &Unit,
        last: u32,
        batch: &[Message],
    ) -> Result<(), PlaceFault>
        requires up { IsUp self.old.plain }
        requires low { MayCount self.old.plain }
        requires can { CanReceive channel.now unit.now self.old.plain }
        ensures meets { MeetsOrWants (manager_of self.old) (receive channel.now unit.now last batch.now self.old.plain) (by_place result) (manager_of self.new) }
        ensures told { WritesLog self.old (receive channel.now unit.now last batch.now self.old.plain) (by_place result) self.new }
    {
        receive_named(&mut self.core, channel, unit, last, batch)
    }

    /// The row of an ident goes to the end of a rule's route: FWD, or RETRY; without its header where `bare`. Where its message
    /// lasts, it goes behind one forced record, in which it leaves the one queue and stands on the other.
    ///
    /// # Errors
    ///
    /// Refused: what name resolution refuses, 2045, 2051, 2030, 2031, 2053, and 2102 where the message lasts and the log has no
    /// room for its record. The disk or the cut stopped the write, and the manager is down; no memory, and nothing has changed.
    #[tactic(auto, using(crate::proofs::CountLaws::can_count))]
    pub fn move_row(
        &mut self,
        from: &QName,
        ident: &Ident,
        to: &Dest,
        bare: bool,
    ) -> Result<(), PlaceFault>
        requires up { IsUp self.old.plain }
        requires low { MayCount self.old.plain }
        requires can { CanMove from.now ident.now bare self.old.plain }
        ensures meets { MeetsOrWants (manager_of self.old) (move_row from.now ident.now to.now bare self.old.plain) (by_place result) (manager_of self.new) }
        ensures told { WritesLog self.old (move_row from.now ident.now to.now bare self.old.plain) (by_place result) self.new }
    {
        mq_receive::below::move_row(&mut self.core, from, ident, to, bare)
    }

    /// A rule of the handler removes a row, behind a forced record where it lasts. It is not refused for want of room in the log.
    ///
    /// # Errors
    ///
    /// The disk or the cut stopped the write, and the manager is down; no memory, and nothing has changed.
    pub fn discard(&mut self, from: &QName, ident: &Ident) -> Result<(), AgentStop>
        requires up { IsUp self.old.plain }
        requires there { HasFreeRow from.now ident.now self.old.plain }
        ensures meets { MeetsOrWants (manager_of self.old) (discard from.now ident.now self.old.plain) (by_agent result) (manager_of self.new) }
        ensures told { WritesLog self.old (discard from.now ident.now self.old.plain) (by_agent result) self.new }
    {
        mq_receive::below::discard(&mut self.core, from, ident)
    }
}
