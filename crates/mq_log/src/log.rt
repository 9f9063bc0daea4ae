//! The forced log.
ghost use Rattle.std.specs.Prelude.{◌≡◌, ◌≢◌, ◌+◌, ◌-◌, ◌^◌, ◌≤◌, ◌<◌, ◌↔◌, ℕ, [], ◌∷◌, ◌++◌, length, true, false, None, Some, OnOk, OnErr, IfOk, IfErr, IsErrOf, IsTrue, MatchResult, List, vec_len, vec_capacity};
ghost use Rattle.mq_disk.specs.from_base.Outside.{Rose};
ghost use Rattle.mq_log.specs.Force.{Stops};
ghost use Rattle.mq_log.specs.Bodies.{number_bytes, frames, AllFit, IsLog};
ghost use Rattle.mq_log.specs.declared.log.LogFull.TheVariants.{NoMemory};
ghost use Rattle.mq_log.specs.State.{LogState, log_length, Appended, IsLogOf};
ghost use Rattle.mq_log.specs.Images.{IsFound};
ghost use Rattle.mq_log.specs.Open.{RestartEnds, EndsByOneOrThree, IsBadOf, IsNotBad, Reads, Made, Refused, start_calls};

use crate::bodies::Bodies;
use crate::force::force;
use crate::images::{Found, compare};
use crate::open::{StartFault, open_log};
use crate::scan::OPEN;
use mq_disk::below::NoMemory;
use mq_disk::{Cutter, Disk, Stop};
use std::alloc::{AllocError, Global};
use std::marker::Model;

/// A log on a disk, to which bodies are appended by forced writes. After a forced write that was stopped it takes no
/// more until it is restarted.
#[derive(Drop)]
pub struct Log<D: Disk> {
    disk: Cutter<D>,
    // The log's own bytes, up to and with the last gate, and behind it the body whose forced write was stopped.
    bytes: Vec<u8>,
    // The place of the last gate.
    end: usize,
    live: bool,
    // What is reserved, and the largest length.
    held: u64,
    most: u64,
    // Bytes of memory that are set aside, and count for no largest length.
    spare: u64,
}

/// A log that wasn't started, with its disk for a later restart.
#[derive(Drop)]
pub struct Unstarted<D: Disk> {
    /// Why it wasn't.
    pub fault: StartFault,
    /// The disk, with its armed cut.
    pub disk: Cutter<D>,
}

impl<D: Disk> Model for Log<D> {
    ghost use Rattle.std.specs.Prelude.{◌+◌, ◌-◌, ◌≤◌, vec_capacity, vec_len, if◌then◌else◌, None};
    ghost use Rattle.mq_log.specs.declared.log.LogFull.TheVariants.{NoMemory};
    ghost use Rattle.mq_log.specs.State.{LogState, front_bodies, body_behind};
    ghost use Rattle.mq_log.specs.Sound.{Sound};

    ghost Value = { LogState };

    ghost view = { λ l. record {
      bodies = front_bodies l.end l.bytes.items;
      live = l.live;
      pending = if l.live then None else body_behind l.end l.bytes.items;
      reserved = l.held;
      room = vec_capacity l.bytes - vec_len l.bytes - l.spare;
      spare = l.spare;
      max = l.most;
      armed = l.disk.armed;
      faults = D.faults l.disk.inner;
    } };

    ghost invariant = { λ l. Sound D.tells (D.size l.disk.inner) (D.seen l.disk.inner) (D.may_leave l.disk.inner) l.disk.stopped l.bytes.items l.end l.live × (l.held ≤ l.most) × (vec_len l.bytes + l.spare ≤ vec_capacity l.bytes) };
}

// Puts the length, the body's parts and a closed gate behind the bytes, in room that is there.
fn stage(bytes: &mut Vec<u8>, head: &[u8], adds: &[u8], removes: &[u8])
    requires small { length head.now + length adds.now + length removes.now < 2 ^ 32 }
    requires room { vec_len bytes.old + (5 + (length head.now + length adds.now + length removes.now)) ≤ vec_capacity bytes.old }
    ensures items { bytes.new.items ≡ bytes.old.items ++ ((number_bytes (length (head.now ++ adds.now ++ removes.now)) ++ (head.now ++ adds.now ++ removes.now)) ++ 0 ∷ []) }
    ensures len { vec_len bytes.new ≡ vec_len bytes.old + (5 + (length head.now + length adds.now + length removes.now)) }
    ensures capacity { vec_capacity bytes.old ≤ vec_capacity bytes.new }
{
    let size = (head.len() + adds.len() + removes.len()) as u32;
    bytes.extend_from_slice(&size.to_be_bytes()).unwrap();
    bytes.extend_from_slice(head).unwrap();
    bytes.extend_from_slice(adds).unwrap();
    bytes.extend_from_slice(removes).unwrap();
    bytes.push_reserved(0);
}

/// Why a reservation was refused.
#[derive(Clone, Copy)]
pub enum LogFull {
    /// The length, what is reserved and the bytes pass the largest length.
    Full,
    /// The memory for the bytes couldn't be taken.
    NoMemory,
}

impl From<AllocError> for LogFull {
    ghost from_gives = { λ _ e. e ≡ NoMemory };

    fn from(_: AllocError) -> Self {
        LogFull::NoMemory
    }
}

impl<D: Disk> Log<D> {
    /// Whether the length, what is reserved and these bytes stay within the largest length.
    pub fn fits(&self, bytes: u64) -> bool
        ensures { IsTrue result ↔ (log_length self.now.bodies + self.now.reserved + bytes ≤ self.now.max) }
    {
        self.end as u128 + 1 + self.held as u128 + bytes as u128 <= self.most as u128
    }

    /// Reserves bytes of the largest length, and takes their memory. It lacks memory only where room was missing.
    pub fn reserve(&mut self, bytes: u64) -> Result<(), LogFull>
        requires live { self.old.live ≡ true }
        ensures full { IsErrOf result LogFull.Full ↔ (self.old.max < log_length self.old.bodies + self.old.reserved + bytes) }
        ensures ok { OnOk result (self.new ≡ record self.old { reserved = self.old.reserved + bytes; room = self.new.room }) }
        ensures err { OnErr result (self.new ≡ record self.old { room = self.new.room }) }
        ensures taken { OnOk result (self.new.reserved ≤ self.new.room) }
        ensures within { OnOk result (log_length self.new.bodies + self.new.reserved ≤ self.new.max) }
        ensures room { self.old.room ≤ self.new.room }
        ensures memory { IsErrOf result LogFull.NoMemory → self.old.room < self.old.reserved + bytes }
    {
        if !self.fits(bytes) {
            return Err(LogFull::Full);
        }
        let Some(all) = (self.held + bytes).checked_add(self.spare) else {
            return Err(LogFull::NoMemory);
        };
        self.bytes.reserve(all as usize)?;
        self.held += bytes;
        Ok(())
    }

    /// Lowers what is reserved. It takes no memory.
    pub fn give_back(&mut self, bytes: u64)
        requires { bytes ≤ self.old.reserved }
        ensures { self.new ≡ record self.old { reserved = self.old.reserved - bytes } }
    {
        self.held -= bytes;
    }

    /// Takes the memory for so many bytes beside those that are reserved. It fails only where room was missing.
    pub fn room(&mut self, bytes: u64) -> Result<(), NoMemory>
        ensures same { self.new ≡ record self.old { room = self.new.room } }
        ensures ok { OnOk result (self.new.reserved + bytes ≤ self.new.room) }
        ensures room { self.old.room ≤ self.new.room }
        ensures memory { OnErr result (self.old.room < self.old.reserved + bytes) }
    {
        let Some(beside) = self.held.checked_add(bytes) else {
            return Err(NoMemory);
        };
        let Some(all) = beside.checked_add(self.spare) else {
            return Err(NoMemory);
        };
        self.bytes.reserve(all as usize)?;
        Ok(())
    }

    /// Sets the memory for so many bytes aside. What is reserved and the largest length do not count it.
    pub fn set_aside(&mut self, bytes: u64) -> Result<(), NoMemory>
        ensures ok { OnOk result (self.new ≡ record self.old { room = self.new.room; spare = self.old.spare + bytes }) }
        ensures err { OnErr result (self.new ≡ record self.old { room = self.new.room }) }
        ensures room { self.old.room ≤ self.new.room }
    {
        let free = self.bytes.capacity() - self.bytes.len();
        let Some(all) = (free as u64).checked_add(bytes) else {
            return Err(NoMemory);
        };
        // Just that: a list that doubled at each such call would grow without end where memory is set aside and drawn in turn.
        self.bytes.reserve_exact(all as usize)?;
        self.spare += bytes;
        Ok(())
    }

    /// The memory for so many of the bytes that are set aside is room again. It takes no memory.
    pub fn draw(&mut self, bytes: u64)
        requires { bytes ≤ self.old.spare }
        ensures { self.new ≡ record self.old { room = self.old.room + bytes; spare = self.old.spare - bytes } }
    {
        self.spare -= bytes;
    }

    /// The k-th `write_at` or `sync` from now isn't made; with 0 no call is stopped.
    pub fn arm(&mut self, k: u32)
        ensures { self.new ≡ record self.old { armed = k } }
    {
        self.disk.arm(k);
    }

    /// The k with which `arm` would now say the same, and 0 where no call is to be stopped.
    pub fn armed(&self) -> u32
        ensures { result ≡ self.now.armed }
    {
        self.disk.armed()
    }

    /// Whether the log takes more: no forced write was stopped since the last start.
    pub fn is_live(&self) -> bool
        ensures { result ≡ self.now.live }
    {
        self.live
    }

    /// Puts a body behind the last one, and it is on the disk when `Ok` returns. It takes no memory, and makes four calls
    /// of the disk.
    pub fn append_forced(&mut self, body: &[u8]) -> Result<(), Stop>
        requires live { self.old.live ≡ true }
        requires small { length body.now < 2 ^ 32 }
        requires room { 5 + length body.now ≤ self.old.room }
        ensures appended { Appended self.old body.now result self.new }
        ensures ends { Stops self.old.armed result self.new.armed }
        ensures room { OnOk result (self.old.room ≤ self.new.room + (5 + length body.now)) }
        ensures later { self.old.faults ≤ self.new.faults }
        ensures disk { IsErrOf result Stop.Disk → Rose self.old.faults self.new.faults }
    {
        self.append_parts(body, &[], &[])
    }

    /// The same with a body in three parts.
    pub fn append_parts(&mut self, head: &[u8], adds: &[u8], removes: &[u8]) -> Result<(), Stop>
        requires live { self.old.live ≡ true }
        requires small { length head.now + length adds.now + length removes.now < 2 ^ 32 }
        requires room { 5 + (length head.now + length adds.now + length removes.now) ≤ self.old.room }
        ensures appended { Appended self.old (head.now ++ adds.now ++ removes.now) result self.new }
        ensures ends { Stops self.old.armed result self.new.armed }
        ensures room { OnOk result (self.old.room ≤ self.new.room + (5 + (length head.now + length adds.now + length removes.now))) }
        ensures later { self.old.faults ≤ self.new.faults }
        ensures disk { IsErrOf result Stop.Disk → Rose self.old.faults self.new.faults }
    {
        stage(&mut self.bytes, head, adds, removes);
        match force(&mut self.disk, self.end as u64, &self.bytes[self.end + 1..]) {
            Ok(()) => {
                self.bytes[self.end] = OPEN;
                self.end = self.bytes.len() - 1;
                Ok(())
            }
            Err(stop) => {
                self.live = false;
                Err(stop)
            }
        }
    }

    /// The disk restarts, and the log is read from it again. The answer says whether the bodies are those from before,
    /// or these and the one whose forced write was stopped, which then stands at the place behind them; others are found
    /// only where the bytes were changed from outside. Nothing is reserved or set aside then. Where bodies are read, one call counts
    /// for an armed cut.
    pub fn restart(&mut self, alloc: Global) -> Result<Found, StartFault>
        ensures found { IfOk result (λ found. IsFound self.old.bodies self.old.pending found self.new.bodies) }
        ensures known { D.tells → IfOk result (λ found. found ≢ Found.Other) }
        ensures ok { OnOk result (self.new ≡ record self.old { bodies = self.new.bodies; live = true; pending = None; reserved = 0; room = self.new.room; spare = 0; armed = self.new.armed; faults = self.new.faults }) }
        ensures err { OnErr result (self.new ≡ record self.old { live = false; room = self.new.room; armed = self.new.armed; faults = self.new.faults }) }
        ensures good { D.tells → IfErr result IsNotBad }
        ensures ends { EndsByOneOrThree self.old.armed result self.new.armed }
        ensures one { OnOk result (0 < length self.new.bodies → RestartEnds 1 self.old.armed result self.new.armed) }
        ensures told { D.tells → 0 < length self.old.bodies → RestartEnds 1 self.old.armed result self.new.armed }
        ensures later { self.old.faults ≤ self.new.faults }
        ensures disk { IsErrOf result StartFault.Disk → Rose self.old.faults self.new.faults }
    {
        self.live = false;
        self.disk.restart()?;
        match open_log(alloc, &mut self.disk) {
            Ok(bytes) => {
                let end = bytes.len() - 1;
                let (read, _) = bytes.split_at(end);
                let found = compare(&self.bytes, self.end, read);
                self.end = end;
                self.bytes = bytes;
                self.held = 0;
                self.spare = 0;
                self.live = true;
                Ok(found)
            }
            Err(fault) => Err(fault),
        }
    }

    /// What is reserved, which never passes the largest length.
    pub fn reserved(&self) -> u64
        ensures value { result ≡ self.now.reserved }
        ensures within { result ≤ self.now.max }
    {
        self.held
    }

    /// The place of the last gate, and one.
    pub fn len(&self) -> u64
        ensures { result ≡ log_length self.now.bodies }
    {
        self.end as u64 + 1
    }

    /// The bodies that were read at the start and then those that were appended, in order.
    pub fn bodies(&self) -> Bodies<'_>
        ensures framed { result.framed.now ≡ frames self.now.bodies }
        ensures fits { AllFit self.now.bodies }
    {
        let (framed, _) = self.bytes.split_at(self.end);
        Bodies { framed }
    }
}

impl<D: Disk> Log<D> {
    /// Starts a log on a disk: a sync, and then the bodies are read, once. Where the disk has fewer than two bytes an
    /// empty log is made. An `Err` hands the disk back.
    pub fn start(alloc: Global, mut disk: Cutter<D>, max: u64) -> Result<Log<D>, Unstarted<D>>
        ensures read { D.tells → IfOk result (λ log. IsLog (D.seen disk.inner) log.bodies) }
        ensures bad { D.tells → IfErr result (λ e. IsBadOf (D.seen disk.inner) e.fault) }
        ensures live { IfOk result (λ log. (log.live ≡ true) × (log.pending ≡ None) × (log.reserved ≡ 0) × (log.max ≡ max)) }
        ensures aside { IfOk result (λ log. log.spare ≡ 0) }
        ensures made { IfOk result (λ log. Made (start_calls (D.size disk.inner)) disk.armed disk.stopped log.armed false) }
        ensures refused { IfErr result (λ e. Refused (start_calls (D.size disk.inner)) 1 disk.armed disk.stopped e.fault e.disk.armed e.disk.stopped) }
        ensures images { D.tells → IfErr result (λ e. Reads (D.may_leave disk.inner) (D.may_leave e.disk.inner)) }
        ensures later { MatchResult result (λ log. D.faults disk.inner ≤ log.faults) (λ e. D.faults disk.inner ≤ D.faults e.disk.inner) }
        ensures disk { IfErr result (λ e. e.fault ≡ StartFault.Disk → Rose (D.faults disk.inner) (D.faults e.disk.inner)) }
    {
        match open_log(alloc, &mut disk) {
            Ok(bytes) => {
                let end = bytes.len() - 1;
                Ok(Log {
                    disk,
                    bytes,
                    end,
                    live: true,
                    held: 0,
                    most: max,
                    spare: 0,
                })
            }
            Err(fault) => Err(Unstarted { fault, disk }),
        }
    }

    /// Gives the disk back. What a crash may leave of it is the log of these bodies, or of these and the one whose forced
    /// write was stopped. The calls of a log that takes more aren't stopped.
    pub fn end(self) -> Cutter<D>
        ensures images { D.tells → (c : List ℕ) → D.may_leave result.inner c → IsLogOf self.bodies self.pending c }
        ensures armed { result.armed ≡ self.armed }
        ensures faults { D.faults result.inner ≡ self.faults }
        ensures passes { self.live ≡ true → result.stopped ≡ false }
    {
        let Log {
            disk,
            bytes: _,
            end: _,
            live: _,
            held: _,
            most: _,
            spare: _,
        } = self;
        disk
    }
}
