//! Frames from a stream of bytes that comes in pieces.

ghost use Rattle.std.specs.Prelude.{◌≡◌, ◌≤◌, ◌-◌, ◌++◌, [], ℕ, List, length, drop, IfOk, IfErr, IfSome, Err};
ghost use Rattle.byteorder.specs.Endian.{big_number};
ghost use Rattle.mq_frame.specs.Frames.{IsCut, IsPartial};
ghost use Rattle.mq_frame.specs.Decoding.{StopsWell, StaysPartial};

use crate::fault::{Miss, Stop};
use crate::frame::{FrameFault, Frames};
use crate::framing::frame_at;
use byteorder::{BigEndian, ByteOrder};
use std::alloc::Global;
use std::marker::Model;

/// How many bytes of a message's frame stand before its body.
const BODY_PLACE: usize = 487;

/// Gives the frames of a stream of bytes that comes in pieces, whatever the pieces. The bytes of a body are
/// read once, when all of them are there.
#[derive(Drop)]
pub struct Decoder {
    held: Vec<u8>,
    /// With fewer bytes held than this there is nothing to read yet.
    wanted: usize,
    before: u64,
    broken: Option<u64>,
}

impl Model for Decoder {
    ghost use Rattle.mq_frame.specs.Decoding.{Decoding, StaysPartial};

    ghost Value = { Decoding };

    ghost view = { λ d. record { held = d.held.items; before = d.before; broken = d.broken } };

    ghost invariant = { λ d. StaysPartial d.held.items d.wanted };
}

impl Decoder {
    ghost use Rattle.mq_frame.specs.declared.frame.Frame.{Frame};
    ghost use Rattle.mq_frame.specs.declared.frame.FrameFault.TheVariants.{BadFrame};
    ghost use Rattle.mq_frame.specs.Decoding.{HasGiven, TellsFault, AfterFault};

    /// A decoder that was fed nothing. It takes no memory.
    pub fn new(alloc: Global) -> Self
        ensures { HasGiven result [] [] }
    {
        Decoder {
            held: Vec::new(alloc),
            wanted: 0,
            before: 0,
            broken: None,
        }
    }

    /// Forgets all that it was fed. The memory stays.
    pub fn reset(&mut self)
        ensures { HasGiven self.new [] [] }
    {
        self.held.clear();
        self.wanted = 0;
        self.before = 0;
        self.broken = None;
    }

    /// Takes the next piece of the stream, and gives the frames that are whole now.
    ///
    /// # Errors
    ///
    /// `BadFrame` exactly where no continuation of the bytes so far is a list of frames, and from then
    /// on until a reset. `NoMemory` changes nothing.
    pub fn feed(&mut self, alloc: Global, piece: &[u8]) -> Result<Frames, FrameFault>
        // the frames given so far are those of the bytes fed so far, and what is left is less than a frame
        ensures ok { (fed : List ℕ) (given : List Frame) → HasGiven self.old fed given → IfOk result (λ frames. HasGiven self.new (fed ++ piece.now) (given ++ frames)) }
        // the place is the first one where the bytes fed so far can't go on as frames
        ensures bad { (fed : List ℕ) (given : List Frame) → HasGiven self.old fed given → IfErr result (λ fault. TellsFault fault (fed ++ piece.now)) }
        ensures after { IfErr result (λ fault. AfterFault fault self.old self.new) }
        ensures broken { IfSome self.old.broken (λ place. (result ≡ Err (BadFrame place)) × (self.new ≡ self.old)) }
    {
        if let Some(place) = self.broken {
            return Err(FrameFault::BadFrame(place));
        }
        let kept = self.held.len();
        if self.held.extend_from_slice(piece).is_err() {
            return Err(FrameFault::NoMemory);
        }
        if self.held.len() < self.wanted {
            return Ok(Frames::new(alloc));
        }
        match frames_at(alloc, &self.held) {
            Ok((frames, left)) => {
                let done = self.held.len() - left;
                drop_front(&mut self.held, done);
                self.wanted = wanted(&self.held);
                self.before = self.before.saturating_add(done as u64);
                Ok(frames)
            }
            Err(Stop::NoMemory) => {
                self.held.truncate(kept);
                Err(FrameFault::NoMemory)
            }
            Err(Stop::Miss(miss)) => match miss {
                Miss::Short => unreachable!(),
                Miss::Wrong(left) => {
                    let place = self.before.saturating_add((self.held.len() - left) as u64);
                    self.broken = Some(place);
                    self.wanted = 0;
                    Err(FrameFault::BadFrame(place))
                }
            },
        }
    }
}

/// Lets the first bytes go. Where there are none to go, nothing moves.
fn drop_front(bytes: &mut Vec<u8>, count: usize)
    requires { count ≤ length bytes.old.items }
    ensures { bytes.new.items ≡ drop count bytes.old.items }
{
    if count > 0 {
        bytes.drain(..count);
    }
}

/// How many bytes there must be before there is anything to read in a part of a frame that goes on: all of it,
/// once its body has begun.
fn wanted(bytes: &[u8]) -> usize
    requires { IsPartial bytes.now }
    ensures { StaysPartial bytes.now result }
{
    if bytes.len() < BODY_PLACE {
        return 0;
    }
    BigEndian::read_u32(bytes) as usize + 4
}

/// The frames at the front of some bytes, and how many bytes are left behind them.
fn frames_at(alloc: Global, bytes: &[u8]) -> Result<(Frames, usize), Stop>
    ensures ok { IfOk result (λ x. (x.1 ≤ length bytes.now) × IsCut bytes.now x.0 (drop (length bytes.now - x.1) bytes.now)) }
    ensures err { IfErr result (λ stop. StopsWell stop bytes.now) }
{
    let mut frames = Frames::new(alloc);
    let mut rest = bytes;
    'reading: loop {
        match frame_at(alloc, rest) {
            Ok((frame, after)) => {
                frames.push(frame)?;
                rest = after;
            }
            Err(Stop::NoMemory) => return Err(Stop::NoMemory),
            Err(Stop::Miss(miss)) => match miss {
                Miss::Short => return Ok((frames, rest.len())),
                Miss::Wrong(_) => return Err(Stop::Miss(miss)),
            },
        }
    }
}
