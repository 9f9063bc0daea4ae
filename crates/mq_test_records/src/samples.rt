//! Bodies of the log as the format's table lays them out, with the places at which no other byte may stand.

use std::alloc::{AllocError, Global};

/// A body, and for each of its bytes whether another one there makes it no record.
#[derive(Drop)]
pub struct Sample {
    pub bytes: Vec<u8>,
    pub strict: Vec<bool>,
}

/// A piece of a body.
enum Piece {
    /// Bytes that can't be others.
    Strict(&'static [u8]),
    /// Bytes that may be any.
    Free(&'static [u8]),
    /// A text with blanks behind, up to that width.
    Name(&'static [u8], usize),
    /// A byte so often, which may be any.
    Filled(u8, usize),
}

/// Pieces that stand together.
enum Part {
    One(Piece),
    /// Manager 1, incarnation 2, number 3.
    Ident,
    /// Session 5, n 6.
    Unit,
    /// A persistent message with the body `hello`, and no route.
    Message,
    /// The same with a route.
    Routed,
}

const IDENT: Piece = Piece::Free(b"\x01\0\0\0\0\0\0\0\x02\0\0\0\0\0\0\0\x03");

const UNIT: Piece = Piece::Free(b"\0\0\0\0\0\0\0\x05\0\0\0\0\0\0\0\x06");

const MESSAGE: [Piece; 9] = [
    IDENT,
    Piece::Strict(b"MD  \0\0\0\x01"),
    Piece::Filled(0, 36),
    Piece::Strict(&[0, 0, 0, 1]),
    Piece::Filled(b'x', 276),
    Piece::Filled(0xff, 8),
    Piece::Strict(&[0]),
    Piece::Strict(&[0, 0, 0, 5]),
    Piece::Free(b"hello"),
];

const ROUTED: [Piece; 11] = [
    IDENT,
    Piece::Strict(b"MD  \0\0\0\x01"),
    Piece::Filled(0, 36),
    Piece::Strict(&[0, 0, 0, 1]),
    Piece::Filled(b'x', 276),
    Piece::Filled(0xff, 8),
    Piece::Strict(&[1]),
    Piece::Name(b"T", 48),
    Piece::Name(b"M3", 48),
    Piece::Strict(&[0, 0, 0, 5]),
    Piece::Free(b"hello"),
];

/// A body of each kind, in the order of their numbers.
const KINDS: [&[Part]; 11] = [
    // Started
    &[
        Part::One(Piece::Strict(&[1])),
        Part::One(Piece::Free(&[1])),
        Part::One(Piece::Name(b"M1", 48)),
        Part::One(Piece::Free(b"\0\0\0\0\0\0\0\x04")),
    ],
    // Objects
    &[
        Part::One(Piece::Strict(&[2, 2, 0, 0, 0, 20])),
        Part::One(Piece::Free(b"DELETE QLOCAL('Q12')")),
    ],
    // Unit: one add with a route and one without, and one remove
    &[
        Part::One(Piece::Strict(&[3, 0, 0, 0, 2, 0, 0, 0, 1])),
        Part::One(Piece::Name(b"M2", 48)),
        Part::Routed,
        Part::One(Piece::Name(b"Q1", 48)),
        Part::Message,
        Part::One(Piece::Name(b"Q1", 48)),
        Part::Ident,
    ],
    // Session
    &[
        Part::One(Piece::Strict(&[4])),
        Part::One(Piece::Name(b"M1.M2", 20)),
        Part::One(Piece::Name(b"M2", 48)),
        Part::One(Piece::Free(b"\0\0\0\0\0\0\0\x05")),
    ],
    // Prepared
    &[
        Part::One(Piece::Strict(&[5])),
        Part::One(Piece::Name(b"M1.M2", 20)),
        Part::Unit,
        Part::One(Piece::Free(&[0, 0, 0, 7])),
        Part::One(Piece::Name(b"M2", 48)),
        Part::One(Piece::Strict(&[0, 0, 0, 2])),
        Part::Ident,
        Part::Ident,
    ],
    // Resolved
    &[
        Part::One(Piece::Strict(&[6])),
        Part::One(Piece::Name(b"M1.M2", 20)),
        Part::Unit,
        Part::One(Piece::Strict(&[1, 0])),
    ],
    // Bound
    &[
        Part::One(Piece::Strict(&[7])),
        Part::One(Piece::Name(b"M1.M2", 20)),
        Part::One(Piece::Name(b"M1", 48)),
        Part::One(Piece::Free(b"\0\0\0\0\0\0\0\x05\0\0\0\x07")),
    ],
    // Closed
    &[
        Part::One(Piece::Strict(&[8])),
        Part::One(Piece::Name(b"M1.M2", 20)),
        Part::One(Piece::Free(b"\0\0\0\0\0\0\0\x05")),
    ],
    // Received
    &[
        Part::One(Piece::Strict(&[9])),
        Part::One(Piece::Name(b"M1.M2", 20)),
        Part::Unit,
        Part::One(Piece::Free(&[0, 0, 0, 7])),
        Part::One(Piece::Strict(&[0, 0, 0, 1])),
        Part::One(Piece::Name(b"Q1", 48)),
        Part::Message,
    ],
    // SeqSet
    &[
        Part::One(Piece::Strict(&[10])),
        Part::One(Piece::Name(b"M1.M2", 20)),
        Part::One(Piece::Strict(&[2])),
        Part::One(Piece::Free(&[0, 0, 0, 7])),
    ],
    // Moved
    &[
        Part::One(Piece::Strict(&[11])),
        Part::One(Piece::Name(b"DLQ", 48)),
        Part::Ident,
        Part::One(Piece::Name(b"Q1", 48)),
        Part::Message,
    ],
];

impl Sample {
    fn put_byte(&mut self, byte: u8, strict: bool) -> Result<(), AllocError> {
        self.bytes.push(byte)?;
        self.strict.push(strict)?;
        Ok(())
    }

    fn put_bytes(&mut self, bytes: &[u8], strict: bool) -> Result<(), AllocError> {
        for byte in bytes {
            self.put_byte(*byte, strict)?;
        }
        Ok(())
    }

    fn fill(&mut self, byte: u8, count: usize, strict: bool) -> Result<(), AllocError> {
        for _ in 0..count {
            self.put_byte(byte, strict)?;
        }
        Ok(())
    }

    fn put(&mut self, piece: &Piece) -> Result<(), AllocError> {
        match piece {
            Piece::Strict(bytes) => self.put_bytes(bytes, true),
            Piece::Free(bytes) => self.put_bytes(bytes, false),
            Piece::Name(text, width) => {
                self.put_bytes(text, true)?;
                self.fill(b' ', width.saturating_sub(text.len()), true)
            }
            Piece::Filled(byte, count) => self.fill(*byte, *count, false),
        }
    }

    fn put_all(&mut self, pieces: &[Piece]) -> Result<(), AllocError> {
        for piece in pieces {
            self.put(piece)?;
        }
        Ok(())
    }

    fn put_part(&mut self, part: &Part) -> Result<(), AllocError> {
        match part {
            Part::One(piece) => self.put(piece),
            Part::Ident => self.put(&IDENT),
            Part::Unit => self.put(&UNIT),
            Part::Message => self.put_all(&MESSAGE),
            Part::Routed => self.put_all(&ROUTED),
        }
    }

    /// The body with another byte at that place; none where it has no such place, or memory lacks.
    pub fn spoiled(&self, place: usize) -> Option<Vec<u8>> {
        match self.bytes.clone() {
            Ok(mut spoiled) => {
                if spoil(&mut spoiled, place) {
                    Some(spoiled)
                } else {
                    None
                }
            }
            Err(_) => None,
        }
    }
}

fn spoil(bytes: &mut [u8], place: usize) -> bool {
    match bytes.get_mut(place) {
        Some(byte) => {
            *byte ^= 0x80;
            true
        }
        None => false,
    }
}

fn put_parts(sample: &mut Sample, parts: &[Part]) -> Result<(), AllocError> {
    for part in parts {
        sample.put_part(part)?;
    }
    Ok(())
}

fn sample_of(alloc: Global, parts: &[Part]) -> Result<Sample, AllocError> {
    let mut sample = Sample {
        bytes: Vec::new(alloc),
        strict: Vec::new(alloc),
    };
    match put_parts(&mut sample, parts) {
        Ok(()) => Ok(sample),
        Err(AllocError) => Err(AllocError),
    }
}

fn push_samples(alloc: Global, samples: &mut Vec<Sample>) -> Result<(), AllocError> {
    for parts in &KINDS {
        samples.push(sample_of(alloc, parts)?)?;
    }
    Ok(())
}

/// A body of each kind, in the order of their numbers.
pub fn each_kind(alloc: Global) -> Result<Vec<Sample>, AllocError> {
    let mut samples = Vec::new(alloc);
    match push_samples(alloc, &mut samples) {
        Ok(()) => Ok(samples),
        Err(AllocError) => Err(AllocError),
    }
}

/// The bytes of the body of the kind with that number, from 1; none where there is no such kind, or memory lacks.
pub fn bytes_of_kind(alloc: Global, kind: usize) -> Option<Vec<u8>> {
    match KINDS.get(kind - kind.min(1)) {
        Some(parts) => match sample_of(alloc, parts) {
            Ok(sample) => Some(sample.bytes),
            Err(AllocError) => None,
        },
        None => None,
    }
}
