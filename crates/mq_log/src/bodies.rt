//! The bodies of a log, one behind the other.
ghost use Rattle.std.specs.Prelude.{◌≡◌, List, ℕ};
ghost use Rattle.mq_log.specs.Bodies.{frames, AllFit};
ghost use Rattle.mq_log.specs.Walk.{Walks};

use crate::scan::{OPEN, body_length};

/// The bodies of a log one behind the other, each behind its open gate and its length. The place of a body's gate is
/// the number of bytes in front of it.
#[derive(Clone, Copy)]
pub struct Bodies<'a> {
    /// Their bytes, from the first gate to the end of the last body.
    pub framed: &'a [u8],
}

/// A body, and the bodies behind it.
#[derive(Clone, Copy)]
pub struct Split<'a> {
    /// The bytes of the body alone.
    pub body: &'a [u8],
    /// The bodies behind it.
    pub rest: Bodies<'a>,
}

/// The first of some bodies, none where there is none.
pub fn next_body<'a>(bodies: &Bodies<'a>) -> Option<Split<'a>>
    ensures { (all : List (List ℕ)) → AllFit all → bodies.now.framed.now ≡ frames all → Walks all result }
{
    let framed = bodies.framed;
    if framed.len() < 5 {
        return None;
    }
    if framed[0] != OPEN {
        return None;
    }
    let size = body_length(framed, 0);
    let (_, behind) = framed.split_at(5);
    if behind.len() < size {
        return None;
    }
    let (body, rest) = behind.split_at(size);
    Some(Split {
        body,
        rest: Bodies { framed: rest },
    })
}
