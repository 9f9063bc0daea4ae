//! Bodies of puts: TEXT('text'), or FILL(n,'c'), n times the byte c.

ghost use Rattle.std.specs.Prelude.{◌≡◌, ◌≤◌, ◌<◌, ◌^◌, IfOk};
ghost use Rattle.mq_scn_lines.specs.Faults.{Reads};
ghost use Rattle.mq_scn_script.specs.Bodies.{fits, begins_with_minus, beyond, fill_len, filled_with, text_body, fill_body, body_in, body_len};

use mq_base::Items;
use mq_history::Body;
use mq_scn_lines::{Limit, LineFault, both, bracketed, text_in};
use mq_text::{NumberFault, cut, number};
use std::alloc::Global;

/// The length of a body in bytes.
pub fn body_len(body: &Body) -> u64
    ensures { result ≡ body_len body.now }
{
    match body {
        Body::Text(text) => text.len() as u64,
        Body::Fill(count, _) => *count as u64,
    }
}

/// A length, where it is within what is left of the limit of all bodies, and within that of one body.
fn fits(left: u64, len: u64) -> Result<u64, LineFault>
    ensures len { result ≡ fits left len }
    ensures range { IfOk result (λ n. n ≤ 4194304) }
{
    if left < len {
        return Err(LineFault::Limit(Limit::Bodies));
    }
    if len > 4_194_304 {
        return Err(LineFault::Limit(Limit::Body));
    }
    Ok(len)
}

fn begins_with_minus(text: &[u8]) -> bool
    ensures { result ≡ begins_with_minus text.now }
{
    match text {
        [b'-', ..] => true,
        _ => false,
    }
}

/// The limit that a number passes which is too large for all bodies, or is below 0.
fn beyond(text: &[u8]) -> LineFault
    ensures { result ≡ beyond text.now }
{
    if begins_with_minus(text) {
        LineFault::Limit(Limit::Body)
    } else {
        LineFault::Limit(Limit::Bodies)
    }
}

/// The number of bytes of a FILL.
fn fill_len(text: &[u8], left: u64) -> Result<u64, LineFault>
    ensures len { result ≡ fill_len left text.now }
    ensures range { IfOk result (λ n. n ≤ 4194304) }
{
    match number(text, 0, 67_108_864) {
        Ok(len) => fits(left, len),
        Err(NumberFault::NoNumber) => Err(LineFault::Form),
        Err(NumberFault::OutOfRange) => Err(beyond(text)),
    }
}

/// The byte of a FILL.
fn filled_with(alloc: Global, word: &[u8]) -> Result<u8, LineFault>
    ensures { Reads result (filled_with word.now) }
{
    let text = text_in(alloc, word)?;
    match text.as_slice() {
        [byte] => Ok(*byte),
        _ => Err(LineFault::Form),
    }
}

fn text_body(alloc: Global, value: &[u8], left: u64) -> Result<Body, LineFault>
    ensures { Reads result (text_body left value.now) }
{
    let text = text_in(alloc, value)?;
    match fits(left, text.len() as u64) {
        Ok(_) => Ok(Body::Text(text)),
        Err(fault) => Err(fault),
    }
}

fn fill_body(alloc: Global, value: &[u8], left: u64) -> Result<Body, LineFault>
    ensures { Reads result (fill_body left value.now) }
{
    let Some((count, word)) = cut(value, b',') else {
        return Err(LineFault::Form);
    };
    let byte = filled_with(alloc, word)?;
    match fill_len(count, left) {
        Ok(len) => Ok(Body::Fill(len as u32, byte)),
        Err(fault) => Err(fault),
    }
}

/// The body that a word is, where so many bytes are left of the limit of all bodies.
///
/// # Errors
///
/// `Form`; the limits `Bodies` and `Body`; `NoMemory`.
pub fn body_in(alloc: Global, word: &[u8], left: u64) -> Result<Body, LineFault>
    ensures { Reads result (body_in left word.now) }
{
    match bracketed(word, b"TEXT(") {
        Some(value) => text_body(alloc, value, left),
        None => match bracketed(word, b"FILL(") {
            Some(value) => fill_body(alloc, value, left),
            None => Err(LineFault::Form),
        },
    }
}
