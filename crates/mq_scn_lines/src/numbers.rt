//! Numbers in a line.

ghost use Rattle.std.specs.Prelude.{◌≡◌, ◌<◌, ◌≤◌, ◌-◌, ◌^◌, IfOk};
ghost use Rattle.mq_scn_lines.specs.Numbers.{ranged, signed_number};

use crate::fault::LineFault;
use mq_text::{NumberFault, number, signed};

/// The number that a text is, from `low` to `high`; a number beyond is that fault, and what is no number is Form.
pub fn ranged(text: &[u8], low: u64, high: u64, beyond: LineFault) -> Result<u64, LineFault>
    requires { high < 2 ^ 64 - 1 }
    ensures number { result ≡ ranged beyond low high text.now }
    ensures range { IfOk result (λ n. (low ≤ n) × (n ≤ high)) }
{
    match number(text, low, high) {
        Ok(n) => Ok(n),
        Err(NumberFault::NoNumber) => Err(LineFault::Form),
        Err(NumberFault::OutOfRange) => Err(beyond),
    }
}

/// The number of 32 bits with a sign that a text is; any other number is Number, and what is no number is Form.
pub fn signed_number(text: &[u8]) -> Result<i32, LineFault>
    ensures { result ≡ signed_number text.now }
{
    match signed(text) {
        Ok(n) => Ok(n),
        Err(NumberFault::NoNumber) => Err(LineFault::Form),
        Err(NumberFault::OutOfRange) => Err(LineFault::Number),
    }
}
