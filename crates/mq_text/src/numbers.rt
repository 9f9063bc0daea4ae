//! Decimal numbers within a range.

ghost use Rattle.std.specs.Prelude.{◌≡◌, ◌<◌, ◌≤◌, ◌-◌, ◌^◌, min, IfOk};
ghost use Rattle.std.specs.List.{list_all};
ghost use Rattle.mq_text.specs.Numbers.{is_digit, is_number, value_of, is_negative, small_negative, number_in, signed_of};

use thiserror::Error;

/// Why a text is no number of a range.
#[derive(Clone, Copy, Debug, PartialEq, Eq, Error)]
pub enum NumberFault {
    /// Not decimal digits, with or without a minus in front.
    #[error("not a number")]
    NoNumber,
    /// A number, but not in the range, however many digits it has.
    #[error("a number out of range")]
    OutOfRange,
}

fn is_digit(b: u8) -> bool
    ensures { result ≡ is_digit b }
{
    b.is_ascii_digit()
}

fn all_digits(text: &[u8]) -> bool
    ensures { result ≡ list_all is_digit text.now }
{
    text.iter().all(|b| is_digit(*b))
}

fn is_number(text: &[u8]) -> bool
    ensures { result ≡ is_number text.now }
{
    match text {
        [] => false,
        _ => all_digits(text),
    }
}

fn is_negative(text: &[u8]) -> bool
    ensures { result ≡ is_negative text.now }
{
    match text {
        [b'-', rest @ ..] => is_number(rest),
        _ => false,
    }
}

/// The value of decimal digits, or the last 64-bit number where it is above that.
fn value_of(text: &[u8]) -> u64
    ensures { result ≡ min (value_of text.now) (2 ^ 64 - 1) }
{
    let mut value = 0u64;
    for b in text {
        value = value
            .saturating_mul(10)
            .saturating_add(u64::from(b.saturating_sub(b'0')));
    }
    value
}

/// The number that a text is, from `low` to `high`: decimal digits, leading zeros allowed.
///
/// # Errors
///
/// `OutOfRange` where it is a number outside the range, or one with a minus; else `NoNumber`.
#[tactic(auto, unfolding(crate::specs::Numbers::number_in))]
pub fn number(text: &[u8], low: u64, high: u64) -> Result<u64, NumberFault>
    requires { high < 2 ^ 64 - 1 }
    ensures number { result ≡ number_in low high text.now }
    ensures range { IfOk result (λ n. (low ≤ n) × (n ≤ high)) }
{
    if is_number(text) {
        let value = value_of(text);
        if low <= value && value <= high {
            return Ok(value);
        }
        return Err(NumberFault::OutOfRange);
    }
    if is_negative(text) {
        return Err(NumberFault::OutOfRange);
    }
    Err(NumberFault::NoNumber)
}

/// The number behind a minus.
fn negative(value: u64) -> Result<i32, NumberFault>
    ensures { result ≡ small_negative value }
{
    if value > 2_147_483_648 {
        return Err(NumberFault::OutOfRange);
    }
    Ok((-(value as i64)) as i32)
}

/// The number that a text is, with a minus or without, in 32 signed bits.
///
/// # Errors
///
/// `OutOfRange` where it is a number outside these; else `NoNumber`.
#[tactic(auto, unfolding(crate::specs::Numbers::signed_of))]
pub fn signed(text: &[u8]) -> Result<i32, NumberFault>
    ensures { result ≡ signed_of text.now }
{
    if is_number(text) {
        let value = value_of(text);
        if value < 2_147_483_648 {
            return Ok(value as i32);
        }
        return Err(NumberFault::OutOfRange);
    }
    match text {
        [b'-', digits @ ..] if is_number(digits) => negative(value_of(digits)),
        _ => Err(NumberFault::NoNumber),
    }
}
