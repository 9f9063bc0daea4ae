//! Texts in single quotes, and the folding of letters.

ghost use Rattle.std.specs.Prelude.{◌≡◌, ◌<◌, ◌≤◌, length, IfOk, IfSome};
ghost use Rattle.std.specs.Str.{str_to_ascii_uppercase};
ghost use Rattle.mq_text.specs.Quoting.{quoted_len, undoubled, unquoted};

use mq_base::Items;
use std::alloc::{AllocError, Global};

/// Behind an opening quote: how many bytes there are up to the closing one and with it; None where
/// nothing closes it.
pub fn quoted_len(bytes: &[u8]) -> Option<usize>
    ensures len { result ≡ quoted_len bytes.now }
    ensures within { IfSome result (λ n. n ≤ length bytes.now) }
{
    let mut at = 0;
    'reading: while at < bytes.len() {
        if bytes[at] != b'\'' {
            at += 1;
        } else if at + 1 < bytes.len() && bytes[at + 1] == b'\'' {
            at += 2;
        } else {
            return Some(at + 1);
        }
    }
    None
}

/// Behind an opening quote: the text up to the closing one. Two quotes stand for one.
fn undoubled(alloc: Global, bytes: &[u8]) -> Result<Items<u8>, AllocError>
    ensures { IfOk result (λ t. t ≡ undoubled bytes.now) }
{
    let mut text = Items::new(alloc);
    let mut at = 0;
    'reading: while at < bytes.len() {
        if bytes[at] != b'\'' {
            text.push(bytes[at])?;
            at += 1;
        } else if at + 1 < bytes.len() && bytes[at + 1] == b'\'' {
            text.push(b'\'')?;
            at += 2;
        } else {
            return Ok(text);
        }
    }
    Ok(text)
}

/// The text of a piece in quotes, which begins with its opening quote. Two quotes in it stand for one.
///
/// # Errors
///
/// No memory.
pub fn unquoted(alloc: Global, piece: &[u8]) -> Result<Items<u8>, AllocError>
    ensures { IfOk result (λ t. t ≡ unquoted piece.now) }
{
    match piece {
        [] => Ok(Items::new(alloc)),
        [_, rest @ ..] => undoubled(alloc, rest),
    }
}

/// The bytes with `a` to `z` as `A` to `Z`; all others stay.
///
/// # Errors
///
/// No memory.
pub fn upper(alloc: Global, bytes: &[u8]) -> Result<Items<u8>, AllocError>
    ensures { IfOk result (λ t. t ≡ str_to_ascii_uppercase bytes.now) }
{
    let folded: Vec<u8> = bytes.iter().map(|b| b.to_ascii_uppercase()).collect(alloc)?;
    Ok(Items::from_vec(folded))
}
