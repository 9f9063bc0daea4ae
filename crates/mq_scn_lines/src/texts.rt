//! Texts in quotes, and fields that they fill.

ghost use Rattle.std.specs.Prelude.{◌≡◌, ◌≤◌, length};
ghost use Rattle.mq_scn_lines.specs.Faults.{Reads};
ghost use Rattle.mq_scn_lines.specs.Texts.{is_text, text_in, filled, field_in};

use crate::fault::LineFault;
use mq_base::Items;
use mq_text::{quoted_len, unquoted};
use std::alloc::Global;

/// Whether a word is a text in quotes, whole.
fn is_text(word: &[u8]) -> bool
    ensures { result ≡ is_text word.now }
{
    match word {
        [b'\'', rest @ ..] => quoted_len(rest) == Some(rest.len()),
        _ => false,
    }
}

/// The text in quotes that a word is, in which two quotes are one; any other word is Form.
pub fn text_in(alloc: Global, word: &[u8]) -> Result<Items<u8>, LineFault>
    ensures { Reads result (text_in word.now) }
{
    if !is_text(word) {
        return Err(LineFault::Form);
    }
    Ok(unquoted(alloc, word)?)
}

/// A field with a text at its front, and that byte behind it.
fn filled<const N: usize>(text: &[u8], pad: u8) -> [u8; N]
    requires { length text.now ≤ N }
    ensures { result ≡ filled N pad text.now }
{
    let mut field = [pad; N];
    let (front, _) = field.split_at_mut(text.len());
    front.copy_from_slice(text);
    field
}

/// The field that a text in quotes fills, with that byte behind it; a text that is too long is Form.
pub fn field_in<const N: usize>(alloc: Global, word: &[u8], pad: u8) -> Result<[u8; N], LineFault>
    ensures { Reads result (field_in N pad word.now) }
{
    let text = text_in(alloc, word)?;
    if text.len() > N {
        return Err(LineFault::Form);
    }
    Ok(filled::<N>(text.as_slice(), pad))
}
