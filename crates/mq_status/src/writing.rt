//! Words, numbers and units in brackets, at the end of a text.
ghost use Rattle.std.specs.Prelude.{◌≡◌, ◌++◌, OnOk};
ghost use Rattle.std.specs.Fmt.{decimal};
ghost use Rattle.mq_objects.specs.Attributes.{in_brackets};
ghost use Rattle.mq_sync.specs.Units.{unit_text};

use mq_base::Items;
use mq_sync::Unit;
use std::alloc::{AllocError, Global};

/// A keyword with a value in brackets.
pub fn put_pair(out: &mut Items<u8>, word: &str, value: &[u8]) -> Result<(), AllocError>
    ensures { OnOk result (out.new ≡ out.old ++ in_brackets word.now value.now) }
{
    out.extend_from_slice(word.as_bytes())?;
    out.push(b'(')?;
    out.extend_from_slice(value)?;
    out.push(b')')
}

/// A keyword with a number.
pub fn put_number(alloc: Global, out: &mut Items<u8>, word: &str, n: u32) -> Result<(), AllocError>
    ensures { OnOk result (out.new ≡ out.old ++ in_brackets word.now (decimal n)) }
{
    let text = format!(in alloc; "{n}")?;
    put_pair(out, word, text.as_bytes())
}

/// A keyword with a unit.
pub fn put_unit(
    alloc: Global,
    out: &mut Items<u8>,
    word: &str,
    unit: &Unit,
) -> Result<(), AllocError>
    ensures { OnOk result (out.new ≡ out.old ++ in_brackets word.now (unit_text unit.now)) }
{
    let unit = *unit;
    let text = format!(in alloc; "{unit}")?;
    put_pair(out, word, text.as_bytes())
}
