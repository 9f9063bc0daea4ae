//! Words, numbers, idents and units at the end of a text.
ghost use Rattle.std.specs.Prelude.{◌≡◌, ◌++◌, OnOk};
ghost use Rattle.std.specs.Fmt.{decimal};
ghost use Rattle.mq_message.specs.Text.{ident_text};
ghost use Rattle.mq_sync.specs.Units.{unit_text};
ghost use Rattle.mq_net_stands.specs.Replies.{zeros, number4};

use mq_base::{Items, NoMemory};
use mq_message::Ident;
use mq_sync::Unit;
use std::alloc::Global;

/// A text that grows.
pub type Text = Items<u8>;

/// Bytes at the end.
pub fn put(out: &mut Text, bytes: &[u8]) -> Result<(), NoMemory>
    ensures { OnOk result (out.new ≡ out.old ++ bytes.now) }
{
    match out.extend_from_slice(bytes) {
        Ok(()) => Ok(()),
        Err(_) => Err(NoMemory),
    }
}

/// Words at the end.
pub fn put_word(out: &mut Text, word: &str) -> Result<(), NoMemory>
    ensures { OnOk result (out.new ≡ out.old ++ word.now) }
{
    put(out, word.as_bytes())
}

/// A number in decimal.
pub fn put_number(alloc: Global, out: &mut Text, n: u64) -> Result<(), NoMemory>
    ensures { OnOk result (out.new ≡ out.old ++ decimal n) }
{
    let text = format!(in alloc; "{n}")?;
    put(out, text.as_bytes())
}

fn zeros(number: u64) -> &'static str
    ensures { result.now ≡ zeros number }
{
    if number < 10 {
        "000"
    } else if number < 100 {
        "00"
    } else if number < 1000 {
        "0"
    } else {
        ""
    }
}

/// A number in four places with zeros, more digits where needed.
pub fn put_number4(alloc: Global, out: &mut Text, number: u64) -> Result<(), NoMemory>
    ensures { OnOk result (out.new ≡ out.old ++ number4 number) }
{
    put_word(out, zeros(number))?;
    put_number(alloc, out, number)
}

/// An ident.
pub fn put_ident(alloc: Global, out: &mut Text, ident: &Ident) -> Result<(), NoMemory>
    ensures { OnOk result (out.new ≡ out.old ++ ident_text ident.now) }
{
    let ident = *ident;
    let text = format!(in alloc; "{ident}")?;
    put(out, text.as_bytes())
}

/// A unit.
pub fn put_unit(alloc: Global, out: &mut Text, unit: &Unit) -> Result<(), NoMemory>
    ensures { OnOk result (out.new ≡ out.old ++ unit_text unit.now) }
{
    let unit = *unit;
    let text = format!(in alloc; "{unit}")?;
    put(out, text.as_bytes())
}
