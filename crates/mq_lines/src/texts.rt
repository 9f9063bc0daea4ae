//! Texts of fields with blanks behind them.
ghost use Rattle.std.specs.Prelude.{◌≡◌};
ghost use Rattle.mq_base.specs.Name.{padded};

use mq_base::{Label, field_of};

/// The name of an application (MQMD ApplName, 28 bytes) that a label gives: the label with blanks behind it.
pub fn appl_name(label: &Label) -> [u8; 28]
    ensures { result ≡ padded 28 label.now }
{
    field_of::<28>(label.text())
}
