//! Texts of fields.
ghost use Rattle.std.specs.Prelude.{◌≡◌, ◌≤◌, length};
ghost use Rattle.mq_base.specs.Name.{trimmed};

/// A field's text without the blanks at its end.
pub fn trimmed(field: &[u8]) -> &[u8]
    ensures text { result.now ≡ trimmed field.now }
    ensures within { length result.now ≤ length field.now }
{
    let mut len = field.len();
    'trimming: while len > 0 && field[len - 1] == b' ' {
        len -= 1;
    }
    let (text, _) = field.split_at(len);
    text
}
