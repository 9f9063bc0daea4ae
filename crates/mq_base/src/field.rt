//! The alphabets of names and labels, and fields with blanks.
ghost use Rattle.std.specs.Prelude.{◌≡◌, ◌+◌, ◌<◌, ◌≤◌, length, position, not};
ghost use Rattle.mq_base.specs.Name.{is_name_byte, is_label_byte, padded};

/// Whether a byte may stand in a name (MQSC reference, "Rules for naming IBM MQ objects").
pub fn is_name_byte(b: u8) -> bool
    ensures { result ≡ is_name_byte b }
{
    matches!(b, b'A'..=b'Z' | b'a'..=b'z' | b'0'..=b'9' | b'.' | b'/' | b'_' | b'%')
}

/// The place of the first byte that stands in no name.
pub fn bad_byte(text: &[u8]) -> Option<usize>
    ensures { result ≡ position (λ b. not (is_name_byte b)) text.now }
{
    text.iter().position(|b| !is_name_byte(*b))
}

/// Whether a byte may stand in a label: A to Z and 0 to 9 (this project's choice).
pub fn is_label_byte(b: u8) -> bool
    ensures { result ≡ is_label_byte b }
{
    matches!(b, b'A'..=b'Z' | b'0'..=b'9')
}

/// The text with blanks behind it.
pub fn field_of<const N: usize>(text: &[u8]) -> [u8; N]
    requires { length text.now ≤ N }
    ensures { result ≡ padded N text.now }
{
    let mut field = [b' '; N];
    let (front, _) = field.split_at_mut(text.len());
    front.copy_from_slice(text);
    field
}
