//! Lines of a text, and what stands before and behind something in it.

ghost use Rattle.std.specs.Prelude.{◌≡◌, ◌⊎◌, ◌+◌, ◌<◌, ◌∷◌, ◌==◌, [], MatchOption, IfSome, Some, None, position, length, option_copied};
ghost use Rattle.std.specs.Option.{option_map};
ghost use Rattle.mq_text.specs.Lines.{behind, cut, lines_of};

/// What stands behind a text, where the bytes begin with it; None where they don't.
pub fn behind<'a>(bytes: &'a [u8], text: &[u8]) -> Option<&'a [u8]>
    ensures { option_copied result ≡ behind text.now bytes.now }
{
    bytes.strip_prefix(text)
}

fn place_of(bytes: &[u8], byte: u8) -> Option<usize>
    ensures { result ≡ position (λ b. b == byte) bytes.now }
{
    bytes.iter().position(|b| *b == byte)
}

/// What stands before the first such byte, and behind it; None where there is none.
pub fn cut(bytes: &[u8], byte: u8) -> Option<(&[u8], &[u8])>
    ensures parts { option_map (λ p. (p.0.now, p.1.now)) result ≡ cut byte bytes.now }
    ensures shorter { IfSome result (λ p. length p.0.now + length p.1.now + 1 ≡ length bytes.now) }
{
    match place_of(bytes, byte) {
        None => None,
        Some(at) => {
            let (front, rest) = bytes.split_at(at);
            let (_, rest) = rest.split_at(1);
            Some((front, rest))
        }
    }
}

/// The first line of a text without its line feed, and what stands behind it; None where the text is
/// empty. The last line may lack its line feed (this project's choice).
pub fn next_line(text: &[u8]) -> Option<(&[u8], &[u8])>
    ensures line { MatchOption result (lines_of text.now ≡ []) (λ p. lines_of text.now ≡ p.0.now ∷ lines_of p.1.now) }
    ensures shorter { IfSome result (λ p. length p.1.now < length text.now) }
    ensures whole { IfSome result (λ p. (length p.0.now + length p.1.now + 1 ≡ length text.now) ⊎ (p.1.now ≡ [])) }
{
    if text.is_empty() {
        return None;
    }
    match cut(text, b'\n') {
        Some((line, rest)) => Some((line, rest)),
        None => Some((text, &[])),
    }
}
