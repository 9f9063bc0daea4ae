//! The words of a line: blanks outside quotes part them.

ghost use Rattle.std.specs.Prelude.{◌≡◌, ◌≤◌, ◌<◌, ◌∷◌, [], length, false, IfOk, IfSome, MatchOption};
ghost use Rattle.std.specs.Option.{option_map};
ghost use Rattle.mq_scn_lines.specs.Words.{texts_of, toggled, word_len, is_open, words_from, words_of, first_word};

use mq_base::Items;
use std::alloc::{AllocError, Global};

/// Whether a text in quotes is open behind a byte.
fn toggled(quoted: bool, b: u8) -> bool
    ensures { result ≡ toggled quoted b }
{
    if b == b'\'' { !quoted } else { quoted }
}

/// How many bytes the word has that stands at the front of a text.
fn word_len(text: &[u8]) -> usize
    ensures len { result ≡ word_len false text.now }
    ensures within { result ≤ length text.now }
{
    let mut quoted = false;
    let mut len = 0;
    let mut rest = text;
    'reading: while let [b, behind @ ..] = rest {
        if *b == b' ' && !quoted {
            return len;
        }
        quoted = toggled(quoted, *b);
        len += 1;
        rest = behind;
    }
    len
}

/// Whether a text has a quote that nothing closes.
pub fn is_open(text: &[u8]) -> bool
    ensures { result ≡ is_open false text.now }
{
    let mut quoted = false;
    let mut rest = text;
    'reading: while let [b, behind @ ..] = rest {
        quoted = toggled(quoted, *b);
        rest = behind;
    }
    quoted
}

/// The first word of a text, and what stands behind it.
#[tactic(auto, using(crate::proofs::WordLaws::word_passed, crate::proofs::WordLaws::len_some))]
pub fn first_word(text: &[u8]) -> Option<(&[u8], &[u8])>
    ensures word { MatchOption result (words_from 0 text.now ≡ []) (λ p. words_from 0 text.now ≡ p.0.now ∷ words_from 0 p.1.now) }
    ensures exact { option_map (λ p. (p.0.now, p.1.now)) result ≡ first_word text.now }
    ensures shorter { IfSome result (λ p. length p.1.now < length text.now) }
{
    let mut rest = text;
    'skipping: while let [b, behind @ ..] = rest {
        if *b != b' ' {
            let (word, after) = rest.split_at(word_len(rest));
            return Some((word, after));
        }
        rest = behind;
    }
    None
}

/// The words of a line, in order.
#[tactic(auto, unfolding(crate::specs::Words::words_of))]
pub fn words_of<'a>(alloc: Global, line: &'a [u8]) -> Result<Items<&'a [u8]>, AllocError>
    ensures { IfOk result (λ ws. texts_of ws ≡ words_of line.now) }
{
    let mut words = Items::new(alloc);
    let mut rest = line;
    'reading: while let Some((word, after)) = first_word(rest) {
        words.push(word)?;
        rest = after;
    }
    Ok(words)
}
