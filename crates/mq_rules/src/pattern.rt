//! Patterns of texts: matched in time of the pattern's length times the text's, and with no memory.

ghost use Rattle.std.specs.Prelude.{◌≡◌, ℕ, List, ◌+◌, ◌<◌, ◌≤◌, ◌==◌, ◌||◌, ◌&&◌, ◌∷◌, false, length, slice_index, slice_index_or};
ghost use Rattle.mq_rules.specs.Patterns.{like, AreLike};

/// The longest text that is matched.
const LONGEST: usize = 48;

/// Whether a text is like a pattern.
pub fn is_like(pattern: &[u8], text: &[u8]) -> bool
    requires { length text.now ≤ 48 }
    ensures { result ≡ like pattern.now text.now }
{
    // for each place of the text, whether what is left of it is like what is left of the pattern
    let mut places = [false; LONGEST + 1];
    places[text.len()] = true;
    let mut at = pattern.len();
    'reading: while at > 0 {
        at -= 1;
        step_back(&mut places, pattern[at], text);
    }
    places[0]
}

/// Puts a byte of the pattern before what is left of it.
fn step_back(places: &mut [bool], byte: u8, text: &[u8])
    requires { length text.now < length places.old }
    ensures { (pattern : List ℕ) → AreLike places.old pattern text.now → AreLike places.new (byte ∷ pattern) text.now }
{
    if byte == b'*' {
        spread(places, text.len());
    } else {
        pass_one(places, byte, text);
    }
}

/// A place passes where it, or one behind it, passed.
fn spread(places: &mut [bool], len: usize)
    requires { len < length places.old }
    ensures last { slice_index_or places.new len false ≡ slice_index_or places.old len false }
    ensures each { (i : ℕ) → i < len → slice_index_or places.new i false ≡ (slice_index_or places.old i false || slice_index_or places.new (i + 1) false) }
{
    let mut at = len;
    'spreading: while at > 0 {
        at -= 1;
        places[at] = places[at] || places[at + 1];
    }
}

/// A place passes where its byte is the given one, or that is `?`, and the next place passed.
fn pass_one(places: &mut [bool], byte: u8, text: &[u8])
    requires { length text.now < length places.old }
    ensures last { slice_index_or places.new (length text.now) false ≡ false }
    ensures each { (i : ℕ) → i < length text.now → slice_index_or places.new i false ≡ ((byte == 63 || byte == slice_index text.now i) && slice_index_or places.old (i + 1) false) }
{
    for (at, b) in text.iter().enumerate() {
        places[at] = (byte == b'?' || byte == *b) && places[at + 1];
    }
    places[text.len()] = false;
}
