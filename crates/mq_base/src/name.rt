//! Names in fields of one width: of queues and managers, and of channels.
ghost use Rattle.std.specs.Prelude.{◌≡◌, ◌<◌, ◌≤◌, ◌↔◌, [], length, IsTrue, bytes_eq};
ghost use Rattle.mq_base.specs.Name.{padded, name_of, IsName};

use crate::fault::NameFault;
use crate::field::{bad_byte, field_of};
use std::fmt;
use std::hash::{Hash, Hasher};
use std::marker::Model;

/// A name of at most `N` bytes, or the blank name. Contracts see it as its text.
#[derive(Clone, Copy)]
pub struct Name<const N: usize> {
    field: [u8; N],
    len: usize,
}

/// A name of a queue or a manager, or the blank name.
pub type QName = Name<48>;

/// A name of a channel, or the blank name.
pub type ChName = Name<20>;

impl<const N: usize> Model for Name<N> {
    ghost use Rattle.std.specs.Prelude.{List, ℕ, length, take};
    ghost use Rattle.mq_base.specs.Name.{padded, is_name_byte, HoldsText};

    ghost Value = { List ℕ };

    ghost view = { λ n. take n.len n.field };

    ghost invariant = { λ n. HoldsText is_name_byte N n.field n.len };

    ghost inverse = { λ text. record { field = padded N text; len = length text } };

    ghost use Rattle.std.proofs.Common.{◌∙◌, ap, sym};
    ghost use Rattle.mq_base.specs.declared.name.Name.TheInside.{Inside};

    ghost inverse_ok = { λ a h. ap (λ (n : ℕ). record { field = padded N (take a.len a.field); len = n }) h.counted ∙ ap (λ (f : List ℕ). record { field = f; len = a.len }) (sym h.whole) };
}

impl<const N: usize> Name<N> {
    /// The name that a text is: letters, digits and `.`, `/`, `_`, `%`, at least one and at most `N` (MQSC reference,
    /// "Rules for naming IBM MQ objects": 48 for a queue or a manager, 20 for a channel). Refused, in this order:
    /// `Empty`, `TooLong`, `BadByte` with the first such place.
    pub fn of(text: &[u8]) -> Result<Name<N>, NameFault>
        ensures { result ≡ name_of N text.now }
    {
        if text.is_empty() {
            return Err(NameFault::Empty);
        }
        if text.len() > N {
            return Err(NameFault::TooLong);
        }
        match bad_byte(text) {
            Some(place) => Err(NameFault::BadByte(place)),
            None => Ok(Name {
                field: field_of::<N>(text),
                len: text.len(),
            }),
        }
    }

    /// The blank name, which stands where nothing is named.
    pub fn blank() -> Name<N>
        ensures { result ≡ [] }
    {
        Name {
            field: field_of::<N>(&[]),
            len: 0,
        }
    }

    /// Whether this is the blank name.
    pub fn is_blank(&self) -> bool
        ensures { IsTrue result ↔ (self.now ≡ []) }
    {
        self.text().is_empty()
    }

    /// The `N` bytes as they stand in a structure: the name, and blanks behind it.
    pub fn bytes(&self) -> &[u8; N]
        ensures bytes { result.now ≡ padded N self.now }
        ensures name { IsName N self.now }
    {
        &self.field
    }

    /// The name without its blanks.
    pub fn text(&self) -> &[u8]
        ensures text { result.now ≡ self.now }
        ensures name { IsName N self.now }
    {
        let (text, _) = self.field.split_at(self.len);
        text
    }

    /// The name without its blanks, as text.
    pub fn as_str(&self) -> &str
        ensures { result.now ≡ self.now }
    {
        match str::from_utf8(self.text()) {
            Ok(text) => text,
            Err(_) => unreachable!(),
        }
    }
}

impl<const N: usize> fmt::Display for Name<N> {
    ghost use Rattle.std.specs.Prelude.{Some};

    ghost output = { λ n. Some n };

    fn fmt<W: fmt::Write>(&self, f: &mut fmt::Formatter<W>) -> fmt::Result {
        f.write_str(self.as_str())
    }
}

impl<const N: usize> fmt::Debug for Name<N> {
    fn fmt<W: fmt::Write>(&self, f: &mut fmt::Formatter<W>) -> fmt::Result {
        f.write_str(self.as_str())
    }
}

impl<const N: usize> PartialEq for Name<N> {
    ghost use Rattle.std.specs.Prelude.{bytes_eq};
    ghost use Rattle.std.specs.Cmp.{partial_equiv_from_equiv};
    ghost use Rattle.std.specs.Cmp.Lexicographic.{nat_list_eq_equiv};

    ghost eq = { λ a b. bytes_eq a b };

    ghost laws = { partial_equiv_from_equiv nat_list_eq_equiv };

    fn eq(&self, other: &Name<N>) -> bool
        ensures value { result ≡ bytes_eq self.now other.now }
        ensures same { IsTrue result ↔ (self.now ≡ other.now) }
    {
        self.text() == other.text()
    }
}

impl<const N: usize> Eq for Name<N> {
    ghost use Rattle.std.specs.Cmp.Lexicographic.{nat_list_eq_equiv};

    ghost laws = { nat_list_eq_equiv };
}

impl<const N: usize> Hash for Name<N> {
    ghost use Rattle.std.proofs.Common.{rules};
    ghost use Rattle.std.specs.Cmp.Rules.{hashing};
    ghost use Rattle.std.specs.Hash as fed;

    ghost hash_input = { λ n. fed.str n };

    ghost respects_eq = { Prim.search (hashing, rules) };

    fn hash<H: Hasher>(&self, state: &mut H) {
        self.as_str().hash(state);
    }
}
