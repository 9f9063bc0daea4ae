//! Labels of scenarios.
ghost use Rattle.std.specs.Prelude.{◌≡◌, ◌<◌, ◌≤◌, ◌↔◌, [], length, IsTrue, bytes_eq};
ghost use Rattle.std.specs.List.{list_all};
ghost use Rattle.mq_base.specs.Name.{label_of, is_label_byte, IsLabel};

use crate::field::is_label_byte;
use crate::name::Name;
use std::fmt;
use std::hash::{Hash, Hasher};
use std::marker::Model;

/// A label of a section, a script or a handle: a name of at most eight bytes. Contracts see it as its text.
#[derive(Clone, Copy)]
pub struct Label {
    name: Name<8>,
}

impl Model for Label {
    ghost use Rattle.std.specs.Prelude.{List, ℕ};
    ghost use Rattle.mq_base.specs.Name.{IsLabel};

    ghost Value = { List ℕ };

    ghost view = { λ l. l.name };

    ghost invariant = { λ l. IsLabel l.name };

    ghost inverse = { λ text. record { name = text } };
}

fn all_label_bytes(text: &[u8]) -> bool
    ensures { result ≡ list_all is_label_byte text.now }
{
    text.iter().all(|b| is_label_byte(*b))
}

impl Label {
    /// The label that a text is: one to eight of the letters A to Z and the digits (this project's choice); none
    /// for any other text.
    pub fn of(text: &[u8]) -> Option<Label>
        ensures { result ≡ label_of text.now }
    {
        if !all_label_bytes(text) {
            return None;
        }
        match Name::of(text) {
            Err(_) => None,
            Ok(name) => Some(Label { name }),
        }
    }

    /// The bytes of the label.
    pub fn text(&self) -> &[u8]
        ensures text { result.now ≡ self.now }
        ensures label { IsLabel self.now }
    {
        self.name.text()
    }

    /// The label as text.
    pub fn as_str(&self) -> &str
        ensures { result.now ≡ self.now }
    {
        self.name.as_str()
    }
}

impl fmt::Display for Label {
    ghost use Rattle.std.specs.Prelude.{Some};

    ghost output = { λ n. Some n };

    fn fmt<W: fmt::Write>(&self, f: &mut fmt::Formatter<W>) -> fmt::Result {
        self.name.fmt(f)
    }
}

impl fmt::Debug for Label {
    fn fmt<W: fmt::Write>(&self, f: &mut fmt::Formatter<W>) -> fmt::Result {
        self.name.fmt(f)
    }
}

impl PartialEq for Label {
    ghost use Rattle.std.specs.Prelude.{bytes_eq};
    ghost use Rattle.std.specs.Cmp.{partial_equiv_from_equiv};
    ghost use Rattle.std.specs.Cmp.Lexicographic.{nat_list_eq_equiv};

    ghost eq = { λ a b. bytes_eq a b };

    ghost laws = { partial_equiv_from_equiv nat_list_eq_equiv };

    fn eq(&self, other: &Label) -> bool
        ensures value { result ≡ bytes_eq self.now other.now }
        ensures same { IsTrue result ↔ (self.now ≡ other.now) }
    {
        self.name == other.name
    }
}

impl Eq for Label {
    ghost use Rattle.std.specs.Cmp.Lexicographic.{nat_list_eq_equiv};

    ghost laws = { nat_list_eq_equiv };
}

impl Hash for Label {
    ghost use Rattle.std.proofs.Common.{rules};
    ghost use Rattle.std.specs.Cmp.Rules.{hashing};
    ghost use Rattle.std.specs.Hash as fed;

    ghost hash_input = { λ n. fed.str n };

    ghost respects_eq = { Prim.search (hashing, rules) };

    fn hash<H: Hasher>(&self, state: &mut H) {
        self.name.hash(state);
    }
}
