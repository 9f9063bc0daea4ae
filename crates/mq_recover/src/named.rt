//! Names of channels as keys, in the order of their bytes.
ghost use Rattle.std.specs.Prelude.{Some, bytes_eq, refl};
ghost use Rattle.std.specs.Ordering.{nat_cmp};
ghost use Rattle.std.specs.Cmp.{on_equiv, on_total, on_po, on_per, partial_equiv_from_equiv};
ghost use Rattle.std.specs.Cmp.Lexicographic.{slice_cmp, nat_list_eq_equiv, nat_list_cmp_total, texts_po, texts_ties};

use mq_base::ChName;
use std::cmp::Ordering;

/// A channel's name as a key of a map in the order of bytes.
#[derive(Clone, Copy)]
pub struct ByName {
    /// The name.
    pub name: ChName,
}

impl PartialEq for ByName {
    ghost eq = { λ a b. bytes_eq a.name b.name };

    ghost laws = { on_per (λ k. k.name) (partial_equiv_from_equiv nat_list_eq_equiv) };

    fn eq(&self, other: &ByName) -> bool {
        self.name == other.name
    }
}

impl Eq for ByName {
    ghost laws = { on_equiv (λ k. k.name) nat_list_eq_equiv };
}

impl PartialOrd for ByName {
    ghost partial_cmp = { λ a b. Some (slice_cmp nat_cmp a.name b.name) };

    ghost laws = { on_po (λ k. k.name) texts_po };

    fn partial_cmp(&self, other: &ByName) -> Option<Ordering> {
        Some(self.cmp(other))
    }
}

impl Ord for ByName {
    ghost cmp = { λ a b. slice_cmp nat_cmp a.name b.name };

    ghost total = { on_total (λ k. k.name) nat_list_cmp_total };

    ghost matches_partial_cmp = { λ a b. refl };

    ghost matches_eq = { λ a b. texts_ties a.name b.name };

    fn cmp(&self, other: &ByName) -> Ordering {
        self.name.text().cmp(other.name.text())
    }
}
