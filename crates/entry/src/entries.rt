// Questions on entries whose paths were tested.
#![tactic(auto, unfolding(willow::specs::Entries::prunes, willow::specs::Orders::compare_numbers))]

ghost use Rattle.std.specs.Prelude.{◌≡◌, ℕ};
ghost use Rattle.std.specs.Ordering.{as_partial_cmp, eq_by_cmp};
ghost use Rattle.std.proofs.Common.{refl};
ghost use Rattle.willow.specs.Entries.{compare_places, prunes};
ghost use Rattle.packed.specs.LentPaths.{path_of};
ghost use Rattle.entry.specs.Heads.{entry_at};
ghost use Rattle.entry.specs.LentEntries.{compare_lent, entry_of};
ghost use Rattle.entry.specs.EntryOrders.{lent_equivalence, lent_partial_equivalence, lent_partial_order, lent_total};

use crate::LentEntry;
use std::cmp::Ordering;

impl<'a> LentEntry<'a> {
    // Whether this entry prunes the other.
    pub fn prunes(&self, other: &LentEntry) -> bool
        ensures { result ≡ prunes (entry_of self.now) (entry_of other.now) }
    {
        self.namespace == other.namespace
            && self.head.subspace == other.head.subspace
            && self.head.is_newer_than(&other.head)
            && self.path.is_prefix_of(other.path)
    }

    // By place: subspace, then path, whatever the namespaces.
    pub fn compare_places(&self, other: &LentEntry) -> Ordering
        ensures places { result ≡ compare_places (entry_of self.now) (entry_of other.now) }
        ensures of_any_namespaces { (m n : ℕ) → result ≡ compare_places (entry_at m self.now.head (path_of self.now.path)) (entry_at n other.now.head (path_of other.now.path)) }
    {
        (self.head.subspace, self.path).cmp(&(other.head.subspace, other.path))
    }
}

// By hand: a derive compares fields in their order, and a head has the subspace, which goes before the path, and the age, which goes
// behind it.
impl<'a> PartialEq for LentEntry<'a> {
    ghost eq = { eq_by_cmp compare_lent };

    ghost laws = { lent_partial_equivalence };

    fn eq(&self, other: &Self) -> bool {
        self.cmp(other).is_eq()
    }
}

impl<'a> Eq for LentEntry<'a> {
    ghost laws = { lent_equivalence };
}

impl<'a> PartialOrd for LentEntry<'a> {
    ghost partial_cmp = { as_partial_cmp compare_lent };

    ghost laws = { lent_partial_order };

    fn partial_cmp(&self, other: &Self) -> Option<Ordering> {
        Some(self.cmp(other))
    }
}

// By namespace, then place, then age.
impl<'a> Ord for LentEntry<'a> {
    ghost cmp = { compare_lent };

    ghost total = { lent_total };

    ghost matches_partial_cmp = { λ p q. refl };

    ghost matches_eq = { λ p q. refl };

    fn cmp(&self, other: &Self) -> Ordering {
        let (a, b) = (&self.head, &other.head);
        let age = (a.timestamp, a.digest, a.payload_length);
        let age2 = (b.timestamp, b.digest, b.payload_length);
        let key = (self.namespace, a.subspace, self.path, age);
        key.cmp(&(other.namespace, b.subspace, other.path, age2))
    }
}
