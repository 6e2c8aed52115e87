// Heads made, and compared by age.
#![tactic(auto, unfolding(willow::specs::Orders::compare_numbers))]

ghost use Rattle.std.specs.Prelude.{◌≡◌, ℕ};
ghost use Rattle.willow.specs.Entries.{compare_ages, is_newer};
ghost use Rattle.willow.specs.Paths.{Path};
ghost use Rattle.entry.specs.Heads.{entry_at};

use crate::Head;
use std::cmp::Ordering;

impl Head {
    // The head of an entry, from its parts.
    pub fn new(subspace: u64, timestamp: u64, payload_length: u64, digest: &[u8; 32]) -> Head
        ensures { result ≡ record { subspace = subspace; timestamp = timestamp; payload_length = payload_length; digest = digest.now } }
    {
        Head {
            subspace,
            timestamp,
            payload_length,
            digest: *digest,
        }
    }

    // By age: timestamp, then digest, then payload length.
    pub fn compare_ages(&self, other: &Head) -> Ordering
        ensures { (m n : ℕ) (p q : Path) → result ≡ compare_ages (entry_at m self.now p) (entry_at n other.now q) }
    {
        let age = (self.timestamp, self.digest, self.payload_length);
        age.cmp(&(other.timestamp, other.digest, other.payload_length))
    }

    // Whether an entry of this head is newer than one of the other.
    pub fn is_newer_than(&self, other: &Head) -> bool
        ensures { (m n : ℕ) (p q : Path) → result ≡ is_newer (entry_at m self.now p) (entry_at n other.now q) }
    {
        self.compare_ages(other).is_gt()
    }
}
