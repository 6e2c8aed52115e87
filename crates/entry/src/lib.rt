// Entries (entry.rs). An entry is its namespace, its head and its path, which is lent and was tested. The questions on entries are the
// calls of crate `entry_questions`.
#![tactic(auto)]

pub mod entries;
pub mod heads;

use packed::lent::LentPath;

// What an entry has beside its namespace and its path.
#[derive(Clone, Copy)]
pub struct Head {
    pub subspace: u64,
    pub timestamp: u64,
    pub payload_length: u64,
    pub digest: [u8; 32],
}

// An entry, whose path was tested.
#[derive(Clone, Copy)]
pub struct LentEntry<'a> {
    pub namespace: u64,
    pub head: Head,
    pub path: LentPath<'a>,
}
