// What an offer meets among the held entries, in one pass. It is not open to a caller.
#![tactic(auto)]

pub mod inner;

// Whether a held entry prunes the offer, whether one is the offer; how many the offer prunes, and their payload bytes; and how many of
// the others stand below it. Both flags stay beside the numbers: one pass finds all five, and `ScanTheorem` says of each what it is.
#[derive(Clone, Copy, Default)]
pub struct Scan {
    pub outdated: bool,
    pub repeat: bool,
    pub pruned: usize,
    pub freed: u64,
    pub place: usize,
}
