// The store's sheet: its layout, and what its test means, are in specs/. The code that reads and writes it stands in the crates that
// use this one, and finds every number by these names.
#![tactic(auto)]

use refusals::MAX_MCC;

// The numbers that stand before the heads, in bytes, and the bytes of a head.
pub const STORE_FRONT: usize = 64;

pub const STORE_HEAD: usize = 56;

// Where the numbers stand that a map has not, behind those of both sheets.
pub const NAMESPACE_AT: usize = 40;

pub const HELD_AT: usize = 48;

pub const LET_GO_AT: usize = 56;

// Where the parts of a head stand in it.
pub const SUBSPACE_AT: usize = 0;

pub const TIMESTAMP_AT: usize = 8;

pub const PAYLOAD_LENGTH_AT: usize = 16;

pub const DIGEST_AT: usize = 24;

// How many held prefixes a path can have, itself among them: one more than a path's components.
pub const MAX_DEPTH: usize = MAX_MCC as usize + 1;
