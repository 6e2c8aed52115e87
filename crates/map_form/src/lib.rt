// The area map's sheet: its layout, and what its test means, are in specs/. Here stand the places of its numbers, the sizes that a map is
// made with, and the rows of bytes that have room for a map. But for the sizes, what these bytes hold is read and written by the crates
// that use this one.
#![tactic(auto)]

pub mod rows;
pub mod sizes;

// The numbers that stand before the heads, in bytes, and the bytes of a head.
pub const MAP_FRONT: usize = 40;

pub const MAP_HEAD: usize = 48;

// Where the parts of a head stand in it.
pub const SUBSPACE_KIND_AT: usize = 0;

pub const SUBSPACE_AT: usize = 8;

pub const START_AT: usize = 16;

pub const END_KIND_AT: usize = 24;

pub const END_AT: usize = 32;

pub const VALUE_AT: usize = 40;
