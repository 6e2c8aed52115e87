// The least paths above a tested one, written packed to the front of a lent buffer (path/mod.rs). Nothing here is open to a caller; see
// module `inner`.
#![tactic(auto)]

pub mod inner;
