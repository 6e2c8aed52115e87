// Packed paths: what the calls on paths rest on. Nothing here is open to a caller; see module `inner`.
#![tactic(auto)]

pub mod inner;
pub mod lent;
pub mod paths;
mod writable;
