// The row of an offer put in at its place among a store's rows. It is not open to a caller.
#![tactic(auto)]

pub mod inner;
