// The rows that an offer prunes taken out of a store, and the others closed up. It is not open to a caller.
#![tactic(auto)]

pub mod inner;
