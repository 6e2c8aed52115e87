// The lines of an input that comes in chunks, for the program `key`. The functions stand in module `inner`.
#![tactic(auto)]

pub mod inner;
