// Answers to key lines, written as text. Nothing here is open to a caller; see module `inner`.
#![tactic(auto)]

pub mod inner;
