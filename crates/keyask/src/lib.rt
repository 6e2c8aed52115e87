// Key lines, asked: from a line to the outcome of its question. The functions stand in module `inner` and are not open to a
// caller: a line comes to them as a `Text`, which is no longer than a line may be.
#![tactic(auto)]

pub mod inner;
