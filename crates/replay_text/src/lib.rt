// The text of a stored case: the numbers in it, and the buffers that its pieces stand for. It serves the replaying programs alone, and no
// part of the core rests on it: its functions promise no more than that they end and stay inside.
#![tactic(auto)]

pub mod inner;
