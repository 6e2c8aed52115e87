// What the builder rests on (path/builder.rs): the test of its buffer against the counts beside it, and the writes. Nothing
// here is open to a caller; see module `inner`.
#![tactic(auto, unfolding(crate::specs::Buffer::size_of, crate::specs::Buffer::agrees_with))]

pub mod inner;
