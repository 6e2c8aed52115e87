// Key lines, read: numerals, hexadecimal, paths and questions. The functions stand in module `inner` and are not open to a
// caller: most require room for what they write.
#![tactic(auto)]

pub mod inner;
