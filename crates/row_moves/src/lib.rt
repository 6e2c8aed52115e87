// Rows of a sheet moved and cleared: heads and cells alike. They are not open to a caller.
#![tactic(auto)]

pub mod inner;
