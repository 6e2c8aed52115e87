// The passes that the test of a store makes over its rows: the cells hold paths, the entries ascend, none prunes another, and their
// payload lengths add up.
#![tactic(auto)]

pub mod inner;
