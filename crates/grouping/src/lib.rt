// Grouping of entries: every call on ranges, areas, 3d ranges and areas of interest, by the files that they come from. The modules
// have other names than the crates, which a crate that uses them could not tell apart.
#![tactic(auto)]

pub mod areas;
pub mod areas_of_interest;
pub mod path_ranges;
pub mod ranges;
pub mod ranges_3d;
pub mod subspaces;
