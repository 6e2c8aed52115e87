// A rule put into its row of a map's sheet (grouping/area.rs, `AreaMap`; document 01, "Sheets"). Nothing here is open to a caller; see
// module `inner`.
#![tactic(auto)]

pub mod inner;
