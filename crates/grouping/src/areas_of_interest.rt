// Areas of interest (grouping/area_of_interest.rs).

pub use area_of_interest::{AreaOfInterest, Met, compare, intersection, intersection_path};
