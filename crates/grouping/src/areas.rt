// Areas (grouping/area.rs).

pub use area::Area;
pub use area_intersection::{Met, intersection, intersection_path};
pub use area_questions::{
    almost_includes_area, compare, could_be_pruned_by, could_be_pruned_by_triplet, includes_area,
    includes_entry, includes_triplet,
};
