// 3d ranges (grouping/range_3d.rs).

pub use range_3d::Range3d;
pub use range_3d_intersection::{from_area, intersection};
pub use range_3d_questions::{
    compare, could_be_pruned_by, could_be_pruned_by_triplet, includes_entry, includes_range,
    includes_triplet,
};
