// The subspaces of areas (grouping/area.rs, `AreaSubspace`).

pub use subspace::{
    agree, compare, equals_id, includes, includes_area_subspace, intersection, is_any,
};
