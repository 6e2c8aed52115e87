// Ranges of paths (grouping/range.rs).

pub use path_bounds::{lend_end, lend_range};
pub use path_end::{compare_end, compare_ends, compare_value, end_equals, gt_val};
pub use path_range::{compare, full, includes, includes_range, new_closed};
pub use path_range_intersection::{Side, intersection, sides};
