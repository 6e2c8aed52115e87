// Ranges of the values of any order (grouping/range.rs).

pub use range::Range;
pub use range_end::{compare_end, compare_ends, compare_value, end_equals, end_number, gt_val};
