// Ends of ranges (grouping/range.rs, `RangeEnd`), of the values of any order: excluded values, or open, which is above every value.
// Nothing is refused. Functions and not methods: methods stand in the crate of their type, and `willow` has no code.
#![tactic(auto)]

ghost use Rattle.std.specs.Prelude.{◌≡◌};
ghost use Rattle.willow.specs.Ranges.{compare_ends, end_above, end_number, end_of};
ghost use Rattle.range_end.specs.EndValues.{compare_end_value, compare_value_end, is_end_value};

use std::cmp::Ordering;
use willow::RangeEnd;

// Whether an end is above a value.
pub fn gt_val<T: Ord + Copy>(end: RangeEnd<T>, val: T) -> bool
    ensures { result ≡ end_above T.cmp (end_of end) val }
{
    match end {
        RangeEnd::Closed(e) => e > val,
        RangeEnd::Open => true,
    }
}

// An end as a number, as the Rust makes a `u64` of one: the greatest where it is open, so that it stands above every number but that.
pub fn end_number(end: RangeEnd<u64>) -> u64
    ensures { result ≡ end_number (end_of end) }
{
    match end {
        RangeEnd::Closed(e) => e,
        RangeEnd::Open => u64::MAX,
    }
}

// The order of two ends, open being greatest.
pub fn compare_ends<T: Ord + Copy>(a: RangeEnd<T>, b: RangeEnd<T>) -> Ordering
    ensures { result ≡ compare_ends T.cmp (end_of a) (end_of b) }
{
    a.cmp(&b)
}

// Whether an end is a value.
pub fn end_equals<T: Ord + Copy>(end: RangeEnd<T>, val: T) -> bool
    ensures { result ≡ is_end_value T.cmp (end_of end) val }
{
    match end {
        RangeEnd::Closed(e) => e == val,
        RangeEnd::Open => false,
    }
}

// An end against a value.
pub fn compare_end<T: Ord + Copy>(end: RangeEnd<T>, val: T) -> Ordering
    ensures { result ≡ compare_end_value T.cmp (end_of end) val }
{
    match end {
        RangeEnd::Closed(e) => e.cmp(&val),
        RangeEnd::Open => Ordering::Greater,
    }
}

// A value against an end.
pub fn compare_value<T: Ord + Copy>(val: T, end: RangeEnd<T>) -> Ordering
    ensures { result ≡ compare_value_end T.cmp val (end_of end) }
{
    match end {
        RangeEnd::Closed(e) => val.cmp(&e),
        RangeEnd::Open => Ordering::Less,
    }
}
