// Ranges of the values of any order (grouping/range.rs): ends, ranges, inclusion, intersection and order. Every start makes a range
// with every end; where it is not below the end, the range includes nothing. Nothing is refused.
#![tactic(auto, unfolding(willow::specs::Ranges::includes, willow::specs::Ranges::includes_range, willow::specs::Ranges::intersection, willow::specs::Ranges::new_closed))]

ghost use Rattle.std.specs.Prelude.{◌≡◌};
ghost use Rattle.willow.specs.Answers.{if_any};
ghost use Rattle.willow.specs.Ranges.{compare_ranges, endless, end_of, includes, includes_range, intersection, new_closed};
ghost use Rattle.range.specs.NumberRanges.{end_value_of, full_range, is_open, range_of};

pub use range_end::{compare_end, compare_ends, compare_value, end_equals, end_number, gt_val};
use std::cmp::Ordering;
use willow::RangeEnd;

// A range includes the values that are at least its start and below its end. Ranges are ordered by start, then by end.
#[derive(Clone, Copy, PartialEq, Eq, PartialOrd, Ord)]
pub struct Range<T> {
    pub start: T,
    pub end: RangeEnd<T>,
}

impl Range<u64> {
    // The range of all numbers.
    pub fn full() -> Range<u64>
        ensures { range_of result ≡ full_range }
    {
        Range::new_open(0)
    }
}

impl<T: Ord + Copy> Range<T> {
    // The range from a start to an end.
    pub fn new(start: T, end: RangeEnd<T>) -> Range<T>
        ensures { range_of result ≡ record { start = start; end = end_of end } }
    {
        Range { start, end }
    }

    // The range from a start on.
    pub fn new_open(start: T) -> Range<T>
        ensures { range_of result ≡ record { start = start; end = endless } }
    {
        Range::new(start, RangeEnd::Open)
    }

    // The range from a start to a value, none where it would include nothing.
    pub fn new_closed(start: T, end: T) -> Option<Range<T>>
        ensures { if_any range_of result ≡ new_closed T.cmp start end }
    {
        let range = Range::new(start, RangeEnd::Closed(end));
        (start < end).then_some(range)
    }

    // Whether it is open.
    pub fn is_open(self) -> bool
        ensures { result ≡ is_open (end_of self.end) }
    {
        match self.end {
            RangeEnd::Closed(_) => false,
            RangeEnd::Open => true,
        }
    }

    // Its end, none where it is open.
    pub fn get_end(self) -> Option<T>
        ensures { result ≡ end_value_of (end_of self.end) }
    {
        match self.end {
            RangeEnd::Closed(e) => Some(e),
            RangeEnd::Open => None,
        }
    }

    // Whether it includes a value.
    pub fn includes(self, val: T) -> bool
        ensures { result ≡ includes T.cmp (range_of self) val }
    {
        self.start <= val && gt_val(self.end, val)
    }

    // Whether it includes another: by their starts and ends.
    pub fn includes_range(self, other: Range<T>) -> bool
        ensures { result ≡ includes_range T.cmp (range_of self) (range_of other) }
    {
        self.start <= other.start && self.end >= other.end
    }

    // The range of the values that lie in both, from the later start to the sooner end; none where there is no such value.
    pub fn intersection(self, other: Range<T>) -> Option<Range<T>>
        ensures { if_any range_of result ≡ intersection T.cmp (range_of self) (range_of other) }
    {
        let start = self.start.max(other.start);
        let end = other.end.min(self.end);
        gt_val(end, start).then_some(Range::new(start, end))
    }

    // The order of two: by start, then by end.
    pub fn compare(self, other: Range<T>) -> Ordering
        ensures { result ≡ compare_ranges T.cmp (range_of self) (range_of other) }
    {
        self.cmp(&other)
    }
}
