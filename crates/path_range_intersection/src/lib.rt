// The intersection of two ranges of paths (grouping/range.rs): it has a start and an end of theirs, so the answer says whose.
// Refuses 1, then 5; what stands beside an open end is not read. The struct is a plain value that a host keeps; its buffers are lent
// anew with each call, so they come beside it.
#![tactic(auto, unfolding(path_bounds::specs::LentPaths::on_lent, path_bounds::specs::LentPaths::lent_paths_refusal, willow::specs::Answers::path_refusal), using(crate::proofs::SidesLaws::sides_met_by, range::proofs::MetLaws::answered_if_any))]

ghost use Rattle.std.specs.Prelude.{◌++◌, ◌≡◌};
ghost use Rattle.willow.specs.Answers.{if_any, optional_outcome_by, outcome_if_any};
ghost use Rattle.willow.specs.Paths.{compare_paths};
ghost use Rattle.willow.specs.Ranges.{end_of, later_start, sooner_end};
ghost use Rattle.range.specs.NumberRanges.{range_of};
ghost use Rattle.path_bounds.specs.LentPaths.{on_lent};
ghost use Rattle.path_bounds.specs.LentRanges.{path_range_of, range_paths};
ghost use Rattle.path_range_intersection.specs.Sides.{end_side, later_side, sides_met};

use path_bounds::lend_range;
use range::{Range, gt_val};
use willow::{Limits, RangeEnd, Refusal};

// Which of two lent ranges, with its number.
#[derive(Clone, Copy)]
pub enum Side {
    First = 0,
    Second = 1,
}

// The later of two starts, and whose it is.
fn later_start<T: Ord + Copy>(start: T, other: T) -> (Side, T)
    ensures side { result.0 ≡ later_side T.cmp start other }
    ensures start { result.1 ≡ later_start T.cmp start other }
{
    if start > other {
        (Side::First, start)
    } else {
        (Side::Second, other)
    }
}

// The sooner of two ends, and whose it is, if it is closed.
fn sooner_end<T: Ord + Copy>(end: RangeEnd<T>, other: RangeEnd<T>) -> (RangeEnd<Side>, RangeEnd<T>)
    ensures side { end_of result.0 ≡ end_side T.cmp (end_of end) (end_of other) }
    ensures end { end_of result.1 ≡ sooner_end T.cmp (end_of end) (end_of other) }
{
    if end < other {
        return (RangeEnd::Closed(Side::First), end);
    }
    match other {
        RangeEnd::Closed(_) => (RangeEnd::Closed(Side::Second), other),
        RangeEnd::Open => (RangeEnd::Open, other),
    }
}

// Whose start and whose end the intersection of two ranges has: the later start and the sooner end, if that end is above that start.
#[tactic(auto, unfolding(willow::specs::Ranges::intersection, crate::specs::Sides::sides_met))]
pub fn sides<T: Ord + Copy>(range: Range<T>, other: Range<T>) -> Option<Range<Side>>
    ensures { outcome_if_any (if_any range_of result) ≡ sides_met T.cmp (range_of range) (range_of other) }
{
    let (start, from) = later_start(range.start, other.start);
    let (end, to) = sooner_end(range.end, other.end);
    gt_val(to, from).then_some(Range { start, end })
}

// Whose start and whose end the range of the paths in both has, the second's where they are equal; none where no path is in both.
pub fn intersection(
    limits: Limits,
    range: Range<u64>,
    s: &[u8],
    e: &[u8],
    range2: Range<u64>,
    s2: &[u8],
    e2: &[u8],
) -> Result<Option<Range<Side>>, Refusal>
    ensures { optional_outcome_by range_of result ≡ on_lent limits (range_paths (range_of range) s.now e.now ++ range_paths (range_of range2) s2.now e2.now) (sides_met compare_paths (path_range_of (range_of range) s.now e.now) (path_range_of (range_of range2) s2.now e2.now)) }
{
    let r = lend_range(limits, range, s, e)?;
    let r2 = lend_range(limits, range2, s2, e2)?;
    Ok(sides(r, r2))
}
