// Kinds as numbers: what a host passes and gets for an end or for the subspaces of an area. "Kinds: end 0 open, 1 closed; subspace 0 any, 1
// one id." A number beside kind 0 is not read, and in an answer it is 0; any other kind is bad. Functions and not methods: methods stand
// in the crate of their type, and `willow` has no code.
#![tactic(auto, unfolding(willow::specs::Ranges::end_from, willow::specs::Areas::subspace_from))]

ghost use Rattle.std.specs.Prelude.{◌≡◌};
ghost use Rattle.willow.specs.Answers.{if_any};
ghost use Rattle.willow.specs.Areas.{subspace_from, subspace_kind, subspace_value};
ghost use Rattle.willow.specs.Kinds.{of_kind};
ghost use Rattle.willow.specs.Ranges.{end_from, end_kind, end_of, end_value};
ghost use Rattle.willow.specs.Refusals.{value};
ghost use Rattle.range.specs.NumberRanges.{range_of};
ghost use Rattle.kinds.specs.Kinds.{of_kinds, range_from};

use range::Range;
use willow::{AreaSubspace, RangeEnd};

// What a kind says: the one of two, or none where it is bad, for which the caller answers 3.
fn of_kind<T: Copy>(kind: u64, zero: T, one: T) -> Option<T>
    ensures { if_any (λ x. x) result ≡ of_kind kind zero one }
{
    match kind {
        0 => Some(zero),
        1 => Some(one),
        _ => None,
    }
}

// An end of a range. None is refusal 3, here and in the two below.
pub fn read_end(kind: u64, n: u64) -> Option<RangeEnd<u64>>
    ensures reading { if_any end_of result ≡ end_from kind n }
    ensures outcome { of_kinds (if_any end_of result) value ≡ of_kinds (end_from kind n) value }
{
    of_kind(kind, RangeEnd::Open, RangeEnd::Closed(n))
}

// A range: its start, the kind of its end, and its end.
pub fn read_range(start: u64, kind: u64, n: u64) -> Option<Range<u64>>
    ensures reading { if_any range_of result ≡ range_from start kind n }
    ensures outcome { of_kinds (if_any range_of result) value ≡ of_kinds (range_from start kind n) value }
{
    let end = read_end(kind, n)?;
    Some(Range::new(start, end))
}

// The subspaces of an area.
pub fn read_subspace(kind: u64, n: u64) -> Option<AreaSubspace>
    ensures reading { if_any (λ s. s) result ≡ subspace_from kind n }
    ensures outcome { of_kinds (if_any (λ s. s) result) value ≡ of_kinds (subspace_from kind n) value }
{
    of_kind(kind, AreaSubspace::Any, AreaSubspace::Id(n))
}

// In an answer: the kind of an end, and its number.
pub fn end_kind(end: RangeEnd<u64>) -> u64
    ensures { result ≡ end_kind (end_of end) }
{
    u64::from(end != RangeEnd::Open)
}

// The number of an end: 0 beside kind 0.
pub fn end_value(end: RangeEnd<u64>) -> u64
    ensures { result ≡ end_value (end_of end) }
{
    match end {
        RangeEnd::Closed(n) => n,
        RangeEnd::Open => 0,
    }
}

// In an answer: the kind of subspaces, and their number.
pub fn subspace_kind(subspace: AreaSubspace) -> u64
    ensures { result ≡ subspace_kind subspace }
{
    u64::from(subspace != AreaSubspace::Any)
}

// The number of subspaces: 0 beside kind 0.
pub fn subspace_value(subspace: AreaSubspace) -> u64
    ensures { result ≡ subspace_value subspace }
{
    match subspace {
        AreaSubspace::Any => 0,
        AreaSubspace::Id(id) => id,
    }
}
