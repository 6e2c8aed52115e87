// Ranges of paths (grouping/range.rs, where a range is one of any type). One is lent as a range of counts, `Range<u64>`, whose own
// methods make it and tell whether it is open and where it ends; `s` holds the path of its start and `e` that of its end. The struct is
// a plain value that a host keeps; its buffers are lent anew with each call, so they come beside it. Calls refuse 1, then 5; what stands
// beside an open end is not read. Every start makes a range with every end; where it is not below the end, the range includes nothing.
#![tactic(auto, unfolding(willow::specs::Answers::on_paths, willow::specs::Answers::path_in, willow::specs::Answers::path_refusal, willow::specs::Ranges::new_closed, path_bounds::specs::LentPaths::on_lent, path_bounds::specs::LentPaths::lent_paths_refusal), using(range::proofs::StandingForLaws::includes_by, range::proofs::StandingForLaws::includes_range_by, range::proofs::StandingForLaws::compare_ranges_by))]

ghost use Rattle.std.specs.Prelude.{[], ◌∷◌, ◌++◌, List, ◌≡◌, ℕ};
ghost use Rattle.willow.specs.Answers.{on_paths, outcome, path_in};
ghost use Rattle.willow.specs.Lists.{is_some};
ghost use Rattle.willow.specs.Paths.{compare_paths};
ghost use Rattle.willow.specs.Ranges.{compare_ranges, includes, includes_range, new_closed};
ghost use Rattle.willow.specs.Refusals.{value};
ghost use Rattle.range.specs.NumberRanges.{range_of};
ghost use Rattle.path_bounds.specs.LentPaths.{on_lent};
ghost use Rattle.path_bounds.specs.LentRanges.{path_range_of, range_paths};
ghost use Rattle.path_range.specs.PathRanges.{full_paths};

use lent_path::{lend, lend_two};
use path_bounds::lend_range;
pub use path_end::{compare_end, compare_ends, compare_value, end_equals, gt_val};
pub use path_range_intersection::{Side, intersection};
use range::Range;
use std::cmp::Ordering;
use willow::{Limits, Refusal};

// The range of all paths, beside whatever buffers.
pub fn full() -> Range<u64>
    ensures { (s e : List ℕ) → path_range_of (range_of result) s e ≡ full_paths }
{
    Range::full()
}

// Whether there is a closed range from a start to an end: no where it would include nothing. What it would hold is what was lent.
pub fn new_closed(limits: Limits, s: &[u8], cs: u64, e: &[u8], ce: u64) -> Result<bool, Refusal>
    ensures { outcome result ≡ on_paths limits s.now cs e.now ce (λ p q. value (is_some (new_closed compare_paths p q))) }
{
    let (start, end) = lend_two(limits, s, cs, e, ce)?;
    Ok(start < end)
}

// Whether a range includes a path.
pub fn includes(
    limits: Limits,
    range: Range<u64>,
    s: &[u8],
    e: &[u8],
    path: &[u8],
    count: u64,
) -> Result<bool, Refusal>
    ensures { outcome result ≡ on_lent limits (range_paths (range_of range) s.now e.now ++ ((path.now, count) ∷ [])) (value (includes compare_paths (path_range_of (range_of range) s.now e.now) (path_in path.now count))) }
{
    let r = lend_range(limits, range, s, e)?;
    let p = lend(limits, path, count)?;
    Ok(r.includes(p))
}

// Whether a range includes another: by their starts and ends.
pub fn includes_range(
    limits: Limits,
    range: Range<u64>,
    s: &[u8],
    e: &[u8],
    range2: Range<u64>,
    s2: &[u8],
    e2: &[u8],
) -> Result<bool, Refusal>
    ensures { outcome result ≡ on_lent limits (range_paths (range_of range) s.now e.now ++ range_paths (range_of range2) s2.now e2.now) (value (includes_range compare_paths (path_range_of (range_of range) s.now e.now) (path_range_of (range_of range2) s2.now e2.now))) }
{
    let r = lend_range(limits, range, s, e)?;
    let r2 = lend_range(limits, range2, s2, e2)?;
    Ok(r.includes_range(r2))
}

// The order of two ranges: by start, then by end.
pub fn compare(
    limits: Limits,
    range: Range<u64>,
    s: &[u8],
    e: &[u8],
    range2: Range<u64>,
    s2: &[u8],
    e2: &[u8],
) -> Result<Ordering, Refusal>
    ensures { outcome result ≡ on_lent limits (range_paths (range_of range) s.now e.now ++ range_paths (range_of range2) s2.now e2.now) (value (compare_ranges compare_paths (path_range_of (range_of range) s.now e.now) (path_range_of (range_of range2) s2.now e2.now))) }
{
    let r = lend_range(limits, range, s, e)?;
    let r2 = lend_range(limits, range2, s2, e2)?;
    Ok(r.compare(r2))
}
