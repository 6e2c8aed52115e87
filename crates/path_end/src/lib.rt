// Ends of ranges of paths (grouping/range.rs, `RangeEnd`): excluded paths, or open, which is above every path. An end's path is
// lent beside it: an end is a plain value that a host keeps, and its buffer is lent anew with each call. Calls refuse 1, then 5; what
// stands beside an open end is not read.
#![tactic(auto, unfolding(path_bounds::specs::LentPaths::on_lent, path_bounds::specs::LentPaths::lent_paths_refusal, willow::specs::Answers::path_refusal), using(range::proofs::StandingForLaws::end_above_by, range::proofs::StandingForLaws::compare_ends_by, range::proofs::StandingForLaws::is_end_value_by, range::proofs::StandingForLaws::compare_end_value_by, range::proofs::StandingForLaws::compare_value_end_by))]

ghost use Rattle.std.specs.Prelude.{[], ◌∷◌, ◌++◌, ◌≡◌};
ghost use Rattle.willow.specs.Answers.{outcome, path_in};
ghost use Rattle.willow.specs.Paths.{compare_paths};
ghost use Rattle.willow.specs.Ranges.{compare_ends, end_above, end_of};
ghost use Rattle.willow.specs.Refusals.{value};
ghost use Rattle.range_end.specs.EndValues.{compare_end_value, compare_value_end, is_end_value};
ghost use Rattle.path_bounds.specs.LentPaths.{on_lent};
ghost use Rattle.path_bounds.specs.LentRanges.{end_paths, path_end_of};

use lent_path::lend;
use path_bounds::lend_end;
use std::cmp::Ordering;
use willow::{Limits, RangeEnd, Refusal};

// Whether an end is above a path.
pub fn gt_val(
    limits: Limits,
    end: RangeEnd<u64>,
    e: &[u8],
    path: &[u8],
    count: u64,
) -> Result<bool, Refusal>
    ensures { outcome result ≡ on_lent limits (end_paths (end_of end) e.now ++ ((path.now, count) ∷ [])) (value (end_above compare_paths (path_end_of (end_of end) e.now) (path_in path.now count))) }
{
    let d = lend_end(limits, end, e)?;
    let p = lend(limits, path, count)?;
    Ok(range_end::gt_val(d, p))
}

// The order of two ends, open being greatest.
pub fn compare_ends(
    limits: Limits,
    end: RangeEnd<u64>,
    e: &[u8],
    end2: RangeEnd<u64>,
    e2: &[u8],
) -> Result<Ordering, Refusal>
    ensures { outcome result ≡ on_lent limits (end_paths (end_of end) e.now ++ end_paths (end_of end2) e2.now) (value (compare_ends compare_paths (path_end_of (end_of end) e.now) (path_end_of (end_of end2) e2.now))) }
{
    let d = lend_end(limits, end, e)?;
    let d2 = lend_end(limits, end2, e2)?;
    Ok(range_end::compare_ends(d, d2))
}

// Whether an end is a path.
pub fn end_equals(
    limits: Limits,
    end: RangeEnd<u64>,
    e: &[u8],
    path: &[u8],
    count: u64,
) -> Result<bool, Refusal>
    ensures { outcome result ≡ on_lent limits (end_paths (end_of end) e.now ++ ((path.now, count) ∷ [])) (value (is_end_value compare_paths (path_end_of (end_of end) e.now) (path_in path.now count))) }
{
    let d = lend_end(limits, end, e)?;
    let p = lend(limits, path, count)?;
    Ok(range_end::end_equals(d, p))
}

// An end against a path.
pub fn compare_end(
    limits: Limits,
    end: RangeEnd<u64>,
    e: &[u8],
    path: &[u8],
    count: u64,
) -> Result<Ordering, Refusal>
    ensures { outcome result ≡ on_lent limits (end_paths (end_of end) e.now ++ ((path.now, count) ∷ [])) (value (compare_end_value compare_paths (path_end_of (end_of end) e.now) (path_in path.now count))) }
{
    let d = lend_end(limits, end, e)?;
    let p = lend(limits, path, count)?;
    Ok(range_end::compare_end(d, p))
}

// A path against an end.
pub fn compare_value(
    limits: Limits,
    path: &[u8],
    count: u64,
    end: RangeEnd<u64>,
    e: &[u8],
) -> Result<Ordering, Refusal>
    ensures { outcome result ≡ on_lent limits (end_paths (end_of end) e.now ++ ((path.now, count) ∷ [])) (value (compare_value_end compare_paths (path_in path.now count) (path_end_of (end_of end) e.now))) }
{
    let d = lend_end(limits, end, e)?;
    let p = lend(limits, path, count)?;
    Ok(range_end::compare_value(p, d))
}
