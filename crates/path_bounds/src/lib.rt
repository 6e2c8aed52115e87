// Ends and ranges of lent paths, tested (grouping/range.rs, where a range is one of any type). A range of paths is lent as one of
// counts, beside the buffers of its start and its end; once it was tested it is a range of lent paths, with the methods of every range.
// What stands beside an open end is not read. Calls refuse 1, then 5.
#![tactic(auto, unfolding(willow::specs::Answers::limits_refusal, willow::specs::Answers::path_refusal, crate::specs::LentPaths::lent_paths_refusal))]

ghost use Rattle.std.specs.Prelude.{◌≡◌, IfErr, IfOk};
ghost use Rattle.std.proofs.Math.Option.{none, some};
ghost use Rattle.willow.specs.Ranges.{end_of};
ghost use Rattle.range.specs.NumberRanges.{range_of};
ghost use Rattle.path_bounds.specs.LentPaths.{lent_paths_refusal};
ghost use Rattle.path_bounds.specs.LentRanges.{end_of_paths, end_paths, path_end_of, path_range_of, range_of_paths, range_paths};

use lent_path::lend;
use packed::lent::LentPath;
use range::Range;
use willow::{Limits, RangeEnd, Refusal};

// A lent end, once its path passed the tests, if it has one.
pub fn lend_end<'a>(
    limits: Limits,
    end: RangeEnd<u64>,
    e: &'a [u8],
) -> Result<RangeEnd<LentPath<'a>>, Refusal>
    ensures ok { IfOk result (λ d. (lent_paths_refusal limits (end_paths (end_of end) e.now) ≡ none) × (end_of_paths d ≡ path_end_of (end_of end) e.now)) }
    ensures err { IfErr result (λ r. lent_paths_refusal limits (end_paths (end_of end) e.now) ≡ some r) }
{
    match end {
        RangeEnd::Closed(k) => Ok(RangeEnd::Closed(lend(limits, e, k)?)),
        RangeEnd::Open => refusals::test_limits(limits).map(|()| RangeEnd::Open),
    }
}

// A lent range.
pub fn lend_range<'a>(
    limits: Limits,
    range: Range<u64>,
    s: &'a [u8],
    e: &'a [u8],
) -> Result<Range<LentPath<'a>>, Refusal>
    ensures ok { IfOk result (λ r. (lent_paths_refusal limits (range_paths (range_of range) s.now e.now) ≡ none) × (range_of_paths r ≡ path_range_of (range_of range) s.now e.now)) }
    ensures err { IfErr result (λ r. lent_paths_refusal limits (range_paths (range_of range) s.now e.now) ≡ some r) }
{
    let start = lend(limits, s, range.start)?;
    let end = lend_end(limits, range.end, e)?;
    Ok(Range::new(start, end))
}
