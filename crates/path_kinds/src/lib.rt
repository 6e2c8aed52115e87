// Ends and ranges of paths as a host passes them: the count of the start, the kind of the end and the count of the end. Refuses 1,
// then 3. What stands beside kind 0 is not read. The numbers come one by one, as a call for C passes them.
#![tactic(auto, unfolding(willow::specs::Answers::limits_refusal, kinds::specs::Kinds::on_kinds))]

ghost use Rattle.std.specs.Prelude.{◌≡◌, IfOk};
ghost use Rattle.std.proofs.Math.Option.{none, some};
ghost use Rattle.willow.specs.Answers.{limits_refusal, outcome_by};
ghost use Rattle.willow.specs.Ranges.{end_from, end_of};
ghost use Rattle.willow.specs.Refusals.{value};
ghost use Rattle.kinds.specs.Kinds.{both, on_kinds, range_from};
ghost use Rattle.range.specs.NumberRanges.{range_of};

use range::Range;
use willow::{Limits, RangeEnd, Refusal};

// An end.
pub fn read_end(limits: Limits, kind: u64, count: u64) -> Result<RangeEnd<u64>, Refusal>
    ensures answer { outcome_by end_of result ≡ on_kinds limits (end_from kind count) value }
    ensures ok { IfOk result (λ e. (limits_refusal limits ≡ none) × (end_from kind count ≡ some (end_of e))) }
{
    refusals::test_limits(limits)?;
    kinds::read_end(kind, count).ok_or(Refusal::BadKind)
}

// A range.
pub fn read_range(limits: Limits, start: u64, kind: u64, end: u64) -> Result<Range<u64>, Refusal>
    ensures answer { outcome_by range_of result ≡ on_kinds limits (range_from start kind end) value }
    ensures ok { IfOk result (λ r. (limits_refusal limits ≡ none) × (range_from start kind end ≡ some (range_of r))) }
{
    let end = read_end(limits, kind, end)?;
    Ok(Range::new(start, end))
}

// Two ranges.
pub fn read_ranges(
    limits: Limits,
    start: u64,
    kind: u64,
    end: u64,
    start2: u64,
    kind2: u64,
    end2: u64,
) -> Result<(Range<u64>, Range<u64>), Refusal>
    ensures answer { outcome_by (λ x. (range_of x.0, range_of x.1)) result ≡ on_kinds limits (both (range_from start kind end) (range_from start2 kind2 end2)) value }
    ensures ok { IfOk result (λ x. (limits_refusal limits ≡ none) × (both (range_from start kind end) (range_from start2 kind2 end2) ≡ some (range_of x.0, range_of x.1))) }
{
    let a = read_range(limits, start, kind, end)?;
    let b = read_range(limits, start2, kind2, end2)?;
    Ok((a, b))
}
