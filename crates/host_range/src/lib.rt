// The calls of `range` for a host in another language: ranges and ends of numbers.
//
// A range is three numbers: its start, the kind of its end (0 open, 1 closed) and its end; an end is the last two of them. A
// number beside kind 0 is not read. Any other kind gets 3, before anything else is looked at. The numbers come one by one, and the
// answer is a struct of numbers, as a call for C passes them.
#![tactic(auto, unfolding(willow::specs::Orders::compare_numbers), using(range::proofs::MetLaws::answered_if_any))]

ghost use Rattle.std.specs.Prelude.{◌≡◌};
ghost use Rattle.willow.specs.Answers.{if_any, optional_outcome_by, outcome_if_any};
ghost use Rattle.willow.specs.Orders.{compare_numbers, order_number};
ghost use Rattle.willow.specs.Ranges.{compare_ends, compare_ranges, end_above, end_from, end_of, includes, includes_range, intersection, new_closed};
ghost use Rattle.willow.specs.Refusals.{value};
ghost use Rattle.convention.specs.Exports.{given, yes_number};
ghost use Rattle.kinds.specs.Kinds.{both, range_from};
ghost use Rattle.range.specs.NumberRanges.{is_open, range_of};
ghost use Rattle.host_range.specs.RangeExports.{given_range, on_end, on_ends, on_range, on_ranges};

use convention::{Answer, answered};
use range::Range;
use willow::{RangeEnd, Refusal};

// A range as an answer: 0, a refusal's number or 255 for none; then the range, zeros unless there is one, and 0 beside kind 0.
#[repr(C)]
#[derive(Clone, Copy, Default)]
pub struct RangeAnswer {
    pub status: u64,
    pub start: u64,
    pub end_kind: u64,
    pub end: u64,
}

// What numbers from the host stand for: two ends; none where a kind is bad.
fn read_ends(j: u64, m: u64, k: u64, n: u64) -> Option<(RangeEnd<u64>, RangeEnd<u64>)>
    ensures { if_any (λ p. (end_of p.0, end_of p.1)) result ≡ both (end_from j m) (end_from k n) }
{
    Some((kinds::read_end(j, m)?, kinds::read_end(k, n)?))
}

// Two ranges.
fn read_ranges(a: u64, j: u64, m: u64, b: u64, k: u64, n: u64) -> Option<(Range<u64>, Range<u64>)>
    ensures { if_any (λ p. (range_of p.0, range_of p.1)) result ≡ both (range_from a j m) (range_from b k n) }
{
    Some((kinds::read_range(a, j, m)?, kinds::read_range(b, k, n)?))
}

// What there may not be.
impl From<Result<Option<Range<u64>>, Refusal>> for RangeAnswer {
    ghost from_gives = { λ m a. a ≡ given_range (optional_outcome_by range_of m) };

    fn from(met: Result<Option<Range<u64>>, Refusal>) -> RangeAnswer {
        match convention::value_or_status(met) {
            Err(status) => RangeAnswer {
                status,
                ..RangeAnswer::default()
            },
            Ok(range) => RangeAnswer {
                status: 0,
                start: range.start,
                end_kind: kinds::end_kind(range.end),
                end: kinds::end_value(range.end),
            },
        }
    }
}

// Whether an end is above a value.
pub fn wotskrale_range_end_above(kind: u64, end: u64, val: u64) -> Answer
    ensures { result ≡ given yes_number (on_end kind end (λ e. value (end_above compare_numbers e val))) }
{
    answered(
        kinds::read_end(kind, end)
            .map(|e| range::gt_val(e, val))
            .ok_or(Refusal::BadKind),
    )
}

// The order of two ends.
pub fn wotskrale_range_compare_ends(kind: u64, end: u64, kind2: u64, end2: u64) -> Answer
    ensures { result ≡ given order_number (on_ends kind end kind2 end2 (λ d e. value (compare_ends compare_numbers d e))) }
{
    answered(
        read_ends(kind, end, kind2, end2)
            .map(|(d, e)| range::compare_ends(d, e))
            .ok_or(Refusal::BadKind),
    )
}

// Whether a range is open.
pub fn wotskrale_range_is_open(start: u64, kind: u64, end: u64) -> Answer
    ensures { result ≡ given yes_number (on_range start kind end (λ s. value (is_open s.end))) }
{
    answered(
        kinds::read_range(start, kind, end)
            .map(|s| s.is_open())
            .ok_or(Refusal::BadKind),
    )
}

// The range from a start to a value, none where it would include nothing.
pub fn wotskrale_range_new_closed(start: u64, end: u64) -> RangeAnswer
    ensures { result ≡ given_range (outcome_if_any (new_closed compare_numbers start end)) }
{
    RangeAnswer::from(Ok(Range::new_closed(start, end)))
}

// Whether a range includes a value.
pub fn wotskrale_range_includes(start: u64, kind: u64, end: u64, val: u64) -> Answer
    ensures { result ≡ given yes_number (on_range start kind end (λ s. value (includes compare_numbers s val))) }
{
    answered(
        kinds::read_range(start, kind, end)
            .map(|s| s.includes(val))
            .ok_or(Refusal::BadKind),
    )
}

// Whether a range includes another.
pub fn wotskrale_range_includes_range(
    start: u64,
    kind: u64,
    end: u64,
    start2: u64,
    kind2: u64,
    end2: u64,
) -> Answer
    ensures { result ≡ given yes_number (on_ranges start kind end start2 kind2 end2 (λ s t. value (includes_range compare_numbers s t))) }
{
    let both = read_ranges(start, kind, end, start2, kind2, end2);
    answered(
        both.map(|(s, t)| s.includes_range(t))
            .ok_or(Refusal::BadKind),
    )
}

// The range of the values that lie in both.
pub fn wotskrale_range_intersection(
    start: u64,
    kind: u64,
    end: u64,
    start2: u64,
    kind2: u64,
    end2: u64,
) -> RangeAnswer
    ensures { result ≡ given_range (on_ranges start kind end start2 kind2 end2 (λ s t. outcome_if_any (intersection compare_numbers s t))) }
{
    let both = read_ranges(start, kind, end, start2, kind2, end2);
    RangeAnswer::from(both.map(|(s, t)| s.intersection(t)).ok_or(Refusal::BadKind))
}

// The order of two ranges.
pub fn wotskrale_range_compare(
    start: u64,
    kind: u64,
    end: u64,
    start2: u64,
    kind2: u64,
    end2: u64,
) -> Answer
    ensures { result ≡ given order_number (on_ranges start kind end start2 kind2 end2 (λ s t. value (compare_ranges compare_numbers s t))) }
{
    let both = read_ranges(start, kind, end, start2, kind2, end2);
    answered(both.map(|(s, t)| s.compare(t)).ok_or(Refusal::BadKind))
}
