// For C: the calls of `host_range`, as a static library. Each is the call of that name there, and promises what that promises;
// the head of `host_range` says how its arguments are passed.
#![tactic(auto)]

ghost use Rattle.std.specs.Prelude.{◌≡◌};
ghost use Rattle.willow.specs.Answers.{outcome_if_any};
ghost use Rattle.willow.specs.Orders.{compare_numbers, order_number};
ghost use Rattle.willow.specs.Ranges.{compare_ends, compare_ranges, end_above, includes, includes_range, intersection, new_closed};
ghost use Rattle.willow.specs.Refusals.{value};
ghost use Rattle.convention.specs.Exports.{given, yes_number};
ghost use Rattle.range.specs.NumberRanges.{is_open};
ghost use Rattle.host_range.specs.RangeExports.{given_range, on_end, on_ends, on_range, on_ranges};

use convention::Answer;
use host_range::RangeAnswer;

// Whether an end is above a value.
#[unsafe(no_mangle)]
pub extern "C" fn wotskrale_range_end_above(kind: u64, end: u64, val: u64) -> Answer
    ensures { result ≡ given yes_number (on_end kind end (λ e. value (end_above compare_numbers e val))) }
{
    host_range::wotskrale_range_end_above(kind, end, val)
}

// The order of two ends.
#[unsafe(no_mangle)]
pub extern "C" fn wotskrale_range_compare_ends(kind: u64, end: u64, kind2: u64, end2: u64) -> Answer
    ensures { result ≡ given order_number (on_ends kind end kind2 end2 (λ d e. value (compare_ends compare_numbers d e))) }
{
    host_range::wotskrale_range_compare_ends(kind, end, kind2, end2)
}

// Whether a range is open.
#[unsafe(no_mangle)]
pub extern "C" fn wotskrale_range_is_open(start: u64, kind: u64, end: u64) -> Answer
    ensures { result ≡ given yes_number (on_range start kind end (λ s. value (is_open s.end))) }
{
    host_range::wotskrale_range_is_open(start, kind, end)
}

// The range from a start to a value, none where it would include nothing.
#[unsafe(no_mangle)]
pub extern "C" fn wotskrale_range_new_closed(start: u64, end: u64) -> RangeAnswer
    ensures { result ≡ given_range (outcome_if_any (new_closed compare_numbers start end)) }
{
    host_range::wotskrale_range_new_closed(start, end)
}

// Whether a range includes a value.
#[unsafe(no_mangle)]
pub extern "C" fn wotskrale_range_includes(start: u64, kind: u64, end: u64, val: u64) -> Answer
    ensures { result ≡ given yes_number (on_range start kind end (λ s. value (includes compare_numbers s val))) }
{
    host_range::wotskrale_range_includes(start, kind, end, val)
}

// Whether a range includes another.
#[unsafe(no_mangle)]
pub extern "C" fn wotskrale_range_includes_range(
    start: u64,
    kind: u64,
    end: u64,
    start2: u64,
    kind2: u64,
    end2: u64,
) -> Answer
    ensures { result ≡ given yes_number (on_ranges start kind end start2 kind2 end2 (λ s t. value (includes_range compare_numbers s t))) }
{
    host_range::wotskrale_range_includes_range(start, kind, end, start2, kind2, end2)
}

// The range of the values that lie in both.
#[unsafe(no_mangle)]
pub extern "C" fn wotskrale_range_intersection(
    start: u64,
    kind: u64,
    end: u64,
    start2: u64,
    kind2: u64,
    end2: u64,
) -> RangeAnswer
    ensures { result ≡ given_range (on_ranges start kind end start2 kind2 end2 (λ s t. outcome_if_any (intersection compare_numbers s t))) }
{
    host_range::wotskrale_range_intersection(start, kind, end, start2, kind2, end2)
}

// The order of two ranges.
#[unsafe(no_mangle)]
pub extern "C" fn wotskrale_range_compare(
    start: u64,
    kind: u64,
    end: u64,
    start2: u64,
    kind2: u64,
    end2: u64,
) -> Answer
    ensures { result ≡ given order_number (on_ranges start kind end start2 kind2 end2 (λ s t. value (compare_ranges compare_numbers s t))) }
{
    host_range::wotskrale_range_compare(start, kind, end, start2, kind2, end2)
}
