// For C: the calls of `host_area_of_interest`, as a static library. Each is the call of that name there, and promises what that promises;
// the head of `host_area_of_interest` says how its arguments are passed.
#![tactic(auto)]

ghost use Rattle.std.specs.Prelude.{◌≡◌};
ghost use Rattle.willow.specs.Answers.{on_paths};
ghost use Rattle.willow.specs.AreasOfInterest.{compare_interest};
ghost use Rattle.willow.specs.Orders.{order_number};
ghost use Rattle.willow.specs.Refusals.{value};
ghost use Rattle.convention.specs.Exports.{given, limits_of};
ghost use Rattle.kinds.specs.Kinds.{both, on_kinds};
ghost use Rattle.area_kinds.specs.AreaKinds.{area_from};
ghost use Rattle.area_of_interest.specs.Interests.{standing_interest};
ghost use Rattle.host_area_of_interest.specs.InterestExports.{given_interest, interest_with};

use convention::Answer;
use host_area_of_interest::InterestAnswer;

// The areas intersected, and of both numbers the one that stands.
#[unsafe(no_mangle)]
pub extern "C" fn wotskrale_area_of_interest_intersection(
    mcl: u64,
    mcc: u64,
    mpl: u64,
    kind: u64,
    id: u64,
    base: &[u8],
    count: u64,
    start: u64,
    end_kind: u64,
    end: u64,
    max_count: u64,
    max_size: u64,
    kind2: u64,
    id2: u64,
    base2: &[u8],
    count2: u64,
    start2: u64,
    end_kind2: u64,
    end2: u64,
    max_count2: u64,
    max_size2: u64,
) -> InterestAnswer
    ensures { result ≡ given_interest (on_kinds (limits_of mcl mcc mpl) (both (area_from kind id count start end_kind end) (area_from kind2 id2 count2 start2 end_kind2 end2)) (λ x. on_paths (limits_of mcl mcc mpl) base.now x.0.count base2.now x.1.count (λ p q. standing_interest (interest_with x.0 p max_count max_size) (interest_with x.1 q max_count2 max_size2)))) }
{
    host_area_of_interest::wotskrale_area_of_interest_intersection(
        mcl, mcc, mpl, kind, id, base, count, start, end_kind, end, max_count, max_size, kind2,
        id2, base2, count2, start2, end_kind2, end2, max_count2, max_size2,
    )
}

// The order of two areas of interest.
#[unsafe(no_mangle)]
pub extern "C" fn wotskrale_area_of_interest_compare(
    mcl: u64,
    mcc: u64,
    mpl: u64,
    kind: u64,
    id: u64,
    base: &[u8],
    count: u64,
    start: u64,
    end_kind: u64,
    end: u64,
    max_count: u64,
    max_size: u64,
    kind2: u64,
    id2: u64,
    base2: &[u8],
    count2: u64,
    start2: u64,
    end_kind2: u64,
    end2: u64,
    max_count2: u64,
    max_size2: u64,
) -> Answer
    ensures { result ≡ given order_number (on_kinds (limits_of mcl mcc mpl) (both (area_from kind id count start end_kind end) (area_from kind2 id2 count2 start2 end_kind2 end2)) (λ x. on_paths (limits_of mcl mcc mpl) base.now x.0.count base2.now x.1.count (λ p q. value (compare_interest (interest_with x.0 p max_count max_size) (interest_with x.1 q max_count2 max_size2))))) }
{
    host_area_of_interest::wotskrale_area_of_interest_compare(
        mcl, mcc, mpl, kind, id, base, count, start, end_kind, end, max_count, max_size, kind2,
        id2, base2, count2, start2, end_kind2, end2, max_count2, max_size2,
    )
}
