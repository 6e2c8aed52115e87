// For C: the call of `host_area_intersection`, as a static library. It is the call of that name there, and promises what that promises;
// the head of `host_area_intersection` says how its arguments are passed.
#![tactic(auto)]

ghost use Rattle.std.specs.Prelude.{◌≡◌};
ghost use Rattle.willow.specs.Answers.{on_paths};
ghost use Rattle.convention.specs.Exports.{limits_of};
ghost use Rattle.kinds.specs.Kinds.{both, on_kinds};
ghost use Rattle.area_intersection.specs.Standing.{standing};
ghost use Rattle.area_kinds.specs.AreaKinds.{area_from, area_with};
ghost use Rattle.host_area_intersection.specs.AreaExports.{given_area};

use host_area_intersection::AreaAnswer;

// The area of the triplets that lie in both.
#[unsafe(no_mangle)]
pub extern "C" fn wotskrale_area_intersection(
    mcl: u64,
    mcc: u64,
    mpl: u64,
    kind: u64,
    id: u64,
    base: &[u8],
    count: u64,
    start: u64,
    end_kind: u64,
    end: u64,
    kind2: u64,
    id2: u64,
    base2: &[u8],
    count2: u64,
    start2: u64,
    end_kind2: u64,
    end2: u64,
) -> AreaAnswer
    ensures { result ≡ given_area (on_kinds (limits_of mcl mcc mpl) (both (area_from kind id count start end_kind end) (area_from kind2 id2 count2 start2 end_kind2 end2)) (λ x. on_paths (limits_of mcl mcc mpl) base.now x.0.count base2.now x.1.count (λ p q. standing (area_with x.0 p) (area_with x.1 q)))) }
{
    host_area_intersection::wotskrale_area_intersection(
        mcl, mcc, mpl, kind, id, base, count, start, end_kind, end, kind2, id2, base2, count2,
        start2, end_kind2, end2,
    )
}
