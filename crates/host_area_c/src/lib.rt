// For C: the calls of `host_area`, as a static library. Each is the call of that name there, and promises what that promises;
// the head of `host_area` says how its arguments are passed.
#![tactic(auto)]

ghost use Rattle.std.specs.Prelude.{◌≡◌};
ghost use Rattle.willow.specs.Answers.{on_paths};
ghost use Rattle.willow.specs.Areas.{almost_includes_area, area_prunable, compare_areas, includes_area, includes_triplet};
ghost use Rattle.willow.specs.Orders.{order_number};
ghost use Rattle.willow.specs.Refusals.{value};
ghost use Rattle.convention.specs.Exports.{given, limits_of, yes_number};
ghost use Rattle.kinds.specs.Kinds.{both, on_kinds};
ghost use Rattle.area.specs.LentAreas.{triplet_at};
ghost use Rattle.area_kinds.specs.AreaKinds.{area_from, area_with};

use convention::Answer;

// Whether an area includes an entry of this subspace, path and timestamp.
#[unsafe(no_mangle)]
pub extern "C" fn wotskrale_area_includes_triplet(
    mcl: u64,
    mcc: u64,
    mpl: u64,
    kind: u64,
    id: u64,
    base: &[u8],
    count: u64,
    start: u64,
    end_kind: u64,
    end: u64,
    subspace: u64,
    path: &[u8],
    path_count: u64,
    timestamp: u64,
) -> Answer
    ensures { result ≡ given yes_number (on_kinds (limits_of mcl mcc mpl) (area_from kind id count start end_kind end) (λ a. on_paths (limits_of mcl mcc mpl) base.now a.count path.now path_count (λ p q. value (includes_triplet (area_with a p) (triplet_at subspace q timestamp))))) }
{
    host_area::wotskrale_area_includes_triplet(
        mcl, mcc, mpl, kind, id, base, count, start, end_kind, end, subspace, path, path_count,
        timestamp,
    )
}

// Whether an entry of this subspace, path and timestamp can prune entries of an area.
#[unsafe(no_mangle)]
pub extern "C" fn wotskrale_area_could_be_pruned_by_triplet(
    mcl: u64,
    mcc: u64,
    mpl: u64,
    kind: u64,
    id: u64,
    base: &[u8],
    count: u64,
    start: u64,
    end_kind: u64,
    end: u64,
    subspace: u64,
    path: &[u8],
    path_count: u64,
    timestamp: u64,
) -> Answer
    ensures { result ≡ given yes_number (on_kinds (limits_of mcl mcc mpl) (area_from kind id count start end_kind end) (λ a. on_paths (limits_of mcl mcc mpl) base.now a.count path.now path_count (λ p q. value (area_prunable (area_with a p) (triplet_at subspace q timestamp))))) }
{
    host_area::wotskrale_area_could_be_pruned_by_triplet(
        mcl, mcc, mpl, kind, id, base, count, start, end_kind, end, subspace, path, path_count,
        timestamp,
    )
}

// Whether an area includes another.
#[unsafe(no_mangle)]
pub extern "C" fn wotskrale_area_includes_area(
    mcl: u64,
    mcc: u64,
    mpl: u64,
    kind: u64,
    id: u64,
    base: &[u8],
    count: u64,
    start: u64,
    end_kind: u64,
    end: u64,
    kind2: u64,
    id2: u64,
    base2: &[u8],
    count2: u64,
    start2: u64,
    end_kind2: u64,
    end2: u64,
) -> Answer
    ensures { result ≡ given yes_number (on_kinds (limits_of mcl mcc mpl) (both (area_from kind id count start end_kind end) (area_from kind2 id2 count2 start2 end_kind2 end2)) (λ x. on_paths (limits_of mcl mcc mpl) base.now x.0.count base2.now x.1.count (λ p q. value (includes_area (area_with x.0 p) (area_with x.1 q))))) }
{
    host_area::wotskrale_area_includes_area(
        mcl, mcc, mpl, kind, id, base, count, start, end_kind, end, kind2, id2, base2, count2,
        start2, end_kind2, end2,
    )
}

// Whether an area would include another if their subspaces were the same.
#[unsafe(no_mangle)]
pub extern "C" fn wotskrale_area_almost_includes_area(
    mcl: u64,
    mcc: u64,
    mpl: u64,
    kind: u64,
    id: u64,
    base: &[u8],
    count: u64,
    start: u64,
    end_kind: u64,
    end: u64,
    kind2: u64,
    id2: u64,
    base2: &[u8],
    count2: u64,
    start2: u64,
    end_kind2: u64,
    end2: u64,
) -> Answer
    ensures { result ≡ given yes_number (on_kinds (limits_of mcl mcc mpl) (both (area_from kind id count start end_kind end) (area_from kind2 id2 count2 start2 end_kind2 end2)) (λ x. on_paths (limits_of mcl mcc mpl) base.now x.0.count base2.now x.1.count (λ p q. value (almost_includes_area (area_with x.0 p) (area_with x.1 q))))) }
{
    host_area::wotskrale_area_almost_includes_area(
        mcl, mcc, mpl, kind, id, base, count, start, end_kind, end, kind2, id2, base2, count2,
        start2, end_kind2, end2,
    )
}

// The order of two areas.
#[unsafe(no_mangle)]
pub extern "C" fn wotskrale_area_compare(
    mcl: u64,
    mcc: u64,
    mpl: u64,
    kind: u64,
    id: u64,
    base: &[u8],
    count: u64,
    start: u64,
    end_kind: u64,
    end: u64,
    kind2: u64,
    id2: u64,
    base2: &[u8],
    count2: u64,
    start2: u64,
    end_kind2: u64,
    end2: u64,
) -> Answer
    ensures { result ≡ given order_number (on_kinds (limits_of mcl mcc mpl) (both (area_from kind id count start end_kind end) (area_from kind2 id2 count2 start2 end_kind2 end2)) (λ x. on_paths (limits_of mcl mcc mpl) base.now x.0.count base2.now x.1.count (λ p q. value (compare_areas (area_with x.0 p) (area_with x.1 q))))) }
{
    host_area::wotskrale_area_compare(
        mcl, mcc, mpl, kind, id, base, count, start, end_kind, end, kind2, id2, base2, count2,
        start2, end_kind2, end2,
    )
}
