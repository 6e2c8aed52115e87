// The calls of `area_questions` for a host in another language.
//
// An area is the kind of its subspaces (0 any, 1 one id), an id, the packed path as a buffer with a count beside it, and the start,
// the kind of the end (0 open, 1 closed) and the end of its times. A number beside kind 0 is not read. A slice is a pointer and then
// a length; limits are three numbers MCL, MCC, MPL. Every call refuses 1, then 3, then 5. The parts come one by one, as a call for C
// passes them.
#![tactic(auto, unfolding(kinds::specs::Kinds::on_kinds))]

ghost use Rattle.std.specs.Prelude.{◌≡◌};
ghost use Rattle.willow.specs.Answers.{on_paths};
ghost use Rattle.willow.specs.Areas.{almost_includes_area, area_prunable, compare_areas, includes_area, includes_triplet};
ghost use Rattle.willow.specs.Orders.{order_number};
ghost use Rattle.willow.specs.Refusals.{value};
ghost use Rattle.convention.specs.Exports.{given, limits_of, yes_number};
ghost use Rattle.kinds.specs.Kinds.{both, on_kinds};
ghost use Rattle.area.specs.LentAreas.{triplet_at};
ghost use Rattle.area_kinds.specs.AreaKinds.{area_from, area_with};

use area_questions::{
    almost_includes_area, compare, could_be_pruned_by_triplet, includes_area, includes_triplet,
};
use convention::{Answer, answered};
use willow::Limits;

// Whether an area includes an entry of this subspace, path and timestamp.
pub fn wotskrale_area_includes_triplet(
    mcl: u64,
    mcc: u64,
    mpl: u64,
    kind: u64,
    id: u64,
    base: &[u8],
    count: u64,
    start: u64,
    end_kind: u64,
    end: u64,
    subspace: u64,
    path: &[u8],
    path_count: u64,
    timestamp: u64,
) -> Answer
    ensures { result ≡ given yes_number (on_kinds (limits_of mcl mcc mpl) (area_from kind id count start end_kind end) (λ a. on_paths (limits_of mcl mcc mpl) base.now a.count path.now path_count (λ p q. value (includes_triplet (area_with a p) (triplet_at subspace q timestamp))))) }
{
    let limits = Limits { mcl, mcc, mpl };
    let read = area_kinds::read_area(limits, kind, id, count, start, end_kind, end);
    answered(read.and_then(|a| includes_triplet(
        limits, a, base, subspace, path, path_count, timestamp,
    )))
}

// Whether an entry of this subspace, path and timestamp can prune entries of an area.
pub fn wotskrale_area_could_be_pruned_by_triplet(
    mcl: u64,
    mcc: u64,
    mpl: u64,
    kind: u64,
    id: u64,
    base: &[u8],
    count: u64,
    start: u64,
    end_kind: u64,
    end: u64,
    subspace: u64,
    path: &[u8],
    path_count: u64,
    timestamp: u64,
) -> Answer
    ensures { result ≡ given yes_number (on_kinds (limits_of mcl mcc mpl) (area_from kind id count start end_kind end) (λ a. on_paths (limits_of mcl mcc mpl) base.now a.count path.now path_count (λ p q. value (area_prunable (area_with a p) (triplet_at subspace q timestamp))))) }
{
    let limits = Limits { mcl, mcc, mpl };
    let read = area_kinds::read_area(limits, kind, id, count, start, end_kind, end);
    answered(read.and_then(|a| could_be_pruned_by_triplet(
        limits, a, base, subspace, path, path_count, timestamp,
    )))
}

// Whether an area includes another.
pub fn wotskrale_area_includes_area(
    mcl: u64,
    mcc: u64,
    mpl: u64,
    kind: u64,
    id: u64,
    base: &[u8],
    count: u64,
    start: u64,
    end_kind: u64,
    end: u64,
    kind2: u64,
    id2: u64,
    base2: &[u8],
    count2: u64,
    start2: u64,
    end_kind2: u64,
    end2: u64,
) -> Answer
    ensures { result ≡ given yes_number (on_kinds (limits_of mcl mcc mpl) (both (area_from kind id count start end_kind end) (area_from kind2 id2 count2 start2 end_kind2 end2)) (λ x. on_paths (limits_of mcl mcc mpl) base.now x.0.count base2.now x.1.count (λ p q. value (includes_area (area_with x.0 p) (area_with x.1 q))))) }
{
    let limits = Limits { mcl, mcc, mpl };
    let read = area_kinds::read_areas(
        limits, kind, id, count, start, end_kind, end, kind2, id2, count2, start2, end_kind2, end2,
    );
    answered(read.and_then(|(a, b)| includes_area(limits, a, base, b, base2)))
}

// Whether an area would include another if their subspaces were the same.
pub fn wotskrale_area_almost_includes_area(
    mcl: u64,
    mcc: u64,
    mpl: u64,
    kind: u64,
    id: u64,
    base: &[u8],
    count: u64,
    start: u64,
    end_kind: u64,
    end: u64,
    kind2: u64,
    id2: u64,
    base2: &[u8],
    count2: u64,
    start2: u64,
    end_kind2: u64,
    end2: u64,
) -> Answer
    ensures { result ≡ given yes_number (on_kinds (limits_of mcl mcc mpl) (both (area_from kind id count start end_kind end) (area_from kind2 id2 count2 start2 end_kind2 end2)) (λ x. on_paths (limits_of mcl mcc mpl) base.now x.0.count base2.now x.1.count (λ p q. value (almost_includes_area (area_with x.0 p) (area_with x.1 q))))) }
{
    let limits = Limits { mcl, mcc, mpl };
    let read = area_kinds::read_areas(
        limits, kind, id, count, start, end_kind, end, kind2, id2, count2, start2, end_kind2, end2,
    );
    answered(read.and_then(|(a, b)| almost_includes_area(limits, a, base, b, base2)))
}

// The order of two areas.
pub fn wotskrale_area_compare(
    mcl: u64,
    mcc: u64,
    mpl: u64,
    kind: u64,
    id: u64,
    base: &[u8],
    count: u64,
    start: u64,
    end_kind: u64,
    end: u64,
    kind2: u64,
    id2: u64,
    base2: &[u8],
    count2: u64,
    start2: u64,
    end_kind2: u64,
    end2: u64,
) -> Answer
    ensures { result ≡ given order_number (on_kinds (limits_of mcl mcc mpl) (both (area_from kind id count start end_kind end) (area_from kind2 id2 count2 start2 end_kind2 end2)) (λ x. on_paths (limits_of mcl mcc mpl) base.now x.0.count base2.now x.1.count (λ p q. value (compare_areas (area_with x.0 p) (area_with x.1 q))))) }
{
    let limits = Limits { mcl, mcc, mpl };
    let read = area_kinds::read_areas(
        limits, kind, id, count, start, end_kind, end, kind2, id2, count2, start2, end_kind2, end2,
    );
    answered(read.and_then(|(a, b)| compare(limits, a, base, b, base2)))
}
