// The calls of `range_3d_questions` for a host in another language.
//
// A 3d range is a start, the kind of the end (0 open, 1 closed) and an end, of its subspaces, of its paths and of its times. Those of
// the paths are packed paths, each a buffer with a count beside it. What stands beside kind 0 is not read. A slice is a pointer and
// then a length; limits are three numbers MCL, MCC, MPL. Every call refuses 1, then 3, then 5. The parts come one by one, as a call for
// C passes them.
#![tactic(auto, unfolding(kinds::specs::Kinds::on_kinds))]

ghost use Rattle.std.specs.Prelude.{[], ◌∷◌, ◌++◌, ◌≡◌};
ghost use Rattle.willow.specs.Answers.{path_in};
ghost use Rattle.willow.specs.Orders.{order_number};
ghost use Rattle.willow.specs.Ranges3d.{compare_ranges3d, includes_range3d, includes_triplet3d, range3d_prunable};
ghost use Rattle.willow.specs.Refusals.{value};
ghost use Rattle.convention.specs.Exports.{given, limits_of, yes_number};
ghost use Rattle.kinds.specs.Kinds.{both, on_kinds};
ghost use Rattle.area.specs.LentAreas.{triplet_at};
ghost use Rattle.path_bounds.specs.LentPaths.{on_lent};
ghost use Rattle.path_bounds.specs.LentRanges.{range_paths};
ghost use Rattle.range_3d_kinds.specs.Range3dKinds.{parts3d_from, range3d_with};

use convention::{Answer, answered};
use range_3d_questions::{compare, could_be_pruned_by_triplet, includes_range, includes_triplet};
use willow::Limits;

// Whether a 3d range includes an entry of this subspace, path and timestamp.
pub fn wotskrale_range_3d_includes_triplet(
    mcl: u64,
    mcc: u64,
    mpl: u64,
    subspace_start: u64,
    subspace_end_kind: u64,
    subspace_end: u64,
    s: &[u8],
    start_count: u64,
    path_end_kind: u64,
    e: &[u8],
    end_count: u64,
    time_start: u64,
    time_end_kind: u64,
    time_end: u64,
    subspace: u64,
    path: &[u8],
    count: u64,
    timestamp: u64,
) -> Answer
    ensures { result ≡ given yes_number (on_kinds (limits_of mcl mcc mpl) (parts3d_from subspace_start subspace_end_kind subspace_end start_count path_end_kind end_count time_start time_end_kind time_end) (λ x. on_lent (limits_of mcl mcc mpl) (range_paths x.paths s.now e.now ++ ((path.now, count) ∷ [])) (value (includes_triplet3d (range3d_with x s.now e.now) (triplet_at subspace (path_in path.now count) timestamp))))) }
{
    let limits = Limits { mcl, mcc, mpl };
    let read = range_3d_kinds::read_range_3d(
        limits,
        subspace_start,
        subspace_end_kind,
        subspace_end,
        start_count,
        path_end_kind,
        end_count,
        time_start,
        time_end_kind,
        time_end,
    );
    answered(read.and_then(|a| includes_triplet(limits, a, s, e, subspace, path, count, timestamp)))
}

// Whether an entry of this subspace, path and timestamp can prune entries of a 3d range. Longer than 40 lines by its arguments alone, as
// the two below.
pub fn wotskrale_range_3d_could_be_pruned_by_triplet(
    mcl: u64,
    mcc: u64,
    mpl: u64,
    subspace_start: u64,
    subspace_end_kind: u64,
    subspace_end: u64,
    s: &[u8],
    start_count: u64,
    path_end_kind: u64,
    e: &[u8],
    end_count: u64,
    time_start: u64,
    time_end_kind: u64,
    time_end: u64,
    subspace: u64,
    path: &[u8],
    count: u64,
    timestamp: u64,
) -> Answer
    ensures { result ≡ given yes_number (on_kinds (limits_of mcl mcc mpl) (parts3d_from subspace_start subspace_end_kind subspace_end start_count path_end_kind end_count time_start time_end_kind time_end) (λ x. on_lent (limits_of mcl mcc mpl) (range_paths x.paths s.now e.now ++ ((path.now, count) ∷ [])) (value (range3d_prunable (range3d_with x s.now e.now) (triplet_at subspace (path_in path.now count) timestamp))))) }
{
    let limits = Limits { mcl, mcc, mpl };
    let read = range_3d_kinds::read_range_3d(
        limits,
        subspace_start,
        subspace_end_kind,
        subspace_end,
        start_count,
        path_end_kind,
        end_count,
        time_start,
        time_end_kind,
        time_end,
    );
    answered(read.and_then(|a| could_be_pruned_by_triplet(
        limits, a, s, e, subspace, path, count, timestamp,
    )))
}

// Whether a 3d range includes another.
pub fn wotskrale_range_3d_includes_range(
    mcl: u64,
    mcc: u64,
    mpl: u64,
    subspace_start: u64,
    subspace_end_kind: u64,
    subspace_end: u64,
    s: &[u8],
    start_count: u64,
    path_end_kind: u64,
    e: &[u8],
    end_count: u64,
    time_start: u64,
    time_end_kind: u64,
    time_end: u64,
    subspace_start2: u64,
    subspace_end_kind2: u64,
    subspace_end2: u64,
    s2: &[u8],
    start_count2: u64,
    path_end_kind2: u64,
    e2: &[u8],
    end_count2: u64,
    time_start2: u64,
    time_end_kind2: u64,
    time_end2: u64,
) -> Answer
    ensures { result ≡ given yes_number (on_kinds (limits_of mcl mcc mpl) (both (parts3d_from subspace_start subspace_end_kind subspace_end start_count path_end_kind end_count time_start time_end_kind time_end) (parts3d_from subspace_start2 subspace_end_kind2 subspace_end2 start_count2 path_end_kind2 end_count2 time_start2 time_end_kind2 time_end2)) (λ x. on_lent (limits_of mcl mcc mpl) (range_paths x.0.paths s.now e.now ++ range_paths x.1.paths s2.now e2.now) (value (includes_range3d (range3d_with x.0 s.now e.now) (range3d_with x.1 s2.now e2.now))))) }
{
    let limits = Limits { mcl, mcc, mpl };
    let read = range_3d_kinds::read_ranges_3d(
        limits,
        subspace_start,
        subspace_end_kind,
        subspace_end,
        start_count,
        path_end_kind,
        end_count,
        time_start,
        time_end_kind,
        time_end,
        subspace_start2,
        subspace_end_kind2,
        subspace_end2,
        start_count2,
        path_end_kind2,
        end_count2,
        time_start2,
        time_end_kind2,
        time_end2,
    );
    answered(read.and_then(|(a, b)| includes_range(limits, a, s, e, b, s2, e2)))
}

// The order of two 3d ranges.
pub fn wotskrale_range_3d_compare(
    mcl: u64,
    mcc: u64,
    mpl: u64,
    subspace_start: u64,
    subspace_end_kind: u64,
    subspace_end: u64,
    s: &[u8],
    start_count: u64,
    path_end_kind: u64,
    e: &[u8],
    end_count: u64,
    time_start: u64,
    time_end_kind: u64,
    time_end: u64,
    subspace_start2: u64,
    subspace_end_kind2: u64,
    subspace_end2: u64,
    s2: &[u8],
    start_count2: u64,
    path_end_kind2: u64,
    e2: &[u8],
    end_count2: u64,
    time_start2: u64,
    time_end_kind2: u64,
    time_end2: u64,
) -> Answer
    ensures { result ≡ given order_number (on_kinds (limits_of mcl mcc mpl) (both (parts3d_from subspace_start subspace_end_kind subspace_end start_count path_end_kind end_count time_start time_end_kind time_end) (parts3d_from subspace_start2 subspace_end_kind2 subspace_end2 start_count2 path_end_kind2 end_count2 time_start2 time_end_kind2 time_end2)) (λ x. on_lent (limits_of mcl mcc mpl) (range_paths x.0.paths s.now e.now ++ range_paths x.1.paths s2.now e2.now) (value (compare_ranges3d (range3d_with x.0 s.now e.now) (range3d_with x.1 s2.now e2.now))))) }
{
    let limits = Limits { mcl, mcc, mpl };
    let read = range_3d_kinds::read_ranges_3d(
        limits,
        subspace_start,
        subspace_end_kind,
        subspace_end,
        start_count,
        path_end_kind,
        end_count,
        time_start,
        time_end_kind,
        time_end,
        subspace_start2,
        subspace_end_kind2,
        subspace_end2,
        start_count2,
        path_end_kind2,
        end_count2,
        time_start2,
        time_end_kind2,
        time_end2,
    );
    answered(read.and_then(|(a, b)| compare(limits, a, s, e, b, s2, e2)))
}
