// For C: the call of `host_range_3d_intersection`, as a static library. It is the call of that name there, and promises what that promises;
// the head of `host_range_3d_intersection` says how its arguments are passed.
#![tactic(auto)]

ghost use Rattle.std.specs.Prelude.{◌++◌, ◌≡◌};
ghost use Rattle.convention.specs.Exports.{limits_of};
ghost use Rattle.kinds.specs.Kinds.{both, on_kinds};
ghost use Rattle.path_bounds.specs.LentPaths.{on_lent};
ghost use Rattle.path_bounds.specs.LentRanges.{range_paths};
ghost use Rattle.range_3d_intersection.specs.Sides3d.{sides_met3d};
ghost use Rattle.range_3d_kinds.specs.Range3dKinds.{parts3d_from, range3d_with};
ghost use Rattle.host_range_3d_intersection.specs.SidesExports.{given_sides};

use host_range_3d_intersection::Range3dAnswer;

// The 3d range of the triplets that lie in both.
#[unsafe(no_mangle)]
pub extern "C" fn wotskrale_range_3d_intersection(
    mcl: u64,
    mcc: u64,
    mpl: u64,
    subspace_start: u64,
    subspace_end_kind: u64,
    subspace_end: u64,
    s: &[u8],
    start_count: u64,
    path_end_kind: u64,
    e: &[u8],
    end_count: u64,
    time_start: u64,
    time_end_kind: u64,
    time_end: u64,
    subspace_start2: u64,
    subspace_end_kind2: u64,
    subspace_end2: u64,
    s2: &[u8],
    start_count2: u64,
    path_end_kind2: u64,
    e2: &[u8],
    end_count2: u64,
    time_start2: u64,
    time_end_kind2: u64,
    time_end2: u64,
) -> Range3dAnswer
    ensures { result ≡ given_sides (on_kinds (limits_of mcl mcc mpl) (both (parts3d_from subspace_start subspace_end_kind subspace_end start_count path_end_kind end_count time_start time_end_kind time_end) (parts3d_from subspace_start2 subspace_end_kind2 subspace_end2 start_count2 path_end_kind2 end_count2 time_start2 time_end_kind2 time_end2)) (λ x. on_lent (limits_of mcl mcc mpl) (range_paths x.0.paths s.now e.now ++ range_paths x.1.paths s2.now e2.now) (sides_met3d (range3d_with x.0 s.now e.now) (range3d_with x.1 s2.now e2.now)))) }
{
    host_range_3d_intersection::wotskrale_range_3d_intersection(
        mcl,
        mcc,
        mpl,
        subspace_start,
        subspace_end_kind,
        subspace_end,
        s,
        start_count,
        path_end_kind,
        e,
        end_count,
        time_start,
        time_end_kind,
        time_end,
        subspace_start2,
        subspace_end_kind2,
        subspace_end2,
        s2,
        start_count2,
        path_end_kind2,
        e2,
        end_count2,
        time_start2,
        time_end_kind2,
        time_end2,
    )
}
