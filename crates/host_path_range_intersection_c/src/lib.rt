// For C: the call of `host_path_range_intersection`, as a static library. It is the call of that name there, and promises what that promises;
// the head of `host_path_range_intersection` says how its arguments are passed.
#![tactic(auto)]

ghost use Rattle.std.specs.Prelude.{◌++◌, ◌≡◌};
ghost use Rattle.willow.specs.Paths.{compare_paths};
ghost use Rattle.convention.specs.Exports.{limits_of};
ghost use Rattle.kinds.specs.Kinds.{both, on_kinds, range_from};
ghost use Rattle.path_bounds.specs.LentPaths.{on_lent};
ghost use Rattle.path_bounds.specs.LentRanges.{path_range_of, range_paths};
ghost use Rattle.path_range_intersection.specs.Sides.{sides_met};
ghost use Rattle.host_path_range_intersection.specs.PathRangeExports.{given_sides};

use host_path_range_intersection::SidesAnswer;

// Whose start and whose end the range of the paths in both has.
#[unsafe(no_mangle)]
pub extern "C" fn wotskrale_path_range_intersection(
    mcl: u64,
    mcc: u64,
    mpl: u64,
    s: &[u8],
    start: u64,
    kind: u64,
    e: &[u8],
    end: u64,
    s2: &[u8],
    start2: u64,
    kind2: u64,
    e2: &[u8],
    end2: u64,
) -> SidesAnswer
    ensures { result ≡ given_sides (on_kinds (limits_of mcl mcc mpl) (both (range_from start kind end) (range_from start2 kind2 end2)) (λ x. on_lent (limits_of mcl mcc mpl) (range_paths x.0 s.now e.now ++ range_paths x.1 s2.now e2.now) (sides_met compare_paths (path_range_of x.0 s.now e.now) (path_range_of x.1 s2.now e2.now)))) }
{
    host_path_range_intersection::wotskrale_path_range_intersection(
        mcl, mcc, mpl, s, start, kind, e, end, s2, start2, kind2, e2, end2,
    )
}
