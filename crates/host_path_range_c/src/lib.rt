// For C: the calls of `host_path_range`, as a static library. Each is the call of that name there, and promises what that promises;
// the head of `host_path_range` says how its arguments are passed.
#![tactic(auto)]

ghost use Rattle.std.specs.Prelude.{[], ◌∷◌, ◌++◌, ◌≡◌};
ghost use Rattle.willow.specs.Answers.{on_paths, path_in};
ghost use Rattle.willow.specs.Lists.{is_some};
ghost use Rattle.willow.specs.Orders.{order_number};
ghost use Rattle.willow.specs.Paths.{compare_paths};
ghost use Rattle.willow.specs.Ranges.{compare_ends, compare_ranges, end_above, end_from, includes, includes_range, new_closed};
ghost use Rattle.willow.specs.Refusals.{value};
ghost use Rattle.convention.specs.Exports.{given, limits_of, yes_number};
ghost use Rattle.kinds.specs.Kinds.{both, on_kinds, range_from};
ghost use Rattle.path_bounds.specs.LentPaths.{on_lent};
ghost use Rattle.path_bounds.specs.LentRanges.{end_paths, path_end_of, path_range_of, range_paths};

use convention::Answer;

// Whether an end is above a path.
#[unsafe(no_mangle)]
pub extern "C" fn wotskrale_path_range_end_above(
    mcl: u64,
    mcc: u64,
    mpl: u64,
    kind: u64,
    e: &[u8],
    end: u64,
    path: &[u8],
    count: u64,
) -> Answer
    ensures { result ≡ given yes_number (on_kinds (limits_of mcl mcc mpl) (end_from kind end) (λ x. on_lent (limits_of mcl mcc mpl) (end_paths x e.now ++ ((path.now, count) ∷ [])) (value (end_above compare_paths (path_end_of x e.now) (path_in path.now count))))) }
{
    host_path_range::wotskrale_path_range_end_above(mcl, mcc, mpl, kind, e, end, path, count)
}

// The order of two ends, open being greatest.
#[unsafe(no_mangle)]
pub extern "C" fn wotskrale_path_range_compare_ends(
    mcl: u64,
    mcc: u64,
    mpl: u64,
    kind: u64,
    e: &[u8],
    end: u64,
    kind2: u64,
    e2: &[u8],
    end2: u64,
) -> Answer
    ensures { result ≡ given order_number (on_kinds (limits_of mcl mcc mpl) (both (end_from kind end) (end_from kind2 end2)) (λ x. on_lent (limits_of mcl mcc mpl) (end_paths x.0 e.now ++ end_paths x.1 e2.now) (value (compare_ends compare_paths (path_end_of x.0 e.now) (path_end_of x.1 e2.now))))) }
{
    host_path_range::wotskrale_path_range_compare_ends(mcl, mcc, mpl, kind, e, end, kind2, e2, end2)
}

// Whether there is a closed range from a start to an end: no where it would include nothing.
#[unsafe(no_mangle)]
pub extern "C" fn wotskrale_path_range_new_closed(
    mcl: u64,
    mcc: u64,
    mpl: u64,
    s: &[u8],
    start: u64,
    e: &[u8],
    end: u64,
) -> Answer
    ensures { result ≡ given yes_number (on_paths (limits_of mcl mcc mpl) s.now start e.now end (λ p q. value (is_some (new_closed compare_paths p q)))) }
{
    host_path_range::wotskrale_path_range_new_closed(mcl, mcc, mpl, s, start, e, end)
}

// Whether a range includes a path.
#[unsafe(no_mangle)]
pub extern "C" fn wotskrale_path_range_includes(
    mcl: u64,
    mcc: u64,
    mpl: u64,
    s: &[u8],
    start: u64,
    kind: u64,
    e: &[u8],
    end: u64,
    path: &[u8],
    count: u64,
) -> Answer
    ensures { result ≡ given yes_number (on_kinds (limits_of mcl mcc mpl) (range_from start kind end) (λ x. on_lent (limits_of mcl mcc mpl) (range_paths x s.now e.now ++ ((path.now, count) ∷ [])) (value (includes compare_paths (path_range_of x s.now e.now) (path_in path.now count))))) }
{
    host_path_range::wotskrale_path_range_includes(
        mcl, mcc, mpl, s, start, kind, e, end, path, count,
    )
}

// Whether a range includes another: by their starts and ends.
#[unsafe(no_mangle)]
pub extern "C" fn wotskrale_path_range_includes_range(
    mcl: u64,
    mcc: u64,
    mpl: u64,
    s: &[u8],
    start: u64,
    kind: u64,
    e: &[u8],
    end: u64,
    s2: &[u8],
    start2: u64,
    kind2: u64,
    e2: &[u8],
    end2: u64,
) -> Answer
    ensures { result ≡ given yes_number (on_kinds (limits_of mcl mcc mpl) (both (range_from start kind end) (range_from start2 kind2 end2)) (λ x. on_lent (limits_of mcl mcc mpl) (range_paths x.0 s.now e.now ++ range_paths x.1 s2.now e2.now) (value (includes_range compare_paths (path_range_of x.0 s.now e.now) (path_range_of x.1 s2.now e2.now))))) }
{
    host_path_range::wotskrale_path_range_includes_range(
        mcl, mcc, mpl, s, start, kind, e, end, s2, start2, kind2, e2, end2,
    )
}

// The order of two ranges: by start, then by end.
#[unsafe(no_mangle)]
pub extern "C" fn wotskrale_path_range_compare(
    mcl: u64,
    mcc: u64,
    mpl: u64,
    s: &[u8],
    start: u64,
    kind: u64,
    e: &[u8],
    end: u64,
    s2: &[u8],
    start2: u64,
    kind2: u64,
    e2: &[u8],
    end2: u64,
) -> Answer
    ensures { result ≡ given order_number (on_kinds (limits_of mcl mcc mpl) (both (range_from start kind end) (range_from start2 kind2 end2)) (λ x. on_lent (limits_of mcl mcc mpl) (range_paths x.0 s.now e.now ++ range_paths x.1 s2.now e2.now) (value (compare_ranges compare_paths (path_range_of x.0 s.now e.now) (path_range_of x.1 s2.now e2.now))))) }
{
    host_path_range::wotskrale_path_range_compare(
        mcl, mcc, mpl, s, start, kind, e, end, s2, start2, kind2, e2, end2,
    )
}
