// The calls of `path_range` and `path_end` for a host in another language: ranges and ends of paths.
//
// A range is the packed path of its start as a buffer with a count beside it, the kind of its end (0 open, 1 closed), and the packed
// path of its end with a count; an end is the last three of them. What stands beside kind 0 is not read. A slice is a pointer and then
// a length; limits are three numbers MCL, MCC, MPL. Calls refuse 1, then 3, then 5. The parts come one by one, as a call for C passes
// them.
#![tactic(auto, unfolding(kinds::specs::Kinds::on_kinds))]

ghost use Rattle.std.specs.Prelude.{[], ◌∷◌, ◌++◌, ◌≡◌, IfOk};
ghost use Rattle.std.proofs.Math.Option.{none, some};
ghost use Rattle.willow.specs.Answers.{limits_refusal, on_paths, outcome_by, path_in};
ghost use Rattle.willow.specs.Lists.{is_some};
ghost use Rattle.willow.specs.Orders.{order_number};
ghost use Rattle.willow.specs.Paths.{compare_paths};
ghost use Rattle.willow.specs.Ranges.{compare_ends, compare_ranges, end_above, end_from, end_of, includes, includes_range, new_closed};
ghost use Rattle.willow.specs.Refusals.{value};
ghost use Rattle.convention.specs.Exports.{given, limits_of, yes_number};
ghost use Rattle.kinds.specs.Kinds.{both, on_kinds, range_from};
ghost use Rattle.path_bounds.specs.LentPaths.{on_lent};
ghost use Rattle.path_bounds.specs.LentRanges.{end_paths, path_end_of, path_range_of, range_paths};

use convention::{Answer, answered};
use willow::{Limits, RangeEnd, Refusal};

// Two ends.
fn read_ends(
    limits: Limits,
    kind: u64,
    end: u64,
    kind2: u64,
    end2: u64,
) -> Result<(RangeEnd<u64>, RangeEnd<u64>), Refusal>
    ensures answer { outcome_by (λ x. (end_of x.0, end_of x.1)) result ≡ on_kinds limits (both (end_from kind end) (end_from kind2 end2)) value }
    ensures ok { IfOk result (λ x. (limits_refusal limits ≡ none) × (both (end_from kind end) (end_from kind2 end2) ≡ some (end_of x.0, end_of x.1))) }
{
    Ok((
        path_kinds::read_end(limits, kind, end)?,
        path_kinds::read_end(limits, kind2, end2)?,
    ))
}

// Whether an end is above a path.
pub fn wotskrale_path_range_end_above(
    mcl: u64,
    mcc: u64,
    mpl: u64,
    kind: u64,
    e: &[u8],
    end: u64,
    path: &[u8],
    count: u64,
) -> Answer
    ensures { result ≡ given yes_number (on_kinds (limits_of mcl mcc mpl) (end_from kind end) (λ x. on_lent (limits_of mcl mcc mpl) (end_paths x e.now ++ ((path.now, count) ∷ [])) (value (end_above compare_paths (path_end_of x e.now) (path_in path.now count))))) }
{
    let limits = Limits { mcl, mcc, mpl };
    let read = path_kinds::read_end(limits, kind, end);
    answered(read.and_then(|a| path_end::gt_val(limits, a, e, path, count)))
}

// The order of two ends, open being greatest.
pub fn wotskrale_path_range_compare_ends(
    mcl: u64,
    mcc: u64,
    mpl: u64,
    kind: u64,
    e: &[u8],
    end: u64,
    kind2: u64,
    e2: &[u8],
    end2: u64,
) -> Answer
    ensures { result ≡ given order_number (on_kinds (limits_of mcl mcc mpl) (both (end_from kind end) (end_from kind2 end2)) (λ x. on_lent (limits_of mcl mcc mpl) (end_paths x.0 e.now ++ end_paths x.1 e2.now) (value (compare_ends compare_paths (path_end_of x.0 e.now) (path_end_of x.1 e2.now))))) }
{
    let limits = Limits { mcl, mcc, mpl };
    let read = read_ends(limits, kind, end, kind2, end2);
    answered(read.and_then(|(a, b)| path_end::compare_ends(limits, a, e, b, e2)))
}

// Whether there is a closed range from a start to an end: no where it would include nothing.
pub fn wotskrale_path_range_new_closed(
    mcl: u64,
    mcc: u64,
    mpl: u64,
    s: &[u8],
    start: u64,
    e: &[u8],
    end: u64,
) -> Answer
    ensures { result ≡ given yes_number (on_paths (limits_of mcl mcc mpl) s.now start e.now end (λ p q. value (is_some (new_closed compare_paths p q)))) }
{
    answered(path_range::new_closed(Limits { mcl, mcc, mpl }, s, start, e, end))
}

// Whether a range includes a path.
pub fn wotskrale_path_range_includes(
    mcl: u64,
    mcc: u64,
    mpl: u64,
    s: &[u8],
    start: u64,
    kind: u64,
    e: &[u8],
    end: u64,
    path: &[u8],
    count: u64,
) -> Answer
    ensures { result ≡ given yes_number (on_kinds (limits_of mcl mcc mpl) (range_from start kind end) (λ x. on_lent (limits_of mcl mcc mpl) (range_paths x s.now e.now ++ ((path.now, count) ∷ [])) (value (includes compare_paths (path_range_of x s.now e.now) (path_in path.now count))))) }
{
    let limits = Limits { mcl, mcc, mpl };
    let read = path_kinds::read_range(limits, start, kind, end);
    answered(read.and_then(|a| path_range::includes(limits, a, s, e, path, count)))
}

// Whether a range includes another: by their starts and ends.
pub fn wotskrale_path_range_includes_range(
    mcl: u64,
    mcc: u64,
    mpl: u64,
    s: &[u8],
    start: u64,
    kind: u64,
    e: &[u8],
    end: u64,
    s2: &[u8],
    start2: u64,
    kind2: u64,
    e2: &[u8],
    end2: u64,
) -> Answer
    ensures { result ≡ given yes_number (on_kinds (limits_of mcl mcc mpl) (both (range_from start kind end) (range_from start2 kind2 end2)) (λ x. on_lent (limits_of mcl mcc mpl) (range_paths x.0 s.now e.now ++ range_paths x.1 s2.now e2.now) (value (includes_range compare_paths (path_range_of x.0 s.now e.now) (path_range_of x.1 s2.now e2.now))))) }
{
    let limits = Limits { mcl, mcc, mpl };
    let read = path_kinds::read_ranges(limits, start, kind, end, start2, kind2, end2);
    answered(read.and_then(|(a, b)| path_range::includes_range(limits, a, s, e, b, s2, e2)))
}

// The order of two ranges: by start, then by end.
pub fn wotskrale_path_range_compare(
    mcl: u64,
    mcc: u64,
    mpl: u64,
    s: &[u8],
    start: u64,
    kind: u64,
    e: &[u8],
    end: u64,
    s2: &[u8],
    start2: u64,
    kind2: u64,
    e2: &[u8],
    end2: u64,
) -> Answer
    ensures { result ≡ given order_number (on_kinds (limits_of mcl mcc mpl) (both (range_from start kind end) (range_from start2 kind2 end2)) (λ x. on_lent (limits_of mcl mcc mpl) (range_paths x.0 s.now e.now ++ range_paths x.1 s2.now e2.now) (value (compare_ranges compare_paths (path_range_of x.0 s.now e.now) (path_range_of x.1 s2.now e2.now))))) }
{
    let limits = Limits { mcl, mcc, mpl };
    let read = path_kinds::read_ranges(limits, start, kind, end, start2, kind2, end2);
    answered(read.and_then(|(a, b)| path_range::compare(limits, a, s, e, b, s2, e2)))
}
