// 3d ranges as a host passes them: of the subspaces, of the paths and of the times a start, the kind of the end and an end,
// where the paths are counts. Refuses 1, then 3. What stands beside kind 0 is not read. The numbers come one by one, as a call for C
// passes them.
#![tactic(auto, unfolding(kinds::specs::Kinds::on_kinds))]

ghost use Rattle.std.specs.Prelude.{◌≡◌, IfOk};
ghost use Rattle.std.proofs.Math.Option.{none, some};
ghost use Rattle.willow.specs.Answers.{limits_refusal, outcome_by};
ghost use Rattle.willow.specs.Refusals.{value};
ghost use Rattle.kinds.specs.Kinds.{both, on_kinds};
ghost use Rattle.range_3d_kinds.specs.Range3dKinds.{parts3d, parts3d_from};

use range_3d::Range3d;
use willow::{Limits, Refusal};

// A 3d range.
#[tactic(auto, unfolding(kinds::specs::Kinds::on_kinds, crate::specs::Range3dKinds::parts3d_from))]
pub fn read_range_3d(
    limits: Limits,
    subspace_start: u64,
    subspace_end_kind: u64,
    subspace_end: u64,
    start_count: u64,
    path_end_kind: u64,
    end_count: u64,
    time_start: u64,
    time_end_kind: u64,
    time_end: u64,
) -> Result<Range3d<u64>, Refusal>
    ensures answer { outcome_by parts3d result ≡ on_kinds limits (parts3d_from subspace_start subspace_end_kind subspace_end start_count path_end_kind end_count time_start time_end_kind time_end) value }
    ensures ok { IfOk result (λ r. (limits_refusal limits ≡ none) × (parts3d_from subspace_start subspace_end_kind subspace_end start_count path_end_kind end_count time_start time_end_kind time_end ≡ some (parts3d r))) }
{
    let paths = path_kinds::read_range(limits, start_count, path_end_kind, end_count)?;
    let subspaces = kinds::read_range(subspace_start, subspace_end_kind, subspace_end).ok_or(
        Refusal::BadKind,
    )?;
    let times = kinds::read_range(time_start, time_end_kind, time_end).ok_or(Refusal::BadKind)?;
    Ok(Range3d::new(subspaces, paths, times))
}

// Two 3d ranges. Longer than 40 lines by its arguments alone.
pub fn read_ranges_3d(
    limits: Limits,
    subspace_start: u64,
    subspace_end_kind: u64,
    subspace_end: u64,
    start_count: u64,
    path_end_kind: u64,
    end_count: u64,
    time_start: u64,
    time_end_kind: u64,
    time_end: u64,
    subspace_start2: u64,
    subspace_end_kind2: u64,
    subspace_end2: u64,
    start_count2: u64,
    path_end_kind2: u64,
    end_count2: u64,
    time_start2: u64,
    time_end_kind2: u64,
    time_end2: u64,
) -> Result<(Range3d<u64>, Range3d<u64>), Refusal>
    ensures answer { outcome_by (λ x. (parts3d x.0, parts3d x.1)) result ≡ on_kinds limits (both (parts3d_from subspace_start subspace_end_kind subspace_end start_count path_end_kind end_count time_start time_end_kind time_end) (parts3d_from subspace_start2 subspace_end_kind2 subspace_end2 start_count2 path_end_kind2 end_count2 time_start2 time_end_kind2 time_end2)) value }
    ensures ok { IfOk result (λ x. (limits_refusal limits ≡ none) × (both (parts3d_from subspace_start subspace_end_kind subspace_end start_count path_end_kind end_count time_start time_end_kind time_end) (parts3d_from subspace_start2 subspace_end_kind2 subspace_end2 start_count2 path_end_kind2 end_count2 time_start2 time_end_kind2 time_end2) ≡ some (parts3d x.0, parts3d x.1))) }
{
    let a = read_range_3d(
        limits,
        subspace_start,
        subspace_end_kind,
        subspace_end,
        start_count,
        path_end_kind,
        end_count,
        time_start,
        time_end_kind,
        time_end,
    )?;
    let b = read_range_3d(
        limits,
        subspace_start2,
        subspace_end_kind2,
        subspace_end2,
        start_count2,
        path_end_kind2,
        end_count2,
        time_start2,
        time_end_kind2,
        time_end2,
    )?;
    Ok((a, b))
}
