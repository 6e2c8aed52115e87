// Questions on 3d ranges (grouping/range_3d.rs): what a 3d range includes, what could prune an entry of it, and the order of 3d
// ranges. Calls refuse 1, then 5; what stands beside an open end is not read. The struct is a plain value that a host keeps; its buffers
// are lent anew with each call, so they come beside it. A triplet comes by its parts: a struct would be built only to be taken apart.
#![tactic(auto, unfolding(willow::specs::Answers::path_refusal, path_bounds::specs::LentPaths::on_lent, path_bounds::specs::LentPaths::lent_paths_refusal))]

ghost use Rattle.std.specs.Prelude.{◌≡◌};
ghost use Rattle.willow.specs.Answers.{outcome};
ghost use Rattle.willow.specs.Ranges3d.{compare_ranges3d, includes_range3d, includes_triplet3d, range3d_prunable};
ghost use Rattle.willow.specs.Refusals.{value};
ghost use Rattle.area.specs.LentAreas.{triplet_at};
ghost use Rattle.range_3d.specs.LentRanges3d.{on_range3d, on_ranges3d};

use entry::Head;
use lent_path::lend;
use range_3d::Range3d;
use std::cmp::Ordering;
use willow::{Limits, Refusal};

// Whether a 3d range includes an entry of this subspace, path and timestamp.
pub fn includes_triplet(
    limits: Limits,
    range: Range3d<u64>,
    s: &[u8],
    e: &[u8],
    subspace: u64,
    path: &[u8],
    count: u64,
    timestamp: u64,
) -> Result<bool, Refusal>
    ensures { outcome result ≡ on_range3d limits range s.now e.now path.now count (λ t p. value (includes_triplet3d t (triplet_at subspace p timestamp))) }
{
    let r = range.lend(limits, s, e)?;
    let p = lend(limits, path, count)?;
    Ok(r.includes_triplet(subspace, p, timestamp))
}

// Whether a 3d range includes an entry.
pub fn includes_entry(
    limits: Limits,
    range: Range3d<u64>,
    s: &[u8],
    e: &[u8],
    head: Head,
    path: &[u8],
    count: u64,
) -> Result<bool, Refusal>
    ensures { outcome result ≡ on_range3d limits range s.now e.now path.now count (λ t p. value (includes_triplet3d t (triplet_at head.subspace p head.timestamp))) }
{
    let (id, time) = (head.subspace, head.timestamp);
    includes_triplet(limits, range, s, e, id, path, count, time)
}

// Whether a 3d range includes another: by the bounds of its three ranges.
pub fn includes_range(
    limits: Limits,
    range: Range3d<u64>,
    s: &[u8],
    e: &[u8],
    other: Range3d<u64>,
    s2: &[u8],
    e2: &[u8],
) -> Result<bool, Refusal>
    ensures { outcome result ≡ on_ranges3d limits range s.now e.now other s2.now e2.now (λ t u. value (includes_range3d t u)) }
{
    let r = range.lend(limits, s, e)?;
    let r2 = other.lend(limits, s2, e2)?;
    Ok(r.includes_range(r2))
}

// Whether an entry of this subspace, path and timestamp can prune entries of a 3d range, by the Rust's rule: it also says yes to
// some paths past the end.
pub fn could_be_pruned_by_triplet(
    limits: Limits,
    range: Range3d<u64>,
    s: &[u8],
    e: &[u8],
    subspace: u64,
    path: &[u8],
    count: u64,
    timestamp: u64,
) -> Result<bool, Refusal>
    ensures { outcome result ≡ on_range3d limits range s.now e.now path.now count (λ t p. value (range3d_prunable t (triplet_at subspace p timestamp))) }
{
    let r = range.lend(limits, s, e)?;
    let p = lend(limits, path, count)?;
    Ok(r.could_be_pruned(subspace, p, timestamp))
}

// Whether an entry can prune entries of a 3d range.
pub fn could_be_pruned_by(
    limits: Limits,
    range: Range3d<u64>,
    s: &[u8],
    e: &[u8],
    head: Head,
    path: &[u8],
    count: u64,
) -> Result<bool, Refusal>
    ensures { outcome result ≡ on_range3d limits range s.now e.now path.now count (λ t p. value (range3d_prunable t (triplet_at head.subspace p head.timestamp))) }
{
    let (id, time) = (head.subspace, head.timestamp);
    could_be_pruned_by_triplet(limits, range, s, e, id, path, count, time)
}

// The order of 3d ranges: by subspaces, paths, times.
pub fn compare(
    limits: Limits,
    range: Range3d<u64>,
    s: &[u8],
    e: &[u8],
    other: Range3d<u64>,
    s2: &[u8],
    e2: &[u8],
) -> Result<Ordering, Refusal>
    ensures { outcome result ≡ on_ranges3d limits range s.now e.now other s2.now e2.now (λ t u. value (compare_ranges3d t u)) }
{
    let r = range.lend(limits, s, e)?;
    let r2 = other.lend(limits, s2, e2)?;
    Ok(r.compare(r2))
}
