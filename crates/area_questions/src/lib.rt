// Questions on areas (grouping/area.rs): what an area includes, what could prune an entry of it, and the order of areas. Calls refuse
// 1, then 5. The struct is a plain value that a host keeps; its buffer is lent anew with each call, so it comes beside it. A triplet
// comes by its parts: a struct would be built only to be taken apart.
#![tactic(auto, unfolding(willow::specs::Answers::on_paths))]

ghost use Rattle.std.specs.Prelude.{◌≡◌};
ghost use Rattle.willow.specs.Answers.{on_paths, outcome};
ghost use Rattle.willow.specs.Areas.{almost_includes_area, area_prunable, compare_areas, includes_area, includes_triplet};
ghost use Rattle.willow.specs.Refusals.{value};
ghost use Rattle.area.specs.LentAreas.{area_at, on_areas, triplet_at};

use area::Area;
use entry::Head;
use lent_path::lend_two;
use std::cmp::Ordering;
use willow::{Limits, Refusal};

// Whether an area includes an entry of this subspace, path and timestamp.
pub fn includes_triplet(
    limits: Limits,
    area: Area,
    base: &[u8],
    subspace: u64,
    path: &[u8],
    count: u64,
    timestamp: u64,
) -> Result<bool, Refusal>
    ensures { outcome result ≡ on_paths limits base.now area.count path.now count (λ p q. value (includes_triplet (area_at area p) (triplet_at subspace q timestamp))) }
{
    let (p, q) = lend_two(limits, base, area.count, path, count)?;
    Ok(area.at(p).includes_triplet(subspace, q, timestamp))
}

// Whether an area includes an entry.
pub fn includes_entry(
    limits: Limits,
    area: Area,
    base: &[u8],
    head: Head,
    path: &[u8],
    count: u64,
) -> Result<bool, Refusal>
    ensures { outcome result ≡ on_paths limits base.now area.count path.now count (λ p q. value (includes_triplet (area_at area p) (triplet_at head.subspace q head.timestamp))) }
{
    includes_triplet(
        limits,
        area,
        base,
        head.subspace,
        path,
        count,
        head.timestamp,
    )
}

// Whether an area includes another: by subspace, path and the bounds of their times.
pub fn includes_area(
    limits: Limits,
    area: Area,
    base: &[u8],
    other: Area,
    base2: &[u8],
) -> Result<bool, Refusal>
    ensures { outcome result ≡ on_areas limits area base.now other base2.now (λ a b. value (includes_area a b)) }
{
    let (p, q) = lend_two(limits, base, area.count, base2, other.count)?;
    Ok(area.at(p).includes_area(other.at(q)))
}

// Whether an area would include another if their subspaces were the same: two different ids clash, nothing else does.
pub fn almost_includes_area(
    limits: Limits,
    area: Area,
    base: &[u8],
    other: Area,
    base2: &[u8],
) -> Result<bool, Refusal>
    ensures { outcome result ≡ on_areas limits area base.now other base2.now (λ a b. value (almost_includes_area a b)) }
{
    let (p, q) = lend_two(limits, base, area.count, base2, other.count)?;
    Ok(area.at(p).almost_includes_area(other.at(q)))
}

// Whether an entry of this subspace, path and timestamp can prune entries of an area.
pub fn could_be_pruned_by_triplet(
    limits: Limits,
    area: Area,
    base: &[u8],
    subspace: u64,
    path: &[u8],
    count: u64,
    timestamp: u64,
) -> Result<bool, Refusal>
    ensures { outcome result ≡ on_paths limits base.now area.count path.now count (λ p q. value (area_prunable (area_at area p) (triplet_at subspace q timestamp))) }
{
    let (p, q) = lend_two(limits, base, area.count, path, count)?;
    Ok(area.at(p).could_be_pruned(subspace, q, timestamp))
}

// Whether an entry can prune entries of an area.
pub fn could_be_pruned_by(
    limits: Limits,
    area: Area,
    base: &[u8],
    head: Head,
    path: &[u8],
    count: u64,
) -> Result<bool, Refusal>
    ensures { outcome result ≡ on_paths limits base.now area.count path.now count (λ p q. value (area_prunable (area_at area p) (triplet_at head.subspace q head.timestamp))) }
{
    could_be_pruned_by_triplet(
        limits,
        area,
        base,
        head.subspace,
        path,
        count,
        head.timestamp,
    )
}

// The order of areas: by subspace, path, times.
pub fn compare(
    limits: Limits,
    area: Area,
    base: &[u8],
    other: Area,
    base2: &[u8],
) -> Result<Ordering, Refusal>
    ensures { outcome result ≡ on_areas limits area base.now other base2.now (λ a b. value (compare_areas a b)) }
{
    let (p, q) = lend_two(limits, base, area.count, base2, other.count)?;
    Ok(area.at(p).compare(other.at(q)))
}
