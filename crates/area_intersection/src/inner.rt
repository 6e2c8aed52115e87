// The intersection of areas whose paths were tested. It is not open to a caller.

ghost use Rattle.std.specs.Prelude.{◌≡◌};
ghost use Rattle.willow.specs.Answers.{if_any, outcome_if_any};
ghost use Rattle.area.specs.LentAreas.{area_of};
ghost use Rattle.area_intersection.specs.Standing.{standing, standing_of};

use crate::Met;
use area::Area;
use area::lent::LentArea;

// The three parts that both share, if there are all three. The longer path stands, the second's where they are equal.
pub fn intersection(a: LentArea, b: LentArea) -> Option<Met<Area>>
    ensures { outcome_if_any (if_any standing_of result) ≡ standing (area_of a.entry) (area_of b.entry) }
{
    let subspace = subspace::intersection(a.subspace, b.subspace)?;
    let times = a.times.intersection(b.times)?;
    if a.path.is_prefix_of(b.path) {
        let count = b.path.component_count() as u64;
        return Some(Met::Second(Area::new(subspace, count, times)));
    }
    if b.path.is_prefix_of(a.path) {
        let count = a.path.component_count() as u64;
        return Some(Met::First(Area::new(subspace, count, times)));
    }
    None
}
