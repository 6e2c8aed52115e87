// The intersection of 3d ranges whose paths were tested, and the range of a subspace. They are not open to a caller.

ghost use Rattle.std.specs.Prelude.{◌≡◌};
ghost use Rattle.willow.specs.Answers.{if_any, outcome_if_any};
ghost use Rattle.willow.specs.Ranges3d.{subspace_range};
ghost use Rattle.range.specs.NumberRanges.{range_of};
ghost use Rattle.range_3d.specs.LentRanges3d.{range3d_of_paths};
ghost use Rattle.range_3d_intersection.specs.Sides3d.{sides_met3d, standing3d_of};

use packed::lent::LentPath;
use path_range_intersection::Side;
use range::Range;
use range_3d::Range3d;
use willow::{AreaSubspace, RangeEnd};

// An id's range ends at its successor, and is open where it has none.
pub fn subspace_range(subspace: AreaSubspace) -> Range<u64>
    ensures { range_of result ≡ subspace_range subspace }
{
    match subspace {
        AreaSubspace::Any => Range::full(),
        AreaSubspace::Id(id) => match id.checked_add(1) {
            Some(next) => Range::new(id, RangeEnd::Closed(next)),
            None => Range::new_open(id),
        },
    }
}

// The intersections of all three ranges, if there are all three.
#[tactic(auto, unfolding(willow::specs::Orders::compare_numbers, willow::specs::Ranges3d::intersection3d, path_range_intersection::specs::Sides::sides_met, crate::specs::Sides3d::sides_met3d), using(path_range_intersection::proofs::SidesLaws::sides_met_by))]
pub fn sides<'a>(
    range: Range3d<LentPath<'a>>,
    other: Range3d<LentPath<'a>>,
) -> Option<Range3d<Side>>
    ensures { outcome_if_any (if_any standing3d_of result) ≡ sides_met3d (range3d_of_paths range.entry) (range3d_of_paths other.entry) }
{
    let subspaces = range.subspaces.intersection(other.subspaces)?;
    let paths = path_range_intersection::sides(range.paths, other.paths)?;
    let times = range.times.intersection(other.times)?;
    Some(Range3d::new(subspaces, paths, times))
}
