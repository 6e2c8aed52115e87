// The questions on areas of interest whose paths were tested.

ghost use Rattle.std.specs.Prelude.{◌≡◌};
ghost use Rattle.willow.specs.Answers.{if_any, outcome_if_any};
ghost use Rattle.willow.specs.AreasOfInterest.{compare_interest};
ghost use Rattle.packed.specs.LentPaths.{path_of};
ghost use Rattle.area_of_interest.specs.Interests.{interest_at, interest_of, standing_interest, standing_of};

use crate::AreaOfInterest;
use crate::lent::LentInterest;
use area_intersection::{Met, inner};
use packed::lent::LentPath;
use std::cmp::Ordering;

impl AreaOfInterest {
    // The area of interest with the path that was tested.
    pub fn at<'a>(self, path: LentPath<'a>) -> LentInterest<'a>
        ensures { interest_of result ≡ interest_at self (path_of path.entry) }
    {
        LentInterest {
            area: self.area.at(path),
            max_count: self.max_count,
            max_size: self.max_size,
        }
    }
}

impl<'a> LentInterest<'a> {
    // The areas intersected, and of both numbers the one that stands.
    pub fn intersection(self, other: LentInterest) -> Option<Met<AreaOfInterest>>
        ensures { outcome_if_any (if_any standing_of result) ≡ standing_interest (interest_of self.entry) (interest_of other.entry) }
    {
        let met = inner::intersection(self.area, other.area)?;
        let max_count = self.max_count.min(other.max_count);
        let max_size = self.max_size.min(other.max_size);
        Some(match met {
            Met::First(area) => Met::First(AreaOfInterest::new(area, max_count, max_size)),
            Met::Second(area) => Met::Second(AreaOfInterest::new(area, max_count, max_size)),
        })
    }

    // By area, then count, then size.
    pub fn compare(self, other: LentInterest) -> Ordering
        ensures { result ≡ compare_interest (interest_of self.entry) (interest_of other.entry) }
    {
        self.cmp(&other)
    }
}
