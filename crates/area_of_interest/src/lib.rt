// Areas of interest (grouping/area_of_interest.rs): an area with a count and a size. Like an area, one is a struct beside the lent
// buffer of its path. Calls refuse 1, then 5.
#![tactic(auto, unfolding(willow::specs::Answers::on_paths, willow::specs::Answers::path_in, willow::specs::AreasOfInterest::of_interest, willow::specs::AreasOfInterest::full_of_interest, willow::specs::AreasOfInterest::interest_intersection, willow::specs::Areas::area_intersection, willow::specs::Orders::compare_numbers, area_intersection::specs::Standing::standing, crate::specs::Interests::standing_interest))]

pub mod lent;
pub mod meeting;

ghost use Rattle.std.specs.Prelude.{List, ◌≡◌, ℕ};
ghost use Rattle.willow.specs.Answers.{optional_outcome_by, outcome};
ghost use Rattle.willow.specs.AreasOfInterest.{compare_interest, full_of_interest, of_interest};
ghost use Rattle.willow.specs.Refusals.{value};
ghost use Rattle.area.specs.LentAreas.{area_in};
ghost use Rattle.area_of_interest.specs.Interests.{interest_in, on_interests, standing_interest, standing_of};

use area::Area;
pub use area_intersection::{Met, intersection_path};
use lent_path::lend_two;
use std::cmp::Ordering;
use willow::{Limits, Refusal};

// An area of interest beside the buffer of its path.
#[derive(Clone, Copy)]
pub struct AreaOfInterest {
    pub area: Area,
    pub max_count: u64,
    pub max_size: u64,
}

impl AreaOfInterest {
    // An area with its two numbers.
    pub fn new(area: Area, max_count: u64, max_size: u64) -> AreaOfInterest
        ensures { result ≡ record { area = area; max_count = max_count; max_size = max_size } }
    {
        AreaOfInterest {
            area,
            max_count,
            max_size,
        }
    }

    // An area turned into an area of interest carries zeros.
    pub fn from_area(area: Area) -> AreaOfInterest
        ensures { (b : List ℕ) → interest_in result b ≡ of_interest (area_in area b) }
    {
        AreaOfInterest::new(area, 0, 0)
    }

    // The full area's, beside whatever buffer.
    pub fn full() -> AreaOfInterest
        ensures { (b : List ℕ) → interest_in result b ≡ full_of_interest }
    {
        AreaOfInterest::from_area(Area::full())
    }
}

// The areas intersected, and of both numbers the one that stands; none where no triplet lies in both areas.
pub fn intersection(
    limits: Limits,
    interest: AreaOfInterest,
    base: &[u8],
    other: AreaOfInterest,
    base2: &[u8],
) -> Result<Option<Met<AreaOfInterest>>, Refusal>
    ensures { optional_outcome_by standing_of result ≡ on_interests limits interest base.now other base2.now standing_interest }
{
    let (p, q) = lend_two(limits, base, interest.area.count, base2, other.area.count)?;
    Ok(interest.at(p).intersection(other.at(q)))
}

// The order: by area, then count, then size.
pub fn compare(
    limits: Limits,
    interest: AreaOfInterest,
    base: &[u8],
    other: AreaOfInterest,
    base2: &[u8],
) -> Result<Ordering, Refusal>
    ensures { outcome result ≡ on_interests limits interest base.now other base2.now (λ a b. value (compare_interest a b)) }
{
    let (p, q) = lend_two(limits, base, interest.area.count, base2, other.area.count)?;
    Ok(interest.at(p).compare(other.at(q)))
}
