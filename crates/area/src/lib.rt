// Areas (grouping/area.rs): the entries of one subspace or of any, below a path, in a range of times. An area is a struct beside
// the lent buffer of its path; the count in it says how many of the buffer's components its path has. The questions on areas are the
// calls of crate `area_questions`.
#![tactic(auto, unfolding(willow::specs::Areas::full_area, willow::specs::Areas::subspace_area, willow::specs::Areas::includes_triplet, willow::specs::Areas::includes_area, willow::specs::Areas::almost_includes_area, willow::specs::Areas::area_prunable, willow::specs::Answers::path_in, willow::specs::Orders::compare_numbers))]

pub mod lent;
pub mod questions;

ghost use Rattle.std.specs.Prelude.{List, ◌≡◌, ℕ};
ghost use Rattle.willow.specs.Areas.{full_area, subspace_area};
ghost use Rattle.area.specs.LentAreas.{area_in};

use range::Range;
use willow::AreaSubspace;

// An area beside the buffer of its path.
#[derive(Clone, Copy)]
pub struct Area {
    pub subspace: AreaSubspace,
    pub count: u64,
    pub times: Range<u64>,
}

impl Area {
    // The area of a subspace, the first components of a buffer, and times.
    pub fn new(subspace: AreaSubspace, count: u64, times: Range<u64>) -> Area
        ensures { result ≡ record { subspace = subspace; count = count; times = times } }
    {
        Area {
            subspace,
            count,
            times,
        }
    }

    // The area of all entries, beside whatever buffer.
    pub fn full() -> Area
        ensures { (b : List ℕ) → area_in result b ≡ full_area }
    {
        Area::new(AreaSubspace::Any, 0, Range::full())
    }

    // The area of all entries of a subspace, beside whatever buffer.
    pub fn of_subspace(sub: u64) -> Area
        ensures { (b : List ℕ) → area_in result b ≡ subspace_area sub }
    {
        Area::new(AreaSubspace::Id(sub), 0, Range::full())
    }
}
