// 3d ranges (grouping/range_3d.rs): three ranges, of subspaces, paths and times. One is lent with a range of counts for that of its
// paths, beside two buffers: `s` holds the start and `e` the end. The questions on 3d ranges are the calls of crate
// `range_3d_questions`.
#![tactic(auto, unfolding(willow::specs::Ranges3d::full_range3d))]

pub mod questions;

ghost use Rattle.std.specs.Prelude.{List, ◌≡◌, ℕ};
ghost use Rattle.willow.specs.Ranges3d.{full_range3d};
ghost use Rattle.range_3d.specs.LentRanges3d.{range3d_of};

use range::Range;

// A 3d range whose range of paths is one of values that stand for paths: of counts, beside buffers; of lent paths that were tested; of
// the sides of an intersection. 3d ranges are ordered by subspaces, then paths, then times.
#[derive(Clone, Copy, PartialEq, Eq, PartialOrd, Ord)]
pub struct Range3d<P> {
    pub subspaces: Range<u64>,
    pub paths: Range<P>,
    pub times: Range<u64>,
}

impl<P: Copy> Range3d<P> {
    // The 3d range of three ranges.
    pub fn new(subspaces: Range<u64>, paths: Range<P>, times: Range<u64>) -> Range3d<P>
        ensures { result ≡ record { subspaces = subspaces; paths = paths; times = times } }
    {
        Range3d {
            subspaces,
            paths,
            times,
        }
    }
}

impl Range3d<u64> {
    // The 3d range of all entries, beside whatever buffers.
    pub fn new_full() -> Range3d<u64>
        ensures { (s e : List ℕ) → range3d_of result s e ≡ full_range3d }
    {
        Range3d::new(Range::full(), path_range::full(), Range::full())
    }
}
