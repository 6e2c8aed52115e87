// 3d ranges whose paths were tested, and the questions on them. A triplet comes by its parts: a struct would be built only to be taken
// apart.
#![tactic(auto, unfolding(willow::specs::Orders::compare_numbers, willow::specs::Paths::is_related, willow::specs::Ranges3d::includes_range3d, willow::specs::Ranges3d::includes_triplet3d, willow::specs::Ranges3d::range3d_prunable), using(range::proofs::StandingForLaws::includes_by, range::proofs::StandingForLaws::includes_range_by, range::proofs::StandingForLaws::compare_ranges_by))]

ghost use Rattle.std.specs.Prelude.{◌≡◌, IfErr, IfOk};
ghost use Rattle.std.proofs.Math.Option.{none, some};
ghost use Rattle.willow.specs.Ranges3d.{compare_ranges3d, includes_range3d, includes_triplet3d, range3d_prunable};
ghost use Rattle.packed.specs.LentPaths.{path_of};
ghost use Rattle.range.specs.NumberRanges.{range_of};
ghost use Rattle.area.specs.LentAreas.{triplet_at};
ghost use Rattle.path_bounds.specs.LentPaths.{lent_paths_refusal};
ghost use Rattle.path_bounds.specs.LentRanges.{range_paths};
ghost use Rattle.range_3d.specs.LentRanges3d.{range3d_of, range3d_of_paths};

use crate::Range3d;
use packed::lent::LentPath;
use path_bounds::lend_range;
use std::cmp::Ordering;
use willow::{Limits, Refusal};

impl Range3d<u64> {
    // The 3d range with its paths, once these passed the tests: 1, then 5.
    pub fn lend<'a>(
        self,
        limits: Limits,
        s: &'a [u8],
        e: &'a [u8],
    ) -> Result<Range3d<LentPath<'a>>, Refusal>
        ensures ok { IfOk result (λ r. (lent_paths_refusal limits (range_paths (range_of self.paths) s.now e.now) ≡ none) × (range3d_of_paths r ≡ range3d_of self s.now e.now)) }
        ensures err { IfErr result (λ r. lent_paths_refusal limits (range_paths (range_of self.paths) s.now e.now) ≡ some r) }
    {
        let paths = lend_range(limits, self.paths, s, e)?;
        Ok(Range3d::new(self.subspaces, paths, self.times))
    }
}

impl<'a> Range3d<LentPath<'a>> {
    // Subspace, path and time are all included.
    pub fn includes_triplet(self, subspace: u64, path: LentPath<'a>, timestamp: u64) -> bool
        ensures { result ≡ includes_triplet3d (range3d_of_paths self.entry) (triplet_at subspace (path_of path.entry) timestamp) }
    {
        self.subspaces.includes(subspace)
            && self.paths.includes(path)
            && self.times.includes(timestamp)
    }

    // The bounds of all three ranges are compared.
    pub fn includes_range(self, other: Range3d<LentPath<'a>>) -> bool
        ensures { result ≡ includes_range3d (range3d_of_paths self.entry) (range3d_of_paths other.entry) }
    {
        self.subspaces.includes_range(other.subspaces)
            && self.paths.includes_range(other.paths)
            && self.times.includes_range(other.times)
    }

    // The subspace is included, the timestamp not below the start, the path included or related to the start.
    pub fn could_be_pruned(self, subspace: u64, path: LentPath<'a>, timestamp: u64) -> bool
        ensures { result ≡ range3d_prunable (range3d_of_paths self.entry) (triplet_at subspace (path_of path.entry) timestamp) }
    {
        self.subspaces.includes(subspace)
            && self.times.start <= timestamp
            && (self.paths.includes(path) || path.is_related(self.paths.start))
    }

    // By subspaces, then paths, then times.
    pub fn compare(self, other: Range3d<LentPath<'a>>) -> Ordering
        ensures { result ≡ compare_ranges3d (range3d_of_paths self.entry) (range3d_of_paths other.entry) }
    {
        self.cmp(&other)
    }
}
