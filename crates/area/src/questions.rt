// The questions on areas whose paths were tested. A triplet comes by its parts: a struct would be built only to be taken apart.

ghost use Rattle.std.specs.Prelude.{◌≡◌};
ghost use Rattle.willow.specs.Areas.{almost_includes_area, area_prunable, compare_areas, includes_area, includes_triplet};
ghost use Rattle.packed.specs.LentPaths.{path_of};
ghost use Rattle.area.specs.LentAreas.{area_of, triplet_at};

use crate::Area;
use crate::lent::LentArea;
use packed::lent::LentPath;
use std::cmp::Ordering;

impl Area {
    // The area with the path that was tested.
    pub fn at<'a>(self, path: LentPath<'a>) -> LentArea<'a>
        ensures subspace { result.subspace ≡ self.subspace }
        ensures path { path_of result.path ≡ path_of path.entry }
        ensures times { result.times ≡ self.times }
    {
        LentArea {
            subspace: self.subspace,
            path,
            times: self.times,
        }
    }
}

impl<'a> LentArea<'a> {
    // Subspace, path and time are all included.
    pub fn includes_triplet(self, subspace: u64, path: LentPath, timestamp: u64) -> bool
        ensures { result ≡ includes_triplet (area_of self.entry) (triplet_at subspace (path_of path.entry) timestamp) }
    {
        subspace::includes(self.subspace, subspace)
            && self.path.is_prefix_of(path)
            && self.times.includes(timestamp)
    }

    // The bounds of times are compared once the paths and subspaces fit.
    pub fn includes_area(self, other: LentArea) -> bool
        ensures { result ≡ includes_area (area_of self.entry) (area_of other.entry) }
    {
        subspace::includes_area_subspace(self.subspace, other.subspace)
            && self.path.is_prefix_of(other.path)
            && self.times.includes_range(other.times)
    }

    // As inclusion, but for the subspaces.
    pub fn almost_includes_area(self, other: LentArea) -> bool
        ensures { result ≡ almost_includes_area (area_of self.entry) (area_of other.entry) }
    {
        subspace::agree(self.subspace, other.subspace)
            && self.path.is_prefix_of(other.path)
            && self.times.includes_range(other.times)
    }

    // Same or any subspace, timestamp not below the start, related paths.
    pub fn could_be_pruned(self, subspace: u64, path: LentPath, timestamp: u64) -> bool
        ensures { result ≡ area_prunable (area_of self.entry) (triplet_at subspace (path_of path.entry) timestamp) }
    {
        subspace::includes(self.subspace, subspace)
            && self.times.start <= timestamp
            && path.is_related(self.path)
    }

    // By subspace, then path, then times.
    pub fn compare(self, other: LentArea) -> Ordering
        ensures { result ≡ compare_areas (area_of self.entry) (area_of other.entry) }
    {
        self.cmp(&other)
    }
}
