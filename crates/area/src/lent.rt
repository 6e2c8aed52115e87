// Areas whose paths were tested.

use packed::lent::LentPath;
use range::Range;
use willow::AreaSubspace;

// An area with its path. Areas are ordered by subspace, then path, then times.
#[derive(Clone, Copy, PartialEq, Eq, PartialOrd, Ord)]
pub struct LentArea<'a> {
    pub subspace: AreaSubspace,
    pub path: LentPath<'a>,
    pub times: Range<u64>,
}
