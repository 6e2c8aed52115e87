// Areas of interest whose paths were tested.

use area::lent::LentArea;

// An area of interest with its path. They are ordered by area, then count, then size.
#[derive(Clone, Copy, PartialEq, Eq, PartialOrd, Ord)]
pub struct LentInterest<'a> {
    pub area: LentArea<'a>,
    pub max_count: u64,
    pub max_size: u64,
}
