// The intersection of 3d ranges, and areas as 3d ranges (grouping/range_3d.rs). The structs are plain values that a host keeps; their
// buffers are lent anew with each call, so they come beside them.
#![tactic(auto, unfolding(willow::specs::Answers::path_refusal, path_bounds::specs::LentPaths::on_lent, path_bounds::specs::LentPaths::lent_paths_refusal), using(range::proofs::MetLaws::answered_if_any))]

pub mod inner;

ghost use Rattle.std.specs.Prelude.{◌≡◌};
ghost use Rattle.willow.specs.Answers.{on_path, optional_outcome_by, outcome_by, packed_outcome, written_buffer, written_length};
ghost use Rattle.willow.specs.Ranges3d.{range3d_from};
ghost use Rattle.least.specs.Places.{next_greater_of};
ghost use Rattle.area.specs.LentAreas.{area_in};
ghost use Rattle.range_3d.specs.LentRanges3d.{on_ranges3d};
ghost use Rattle.range_3d_intersection.specs.Sides3d.{converted, converted_after, counts_at, sides_met3d, standing3d_of};

use area::Area;
use path_range_intersection::Side;
use range::Range;
use range_3d::Range3d;
use willow::{Limits, RangeEnd, Refusal};

// The 3d range of the triplets that lie in both, none where there is no such triplet. Refuses 1, then 5.
pub fn intersection(
    limits: Limits,
    range: Range3d<u64>,
    s: &[u8],
    e: &[u8],
    other: Range3d<u64>,
    s2: &[u8],
    e2: &[u8],
) -> Result<Option<Range3d<Side>>, Refusal>
    ensures { optional_outcome_by standing3d_of result ≡ on_ranges3d limits range s.now e.now other s2.now e2.now sides_met3d }
{
    let r = range.lend(limits, s, e)?;
    let r2 = other.lend(limits, s2, e2)?;
    Ok(inner::sides(r, r2))
}

// The 3d range that includes the same triplets as an area: its start is the area's path, its end is the next greater path, which is
// written packed to the front of a buffer, where there is one; the number says how many bytes were written. Refuses 1, then 5, then 15.
pub fn from_area(
    limits: Limits,
    area: Area,
    base: &[u8],
    out: &mut [u8],
) -> Result<(Range3d<u64>, u64), Refusal>
    ensures result_value { outcome_by converted result ≡ converted_after (written_length (packed_outcome (on_path limits base.now area.count (next_greater_of limits))) out.old) (counts_at (range3d_from limits (area_in area base.now))) }
    ensures out_after { out.new ≡ written_buffer (packed_outcome (on_path limits base.now area.count (next_greater_of limits))) out.old }
{
    let subspaces = inner::subspace_range(area.subspace);
    let times = area.times;
    let count = area.count;
    match least::greater_but_not_prefixed(limits, base, count, out)? {
        None => Ok((Range3d::new(subspaces, Range::new_open(count), times), 0)),
        Some(n) => {
            let end = RangeEnd::Closed(number::read_u64(out, 0));
            Ok((Range3d::new(subspaces, Range::new(count, end), times), n))
        }
    }
}
