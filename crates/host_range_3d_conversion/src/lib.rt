// An area as a 3d range (`range_3d_intersection`, `from_area`) for a host in another language. The area is passed as in `host_area`;
// the call refuses 1, then 3, then 5, then 15. Nothing is required of the host but that a buffer is as long as it says and that the buffer
// to write overlaps no other. The parts come one by one, and the answer is a struct of numbers, as a call for C passes them.
#![tactic(auto, unfolding(kinds::specs::Kinds::on_kinds))]

ghost use Rattle.std.specs.Prelude.{◌≡◌};
ghost use Rattle.willow.specs.Answers.{on_path, outcome_by, packed_outcome, path_in, written_buffer, written_length};
ghost use Rattle.willow.specs.Ranges3d.{range3d_from};
ghost use Rattle.convention.specs.Exports.{limits_of};
ghost use Rattle.kinds.specs.Kinds.{on_kinds};
ghost use Rattle.least.specs.Places.{next_greater_of};
ghost use Rattle.area_kinds.specs.AreaKinds.{area_from, area_with};
ghost use Rattle.range_3d_intersection.specs.Sides3d.{converted, converted_after, counts_at};
ghost use Rattle.host_range_3d_conversion.specs.ConversionExports.{given_counts};

use range_3d::Range3d;
use willow::{Limits, Refusal};

// An area as a 3d range: 0 or a refusal's number; its ranges of numbers; the counts of its paths, where the start is the area's own
// path and the end was written; and how many bytes were written. Zeros unless there is one, and 0 beside kind 0.
#[repr(C)]
#[derive(Clone, Copy, Default)]
pub struct ConvertedAnswer {
    pub status: u64,
    pub subspace_start: u64,
    pub subspace_end_kind: u64,
    pub subspace_end: u64,
    pub start_count: u64,
    pub path_end_kind: u64,
    pub end_count: u64,
    pub written: u64,
    pub time_start: u64,
    pub time_end_kind: u64,
    pub time_end: u64,
}

// A 3d range of an area that may have been refused.
impl From<Result<(Range3d<u64>, u64), Refusal>> for ConvertedAnswer {
    ghost from_gives = { λ c a. a ≡ given_counts (outcome_by converted c) };

    fn from(converted: Result<(Range3d<u64>, u64), Refusal>) -> ConvertedAnswer {
        match converted {
            Err(r) => ConvertedAnswer {
                status: refusals::refusal_number(r),
                ..ConvertedAnswer::default()
            },
            Ok((m, written)) => ConvertedAnswer {
                status: 0,
                subspace_start: m.subspaces.start,
                subspace_end_kind: kinds::end_kind(m.subspaces.end),
                subspace_end: kinds::end_value(m.subspaces.end),
                start_count: m.paths.start,
                path_end_kind: kinds::end_kind(m.paths.end),
                end_count: kinds::end_value(m.paths.end),
                written,
                time_start: m.times.start,
                time_end_kind: kinds::end_kind(m.times.end),
                time_end: kinds::end_value(m.times.end),
            },
        }
    }
}

// The 3d range that includes the same triplets as an area. Its end is written packed to the front of a buffer, where there is one.
pub fn wotskrale_range_3d_from_area(
    mcl: u64,
    mcc: u64,
    mpl: u64,
    kind: u64,
    id: u64,
    base: &[u8],
    count: u64,
    start: u64,
    end_kind: u64,
    end: u64,
    out: &mut [u8],
) -> ConvertedAnswer
    ensures value { result ≡ given_counts (on_kinds (limits_of mcl mcc mpl) (area_from kind id count start end_kind end) (λ a. converted_after (written_length (packed_outcome (on_path (limits_of mcl mcc mpl) base.now a.count (next_greater_of (limits_of mcl mcc mpl)))) out.old) (counts_at (range3d_from (limits_of mcl mcc mpl) (area_with a (path_in base.now a.count)))))) }
    ensures out_after { out.new ≡ written_buffer (packed_outcome (on_kinds (limits_of mcl mcc mpl) (area_from kind id count start end_kind end) (λ a. on_path (limits_of mcl mcc mpl) base.now a.count (next_greater_of (limits_of mcl mcc mpl))))) out.old }
{
    let limits = Limits { mcl, mcc, mpl };
    // By hand: with `and_then`, whose closure borrows `out`, the search did not find what the call leaves in `out`.
    match area_kinds::read_area(limits, kind, id, count, start, end_kind, end) {
        Err(r) => ConvertedAnswer::from(Err(r)),
        Ok(a) => ConvertedAnswer::from(range_3d_intersection::from_area(limits, a, base, out)),
    }
}
