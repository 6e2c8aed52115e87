// For C: the call of `host_range_3d_conversion`, as a static library. It is the call of that name there, and promises what that promises;
// the head of `host_range_3d_conversion` says how its arguments are passed.
#![tactic(auto)]

ghost use Rattle.std.specs.Prelude.{◌≡◌};
ghost use Rattle.willow.specs.Answers.{on_path, packed_outcome, path_in, written_buffer, written_length};
ghost use Rattle.willow.specs.Ranges3d.{range3d_from};
ghost use Rattle.convention.specs.Exports.{limits_of};
ghost use Rattle.kinds.specs.Kinds.{on_kinds};
ghost use Rattle.least.specs.Places.{next_greater_of};
ghost use Rattle.area_kinds.specs.AreaKinds.{area_from, area_with};
ghost use Rattle.range_3d_intersection.specs.Sides3d.{converted_after, counts_at};
ghost use Rattle.host_range_3d_conversion.specs.ConversionExports.{given_counts};

use host_range_3d_conversion::ConvertedAnswer;

// The 3d range that includes the same triplets as an area. Its end is written packed to the front of a buffer, where there is one.
#[unsafe(no_mangle)]
pub extern "C" fn wotskrale_range_3d_from_area(
    mcl: u64,
    mcc: u64,
    mpl: u64,
    kind: u64,
    id: u64,
    base: &[u8],
    count: u64,
    start: u64,
    end_kind: u64,
    end: u64,
    out: &mut [u8],
) -> ConvertedAnswer
    ensures value { result ≡ given_counts (on_kinds (limits_of mcl mcc mpl) (area_from kind id count start end_kind end) (λ a. converted_after (written_length (packed_outcome (on_path (limits_of mcl mcc mpl) base.now a.count (next_greater_of (limits_of mcl mcc mpl)))) out.old) (counts_at (range3d_from (limits_of mcl mcc mpl) (area_with a (path_in base.now a.count)))))) }
    ensures out_after { out.new ≡ written_buffer (packed_outcome (on_kinds (limits_of mcl mcc mpl) (area_from kind id count start end_kind end) (λ a. on_path (limits_of mcl mcc mpl) base.now a.count (next_greater_of (limits_of mcl mcc mpl))))) out.old }
{
    host_range_3d_conversion::wotskrale_range_3d_from_area(
        mcl, mcc, mpl, kind, id, base, count, start, end_kind, end, out,
    )
}
