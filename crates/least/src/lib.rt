// The least paths above a lent one (`successor`, `greater_but_not_prefixed` and `singleton_range` of path/mod.rs), written packed
// to the front of a lent buffer. One search serves them all. Refused are 1, 5, and 15 exactly if the buffer is too short for a
// path that there is; none is given with any buffer and writes nothing. A path comes as a buffer and a count, as document 01 lends it;
// `path_view` has the two as one value.
#![tactic(auto, unfolding(willow::specs::Answers::on_path))]

ghost use Rattle.std.specs.Prelude.{◌≡◌};
ghost use Rattle.willow.specs.Answers.{on_path, optional_outcome, packed_outcome, written_buffer, written_length};
ghost use Rattle.least.specs.Places.{next_greater_of, successor_of};

use least_search::inner as places;
use least_writing::inner;
use lent_path::lend;
use willow::{Limits, Refusal};

// The least valid path above a lent one that it does not prefix.
pub fn greater_but_not_prefixed(
    limits: Limits,
    b: &[u8],
    count: u64,
    out: &mut [u8],
) -> Result<Option<u64>, Refusal>
    ensures result_value { optional_outcome result ≡ written_length (packed_outcome (on_path limits b.now count (next_greater_of limits))) out.old }
    ensures out_after { out.new ≡ written_buffer (packed_outcome (on_path limits b.now count (next_greater_of limits))) out.old }
{
    let path = lend(limits, b, count)?;
    inner::write_place(path, places::search(limits, path), out)
}

// The least valid path above a lent one.
pub fn successor(
    limits: Limits,
    b: &[u8],
    count: u64,
    out: &mut [u8],
) -> Result<Option<u64>, Refusal>
    ensures result_value { optional_outcome result ≡ written_length (packed_outcome (on_path limits b.now count (successor_of limits))) out.old }
    ensures out_after { out.new ≡ written_buffer (packed_outcome (on_path limits b.now count (successor_of limits))) out.old }
{
    inner::write_successor(limits, lend(limits, b, count)?, out)
}

// The end of the range that holds a lent path alone; none where it is open. The Rust has both calls; the end of such a range is the
// successor.
pub fn singleton_range(
    limits: Limits,
    b: &[u8],
    count: u64,
    out: &mut [u8],
) -> Result<Option<u64>, Refusal>
    ensures result_value { optional_outcome result ≡ written_length (packed_outcome (on_path limits b.now count (successor_of limits))) out.old }
    ensures out_after { out.new ≡ written_buffer (packed_outcome (on_path limits b.now count (successor_of limits))) out.old }
{
    successor(limits, b, count, out)
}
